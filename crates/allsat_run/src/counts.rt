//! For tests: how many cubes hold each assignment of at most nine shown variables. The value of the
//! lowest shown variable is the lowest bit of an assignment.
use sat_terms::Cube;
use std::alloc::{AllocError, Global};

/// Which shown variables a cube fixes, as bits, and which of these are true.
#[derive(Clone, Copy, Debug)]
struct Sides {
    fixed: usize,
    truth: usize,
}

/// The value that the literals give a variable.
fn value_in(lits: &[i32], variable: u32) -> Option<bool> {
    for lit in lits {
        if lit.unsigned_abs() == variable {
            return Some(*lit > 0);
        }
    }
    None
}

/// What the literals fix of the shown variables.
fn sides_of(lits: &[i32], shown: &[u32]) -> Sides {
    let mut sides = Sides { fixed: 0, truth: 0 };
    let mut bit: usize = 1;
    for variable in shown {
        if let Some(value) = value_in(lits, *variable) {
            sides.fixed |= bit;
            sides.truth |= if value { bit } else { 0 };
        }
        bit = bit.wrapping_mul(2);
    }
    sides
}

/// Counts of the cubes of a listing or of its pieces.
#[derive(Debug, Drop)]
pub(crate) struct Counts {
    counts: Vec<u32>,
}

impl Counts {
    /// No cube yet.
    pub(crate) fn none(alloc: Global, shown: &[u32]) -> Result<Counts, AllocError> {
        let size = 1usize << shown.len().min(9);
        Ok(Counts {
            counts: vec![in alloc; 0; size]?,
        })
    }

    /// Counts one cube.
    pub(crate) fn count(&mut self, shown: &[u32], lits: &[i32]) {
        let sides = sides_of(lits, shown);
        for (assignment, count) in self.counts.iter_mut().enumerate() {
            if assignment & sides.fixed == sides.truth {
                *count = count.saturating_add(1);
            }
        }
    }

    /// Counts these cubes.
    pub(crate) fn count_all(&mut self, shown: &[u32], cubes: &[Cube]) {
        for cube in cubes {
            self.count(shown, cube.lits());
        }
    }

    /// Forgets what is counted outside of a cube.
    pub(crate) fn keep_within(&mut self, shown: &[u32], lits: &[i32]) {
        let sides = sides_of(lits, shown);
        for (assignment, count) in self.counts.iter_mut().enumerate() {
            if assignment & sides.fixed != sides.truth {
                *count = 0;
            }
        }
    }

    /// Whether no assignment is counted twice.
    pub(crate) fn is_set(&self) -> bool {
        self.counts.iter().all(|count| *count <= 1)
    }

    /// Whether no assignment is counted.
    pub(crate) fn is_empty(&self) -> bool {
        self.counts.iter().all(|count| *count == 0)
    }

    /// The counts, by assignment.
    pub(crate) fn as_slice(&self) -> &[u32] {
        self.counts.as_slice()
    }
}
