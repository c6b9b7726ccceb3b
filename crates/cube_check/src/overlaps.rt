//! The first two cubes that are not apart.
ghost use Rattle.std.specs.Prelude.{◌≡◌, ◌<◌, ◌+◌, ◌*◌, ◌≤◌, List, ℤ, length, IfOk};
ghost use Rattle.std.specs.List.{All};
ghost use Rattle.cube_check.specs.Verdicts.{met_at};
ghost use Rattle.cube_check.specs.Marks.{AreMarked, FitsMarks};
ghost use Rattle.cube_check.specs.Misses.{IsNamed};
ghost use Rattle.cube_check.specs.Runs.{AreRuns, TellsNegated, TellsOverlap, TellsSecond, TellsOverlaps};

use crate::marks::Marks;
use crate::met::Met;
use crate::runs::{Runs, cube_at};
use sat_terms::apart;
use std::alloc::{AllocError, Global};

/// The places of the first cube that some later one is not apart from, and of the first such one,
/// from 0. Each cube walks over the tree of all of them, and passes a branch over where it negates
/// the branch's literal: in a listing of a search it goes along one path.
pub(crate) fn first_overlap(
    alloc: Global,
    variables: u32,
    met: &[Met],
    marks: &mut Marks,
) -> Result<Option<(usize, usize)>, AllocError>
    requires named { All (IsNamed variables) met.now }
    requires places { length marks.old.stamps ≡ 2 * (variables + 1) }
    ensures { IfOk result (TellsOverlaps met.now) }
{
    let runs = Runs::make(alloc, met)?;
    for first in 0..met.len() {
        marks.clear();
        marks.mark(cube_at(met, first));
        if overlaps_another(variables, met, &runs, marks, first) {
            if let Some(second) = first_behind(met, first) {
                return Ok(Some((first, second)));
            }
        }
    }
    Ok(None)
}

/// Whether the marked cube, that at `place`, is not apart from some other one.
fn overlaps_another(variables: u32, met: &[Met], runs: &Runs, marks: &Marks, place: usize) -> bool
    requires named { All (IsNamed variables) met.now }
    requires places { length marks.now.stamps ≡ 2 * (variables + 1) }
    requires runs { AreRuns met.now runs.now }
    requires inside { place < length met.now }
    requires marked { AreMarked marks.now (met_at met.now place).cube }
    ensures { TellsOverlap met.now place result }
{
    let mut at = 0;
    while at < runs.count() {
        let other = runs.place(at);
        match first_negated(cube_at(met, other), runs.shared(at), marks) {
            Some(depth) => at = runs.behind(at, depth + 1),
            None if other == place => at += 1,
            None => return true,
        }
    }
    false
}

/// The place of the first of the literals from `from` on whose negation is marked.
fn first_negated(lits: &[i32], from: usize, marks: &Marks) -> Option<usize>
    requires { All (FitsMarks marks.now) lits.now }
    ensures { (c : List ℤ) → AreMarked marks.now c → TellsNegated c lits.now from result }
{
    for place in from..lits.len() {
        if marks.has_negation(lits[place]) {
            return Some(place);
        }
    }
    None
}

/// The first cube behind `first` that the one there is not apart from. One walk over the cubes.
fn first_behind(met: &[Met], first: usize) -> Option<usize>
    requires { first < length met.now }
    ensures { TellsSecond met.now first result }
{
    for second in first + 1..met.len() {
        if !apart(cube_at(met, first), cube_at(met, second)) {
            return Some(second);
        }
    }
    None
}
