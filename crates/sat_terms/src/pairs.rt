//! Which clauses hold a literal and its negation, so that each assignment meets them.
ghost use Rattle.std.specs.Prelude.{◌≡◌, ◌*◌, ◌+◌, ◌<◌, ◌≤◌, ◌^◌, length, nat_abs, IfOk};
ghost use Rattle.std.specs.List.{All};
ghost use Rattle.sat_terms.specs.Cubes.{has_pair};
ghost use Rattle.sat_terms.specs.Literals.{IsLiteralOf};
ghost use Rattle.sat_terms.specs.Stamps.{AreStamped};

use crate::place_of;
use std::alloc::{AllocError, Global};
use std::marker::Model;

/// Looks for pairs in one clause after another. It keeps a table of all literals, in which each
/// clause has a stamp of its own, so that no clause has to clear the table.
#[derive(Debug, Drop)]
pub struct PairFinder {
    variables: u32,
    stamps: Vec<u32>,
    last: u32,
}

impl Model for PairFinder {
    ghost use Rattle.std.specs.Prelude.{ℕ};
    ghost use Rattle.sat_terms.specs.Stamps.{IsStampTable};

    ghost Value = { ℕ };

    ghost view = { λ finder. finder.variables };

    ghost invariant = { λ finder. IsStampTable finder.variables finder.stamps.items finder.last };
}

impl PairFinder {
    /// A finder for clauses over the variables 1 to `variables`. It takes eight bytes for each.
    pub fn make(alloc: Global, variables: u32) -> Result<PairFinder, AllocError>
        requires { variables < 2 ^ 31 }
        ensures { IfOk result (λ finder. finder ≡ variables) }
    {
        let places = 2 * (variables as usize + 1);
        Ok(PairFinder {
            variables,
            stamps: vec![in alloc; 0u32; places]?,
            last: 0,
        })
    }

    /// Whether the clause holds a literal and its negation. Linear time.
    pub fn has_pair(&mut self, clause: &[i32]) -> bool
        requires { All (IsLiteralOf self.old) clause.now }
        ensures pair { result ≡ has_pair clause.now }
        ensures same { self.new ≡ self.old }
    {
        if self.last == u32::MAX {
            self.stamps.fill(0);
            self.last = 0;
        }
        self.last += 1;
        find_pair(self.stamps.as_mut_slice(), self.last, clause)
    }
}

/// Stamps the literals of a clause.
fn stamp_literals(stamps: &mut [u32], stamp: u32, clause: &[i32])
    requires older { All (λ s. s < stamp) stamps.old }
    requires places { All (λ l. 2 * nat_abs l + 1 < length stamps.old) clause.now }
    ensures literals { AreStamped stamps.new stamp clause.now }
    ensures stamps { All (λ s. s ≤ stamp) stamps.new }
{
    for lit in clause {
        stamps[place_of(*lit)] = stamp;
    }
}

/// Whether the clause holds a literal and its negation, by a stamp that the table does not have.
fn find_pair(stamps: &mut [u32], stamp: u32, clause: &[i32]) -> bool
    requires small { length stamps.old ≤ 2 ^ 32 }
    requires older { All (λ s. s < stamp) stamps.old }
    requires places { All (λ l. 2 * nat_abs l + 1 < length stamps.old) clause.now }
    ensures pair { result ≡ has_pair clause.now }
    ensures stamps { All (λ s. s ≤ stamp) stamps.new }
{
    stamp_literals(stamps, stamp, clause);
    for lit in clause {
        if stamps[place_of(-*lit)] == stamp {
            return true;
        }
    }
    false
}
