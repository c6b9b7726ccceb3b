//! The literals of one cube at a time, each of which is found at one look.
ghost use Rattle.std.specs.Prelude.{◌≡◌, ◌<◌, ◌+◌, ◌*◌, ◌≤◌, ◌^◌, List, ℤ, [], ◌++◌, neg_ℤ, nat_abs, length, IfOk};
ghost use Rattle.std.specs.List.{All};
ghost use Rattle.sat_terms.specs.Cubes.{has_literal};
ghost use Rattle.sat_terms.specs.Stamps.{AreStamped};
ghost use Rattle.cube_check.specs.Marks.{AreMarked, FitsMarks};

use sat_terms::place_of;
use std::alloc::{AllocError, Global};
use std::marker::Model;

/// A table with a stamp for each literal. Those that bear the present stamp are marked, so no mark
/// has to be taken away one by one.
#[derive(Drop)]
pub(crate) struct Marks {
    stamps: Vec<u32>,
    stamp: u32,
}

impl Model for Marks {
    ghost use Rattle.cube_check.specs.Marks.{MarksView, KeepsMarks};

    ghost Value = { MarksView };

    ghost view = { λ m. record { stamps = m.stamps.items; stamp = m.stamp } };

    ghost invariant = { λ m. KeepsMarks (record { stamps = m.stamps.items; stamp = m.stamp }) };
}

impl Marks {
    /// Marks for the literals of the variables 0 to `variables`. It takes eight bytes for each.
    pub(crate) fn make(alloc: Global, variables: u32) -> Result<Marks, AllocError>
        requires { variables < 2 ^ 31 }
        ensures { IfOk result (λ marks. length marks.stamps ≡ 2 * (variables + 1)) }
    {
        let places = 2 * (variables as usize + 1);
        Ok(Marks {
            stamps: vec![in alloc; 0u32; places]?,
            stamp: 0,
        })
    }

    /// Takes all marks away, mostly at one step.
    pub(crate) fn clear(&mut self)
        ensures none { AreMarked self.new [] }
        ensures places { length self.new.stamps ≡ length self.old.stamps }
    {
        if self.stamp == u32::MAX {
            self.stamps.fill(0);
            self.stamp = 0;
        }
        self.stamp += 1;
    }

    /// Marks these literals beside those that are marked.
    pub(crate) fn mark(&mut self, lits: &[i32])
        requires places { All (FitsMarks self.old) lits.now }
        ensures more { (c : List ℤ) → AreMarked self.old c → AreMarked self.new (c ++ lits.now) }
        ensures places { length self.new.stamps ≡ length self.old.stamps }
    {
        stamp_literals(self.stamps.as_mut_slice(), self.stamp, lits);
    }

    /// Whether the literal is marked.
    pub(crate) fn has(&self, lit: i32) -> bool
        requires place { FitsMarks self.now lit }
        ensures { (c : List ℤ) → AreMarked self.now c → result ≡ has_literal c lit }
    {
        self.stamps[place_of(lit)] == self.stamp
    }

    /// Whether the negation of the literal is marked.
    pub(crate) fn has_negation(&self, lit: i32) -> bool
        requires place { FitsMarks self.now lit }
        ensures { (c : List ℤ) → AreMarked self.now c → result ≡ has_literal c (neg_ℤ lit) }
    {
        self.stamps[place_of(-lit)] == self.stamp
    }
}

/// Stamps these literals.
fn stamp_literals(stamps: &mut [u32], stamp: u32, lits: &[i32])
    requires older { All (λ s. s ≤ stamp) stamps.old }
    requires places { All (λ l. 2 * nat_abs l + 1 < length stamps.old) lits.now }
    ensures more { (c : List ℤ) → AreStamped stamps.old stamp c →
        AreStamped stamps.new stamp (c ++ lits.now) }
    ensures older { All (λ s. s ≤ stamp) stamps.new }
{
    for lit in lits {
        stamps[place_of(*lit)] = stamp;
    }
}
