//! Shrinking a model: the least level whose shown literals, with all hidden ones, meet each clause,
//! and the cube of these literals.
ghost use Rattle.std.specs.Prelude.{◌≡◌, ℕ, ◌≤◌, ◌||◌, nat_le, nat_abs, IfOk};
ghost use Rattle.std.specs.List.{All};
ghost use Rattle.std.specs.List.Sorted.{IsStrictlyIncreasing};
ghost use Rattle.sat_terms.specs.Literals.{IsLiteralOf};
ghost use Rattle.plain_search.specs.Searching.{IsListing};
ghost use Rattle.plain_search.specs.Steps.{IsModel, IsLeastLevel, FindsLeast, level_within};
ghost use Rattle.plain_search.specs.Steps.{is_shown_flip, flips_within, needs_within};
ghost use Rattle.plain_search.specs.Steps.{counts_within, counts_any, cube_within};

use crate::search::Search;
use chrono_trail::{Item, Kind};
use sat_terms::{Cube, Subject, is_shown};
use std::alloc::{AllocError, Global};

impl Search {
    /// Takes a model: its cube up to the least level is found. The answer is that level.
    pub(crate) fn shrink(&mut self, alloc: Global, subject: &Subject) -> Result<u32, AllocError>
        requires searching { IsListing subject.now self.old }
        requires model { IsModel subject.now self.old }
        ensures { IfOk result (FindsLeast subject.now self.old self.new) }
    {
        let level = self.least_level(subject);
        let cube = self.cube_up_to(alloc, subject, level)?;
        self.found.push(cube)?;
        Ok(level)
    }

    /// The least level of a model: no shown flipped literal is above it, and each clause has a true
    /// literal among the hidden ones and the shown ones up to it, or holds a pair.
    fn least_level(&self, subject: &Subject) -> u32
        requires searching { IsListing subject.now self.now }
        requires model { IsModel subject.now self.now }
        ensures { IsLeastLevel subject.now self.now result }
    {
        let mut level = self.flips_level(subject);
        for (place, clause) in subject.formula.clauses.as_slice().iter().enumerate() {
            if !self.pairs[place] {
                level = level.max(self.clause_level(subject, clause.lits()).unwrap());
            }
        }
        level
    }

    /// The greatest level of a shown literal that was flipped; 0 where there is none. A cube has to
    /// hold these, or it would overlap one that was found on the other side.
    fn flips_level(&self, subject: &Subject) -> u32
        requires { IsListing subject.now self.now }
        ensures { (b : ℕ) → flips_within subject.now self.now b ≡ nat_le result b }
    {
        let mut level = 0;
        for item in self.trail.items() {
            if is_shown_flip(subject, item) {
                level = level.max(item.level);
            }
        }
        level
    }

    /// The least level at which a literal of the clause counts; None where none does.
    fn clause_level(&self, subject: &Subject, clause: &[i32]) -> Option<u32>
        requires searching { IsListing subject.now self.now }
        requires named { All (IsLiteralOf subject.now.formula.variables) clause.now }
        ensures { (b : ℕ) → counts_any subject.now self.now b clause.now ≡ level_within b result }
    {
        let mut least = None;
        for lit in clause {
            least = lower(least, self.literal_level(subject, *lit));
        }
        least
    }

    /// The level from which on a literal counts: its own for a true shown one, and 0 for a true
    /// hidden one. None where it is not true.
    fn literal_level(&self, subject: &Subject, lit: i32) -> Option<u32>
        requires searching { IsListing subject.now self.now }
        requires named { nat_abs lit ≤ subject.now.formula.variables }
        ensures { (b : ℕ) → counts_within subject.now self.now b lit ≡ level_within b result }
    {
        let item = self.trail.item(lit.unsigned_abs())?;
        if item.lit == lit {
            Some(needed_level(subject, &item))
        } else {
            None
        }
    }

    /// The cube of the shown literals up to this level.
    fn cube_up_to(&self, alloc: Global, subject: &Subject, level: u32) -> Result<Cube, AllocError>
        requires { IsListing subject.now self.now }
        ensures { IfOk result (λ cube. cube ≡ cube_within subject.now self.now level) }
    {
        let mut lits = Vec::new(alloc);
        for variable in subject.shown.as_slice() {
            if let Some(item) = self.trail.item(*variable) {
                if item.level <= level {
                    lits.push(item.lit)?;
                }
            }
        }
        Ok(Cube::from_vec(lits))
    }
}

/// The level of a shown item, and 0 of a hidden one.
fn needed_level(subject: &Subject, item: &Item) -> u32
    requires { IsStrictlyIncreasing subject.now.shown }
    ensures { (b : ℕ) → needs_within subject.now b item.now ≡ nat_le result b }
{
    if is_shown(subject.shown.as_slice(), item.lit.unsigned_abs()) {
        item.level
    } else {
        0
    }
}

/// The lower of two levels, where there are some.
fn lower(first: Option<u32>, second: Option<u32>) -> Option<u32>
    ensures { (b : ℕ) → (level_within b first || level_within b second) ≡ level_within b result }
{
    match (first, second) {
        (Some(level), Some(other)) => Some(level.min(other)),
        (None, other) => other,
        (level, None) => level,
    }
}

/// Whether this is a shown literal that was flipped.
fn is_shown_flip(subject: &Subject, item: &Item) -> bool
    requires { IsStrictlyIncreasing subject.now.shown }
    ensures { result ≡ is_shown_flip subject.now item.now }
{
    match item.kind {
        Kind::Flipped => is_shown(subject.shown.as_slice(), item.lit.unsigned_abs()),
        Kind::Assumed | Kind::Decided | Kind::Turned(_) | Kind::Implied(_) => false,
    }
}
