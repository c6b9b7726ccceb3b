//! Gives: the lowest untried prefix of a job is handed out, and the job goes on without it.
ghost use Rattle.std.specs.Prelude.{◌≡◌, ◌+◌, ◌-◌, ◌<◌, ◌≤◌, ◌^◌, [], IfOk, IfErr, length, filter, map};
ghost use Rattle.std.specs.Prelude.{not, take, slice_index_or, vec_capacity, true};
ghost use Rattle.sat_terms.specs.Cubes.{rises_above, within};
ghost use Rattle.search_job.specs.Same.{front_cube, other_cube};
ghost use Rattle.chrono_trail.specs.declared.item.Item.{Item};
ghost use Rattle.chrono_trail.specs.Pictures.{pictured};
ghost use Rattle.live_engine.specs.Marks.{AreMarkedBy};
ghost use Rattle.live_engine.specs.Searching.{IsGround, IsSearching};
ghost use Rattle.live_engine.specs.Gives.{pictured_before, FindsNextShown, IsKeptPlace};
ghost use Rattle.live_engine.specs.Gives.{leaves_gone, KeepsWithin, HandsOutOrNot};

use crate::exposing::{mark, plain_literal};
use crate::search::Search;
use prefix_jobs::Outcome;
use sat_terms::{Cube, Items, is_shown, within};
use std::alloc::{AllocError, Global};
use std::mem::replace;

impl Search {
    /// Gives the lowest untried prefix away, and goes on within what is left of the job's own. None
    /// where nothing is untried. All memory is taken before anything changes.
    pub(crate) fn give(&mut self, alloc: Global) -> Result<Option<Outcome>, AllocError>
        requires { IsSearching self.old }
        ensures gives { IfOk result (λ given. HandsOutOrNot self.old self.new given) }
        ensures unchanged { IfErr result (λ _. self.new ≡ self.old) }
    {
        let Some(place) = self.next_shown() else {
            return Ok(None);
        };
        let mut rest = Vec::with_capacity(alloc, 1)?;
        rest.push_reserved(self.other_side(alloc, place)?);
        let kept = self.prefix_before(alloc, self.kept_place())?;
        let prefix = kept.copy(alloc)?;
        let stay = Vec::with_capacity(alloc, self.found.len())?;
        let out = Vec::with_capacity(alloc, self.found.len())?;
        let leaves = self.leaves_gone();
        let cubes = self.keep_within(prefix, leaves, stay, out);
        Ok(Some(Outcome {
            cubes: Items::from_vec(cubes),
            rest: Items::from_vec(rest),
            kept: Some(kept),
            leaves,
        }))
    }

    /// The place of the decision of the level above the base, if there is one and it is shown.
    /// Hidden decisions stand behind all shown ones, so where it is hidden no shown one is above.
    fn next_shown(&self) -> Option<usize>
        requires { IsSearching self.now }
        ensures { FindsNextShown self.now result }
    {
        if self.trail.level() <= self.base {
            return None;
        }
        let place = self.trail.decision(self.base + 1);
        let decision = self.trail.items()[place];
        if is_shown(self.shown.as_slice(), decision.lit.unsigned_abs()) {
            Some(place)
        } else {
            None
        }
    }

    /// Where the items of the kept prefix end: at the decision two levels above the base, whatever
    /// its kind, or behind all where there is none.
    fn kept_place(&self) -> usize
        requires { IsSearching self.now }
        ensures { IsKeptPlace self.now result }
    {
        if self.trail.level() <= self.base + 1 {
            self.trail.items().len()
        } else {
            self.trail.decision(self.base + 2)
        }
    }

    /// The leaves that were counted before the decision two levels above the base was made, if
    /// there is one and it is shown; else all.
    fn leaves_gone(&self) -> u64
        requires { IsSearching self.now }
        ensures { result ≡ leaves_gone self.now }
    {
        if self.trail.level() <= self.base + 1 {
            return self.leaves;
        }
        let decision = self.trail.items()[self.trail.decision(self.base + 2)];
        if is_shown(self.shown.as_slice(), decision.lit.unsigned_abs()) {
            self.counts[self.base as usize + 2]
        } else {
            self.leaves
        }
    }

    /// The prefix of the items before a place, as a cube.
    fn prefix_before(&self, alloc: Global, place: usize) -> Result<Cube, AllocError>
        requires ground { IsGround self.now }
        requires within { place ≤ length self.now.trail.items }
        ensures { IfOk result (λ cube. cube
            ≡ front_cube (pictured_before self.now place) self.now.shown.items) }
    {
        let marks = self.marks_before(alloc, place)?;
        self.marked_cube(alloc, &marks)
    }

    /// The other side of the item at a place: the prefix before it, and its negation.
    fn other_side(&self, alloc: Global, place: usize) -> Result<Cube, AllocError>
        requires ground { IsGround self.now }
        requires inside { place < length self.now.trail.items }
        ensures { (d : Item) → IfOk result (λ cube. cube
            ≡ other_cube (pictured self.now.arena.clauses
            (slice_index_or self.now.trail.items place d))
            (pictured_before self.now place) self.now.shown.items) }
    {
        let mut marks = self.marks_before(alloc, place)?;
        let item = self.trail.items()[place];
        mark(&mut marks, item.lit.unsigned_abs(), Some(-item.lit));
        self.marked_cube(alloc, &marks)
    }

    /// At each variable the literal that the items before a place have of it, if no clause implied
    /// it.
    fn marks_before(&self, alloc: Global, place: usize) -> Result<Vec<Option<i32>>, AllocError>
        requires ground { IsGround self.now }
        requires within { place ≤ length self.now.trail.items }
        ensures long { IfOk result (λ marks. length marks.items ≡ self.now.variables + 1) }
        ensures marks { IfOk result (λ marks. AreMarkedBy self.now.variables marks.items
            (pictured_before self.now place)) }
    {
        let mut marks = vec![in alloc; None; self.variables as usize + 1]?;
        for item in &self.trail.items()[..place] {
            mark(&mut marks, item.lit.unsigned_abs(), plain_literal(*item));
        }
        Ok(marks)
    }

    /// Goes on within a prefix, without so many of the leaves. The cubes found outside the prefix
    /// are the answer. It takes no memory but `stay` and `out`.
    fn keep_within(&mut self, prefix: Cube, gone: u64, stay: Vec<Cube>, out: Vec<Cube>) -> Vec<Cube>
        requires few { gone ≤ self.old.leaves }
        requires next { self.old.base < 2 ^ 31 }
        requires stays { stay.items ≡ [] }
        requires goes { out.items ≡ [] }
        requires room { length self.old.found.items ≤ vec_capacity stay }
        requires room_out { length self.old.found.items ≤ vec_capacity out }
        ensures keeps { KeepsWithin self.old self.new prefix gone }
        ensures cubes { result.items ≡ filter (λ c. not (within c prefix)) self.old.found.items }
    {
        let cubes = part(&mut self.found, prefix.lits(), stay, out);
        self.prefix = prefix;
        self.base += 1;
        lower(&mut self.counts, gone);
        self.leaves -= gone;
        cubes
    }
}

/// Keeps the cubes within a prefix, in the memory of `stay`; the others are the answer, in that of
/// `out`.
fn part(found: &mut Vec<Cube>, prefix: &[i32], stay: Vec<Cube>, out: Vec<Cube>) -> Vec<Cube>
    requires rising { rises_above 0 prefix.now ≡ true }
    requires stays { stay.items ≡ [] }
    requires goes { out.items ≡ [] }
    requires room { length found.old.items ≤ vec_capacity stay }
    requires room_out { length found.old.items ≤ vec_capacity out }
    ensures within { found.new.items ≡ filter (λ c. within c prefix.now) found.old.items }
    ensures other { result.items ≡ filter (λ c. not (within c prefix.now)) found.old.items }
{
    let mut out = out;
    for cube in replace(found, stay) {
        if within(cube.lits(), prefix) {
            found.push_reserved(cube);
        } else {
            out.push_reserved(cube);
        }
    }
    out
}

/// Takes so many leaves off each count.
fn lower(counts: &mut Vec<u64>, gone: u64)
    ensures { counts.new.items ≡ map (λ k. k - gone) counts.old.items }
{
    for count in counts.iter_mut() {
        *count = count.saturating_sub(gone);
    }
}
