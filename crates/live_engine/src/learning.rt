//! Learning: what a conflict teaches is kept as a lemma, and where it asserts the other side of a
//! decision, it turns the decision over.
ghost use Rattle.std.specs.Prelude.{◌≡◌, ◌+◌, ◌<◌, ◌≤◌, pos, slice_index_or, [], take, length};
ghost use Rattle.std.specs.List.{All};
ghost use Rattle.sat_terms.specs.Literals.{IsLiteralOf};
ghost use Rattle.chrono_trail.specs.Clauses.{rest_level};
ghost use Rattle.propagation.specs.Settled.{IsSettled};
ghost use Rattle.propagation.specs.Steps.{IsFalseOf};
ghost use Rattle.live_engine.specs.Searching.{IsGround, IsSearching};
ghost use Rattle.live_engine.specs.Steps.{TurnsDecision};
ghost use Rattle.live_engine.specs.Learning.{AssertsBelow, TeachesOrNot, TakesUpOrForgets, DropsLemmas};

use crate::search::Search;
use chrono_trail::Kind;

/// A lemma that was added to the arena.
#[derive(Clone, Copy, Debug)]
pub(crate) struct Taught {
    /// Its number.
    pub(crate) id: u32,
    /// The level on which it asserts the other side of the decision of the conflict's level. None
    /// where it asserts nothing, or another literal of it is of that level too.
    pub(crate) level: Option<u32>,
}

impl Search {
    /// Turns the decision of the conflict's level over: by the lemma that the conflict teaches,
    /// where this asserts its other side, and by a flip else. Where there is no room or no memory
    /// for the lemma, nothing is learnt. Answers whether the decision is a shown one.
    pub(crate) fn turn(&mut self, id: u32, level: u32) -> bool
        requires searching { IsSearching self.old }
        requires wrong { IsFalseOf self.old.arena.clauses self.old.trail.items id }
        requires conflict { level ≡ rest_level self.old.trail.items (pos 0)
            (slice_index_or self.old.arena.clauses id []) }
        requires some { 0 < level }
        requires within { level ≤ self.old.trail.level }
        ensures { TurnsDecision self.old self.new level result }
    {
        let Some(taught) = self.learn(id) else {
            return self.flip(level);
        };
        let decision = self.take_back(level);
        if !self.take_up(taught.id) {
            return self.put_other(decision, level - 1, Kind::Flipped);
        }
        match taught.level {
            Some(below) => self.put_other(decision, below, Kind::Turned(taught.id)),
            None => self.put_other(decision, level - 1, Kind::Flipped),
        }
    }

    /// Adds what the conflict teaches to the arena. None where there is no room or no memory for
    /// it; then nothing has changed.
    fn learn(&mut self, id: u32) -> Option<Taught>
        requires searching { IsSearching self.old }
        requires wrong { IsFalseOf self.old.arena.clauses self.old.trail.items id }
        ensures { TeachesOrNot self.old self.new (rest_level self.old.trail.items (pos 0)
            (slice_index_or self.old.arena.clauses id [])) result }
    {
        let learnt = self.analyser.analyse(&self.arena, &self.trail, id);
        let lemmas = self.arena.len() - self.arena.base();
        if lemmas >= self.most_lemmas || !self.arena.has_room(learnt.lits.len()) {
            return None;
        }
        let level = level_below(learnt.asserts, learnt.rest_level, learnt.conflict_level);
        match self.arena.add(learnt.lits) {
            Ok(id) => Some(Taught { id, level }),
            Err(_) => None,
        }
    }

    /// Drops the lemmas of more than `keep` literals. No job runs, and so the trail may go.
    pub(crate) fn drop_lemmas(&mut self, keep: usize)
        requires { IsGround self.old }
        ensures { DropsLemmas self.old self.new keep }
    {
        self.trail.clear();
        self.arena.drop_lemmas(keep);
        self.propagator.rebuild(&self.arena);
    }

    /// Has the propagator take up the clause of this number, which was added last. Without memory
    /// for it the clause goes away again, and the answer is false.
    fn take_up(&mut self, id: u32) -> bool
        requires known { id ≡ self.old.propagator.known }
        requires last { length self.old.arena.clauses ≡ id + 1 }
        requires lemma { self.old.arena.base ≤ id }
        requires variables { self.old.trail.variables ≡ self.old.propagator.variables }
        requires named { All (All (IsLiteralOf self.old.propagator.variables))
            self.old.arena.clauses }
        requires settled { IsSettled (take id self.old.arena.clauses) self.old.propagator
            self.old.trail }
        ensures { TakesUpOrForgets self.old self.new id result }
    {
        match self.propagator.learn(&self.arena, &mut self.trail, id) {
            Ok(()) => true,
            Err(_) => {
                self.arena.pop();
                false
            }
        }
    }
}

/// The level of the other literals of a lemma, where it asserts one and they are all below the
/// conflict's level.
fn level_below(asserts: Option<i32>, rest: u32, conflict: u32) -> Option<u32>
    ensures { AssertsBelow asserts rest conflict result }
{
    match asserts {
        Some(_) if rest < conflict => Some(rest),
        _ => None,
    }
}
