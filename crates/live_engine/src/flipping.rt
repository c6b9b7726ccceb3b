//! Flips: the other side of a decision, after a conflict or a model.
ghost use Rattle.std.specs.Prelude.{◌≡◌, ◌<◌, ◌≤◌, ◌^◌, pos, slice_index_or, [], false, None, nat_abs};
ghost use Rattle.std.specs.List.Sorted.{IsStrictlyIncreasing};
ghost use Rattle.chrono_trail.specs.Clauses.{rest_level};
ghost use Rattle.chrono_trail.specs.Items.{item_of, is_decision};
ghost use Rattle.propagation.specs.Steps.{IsFalseOf};
ghost use Rattle.projected_decide.specs.Orders.{HasPassed};
ghost use Rattle.live_engine.specs.Values.{AreCopied};
ghost use Rattle.live_engine.specs.Searching.{IsGround, IsSearching};
ghost use Rattle.live_engine.specs.Steps.{TakesBack, PutsOther, FlipsDecision, ConflictComesTo};

use crate::search::{Leaf, Search, Step, counted};
use chrono_trail::{Item, Kind, level_of_rest};
use sat_terms::is_shown;

impl Search {
    /// Turns the decision of the conflict's level over, the greatest level of a literal of the
    /// false clause. Where that is the base or below, nothing is left to try. The answer is the
    /// leaf that the search came to; None where the decision is hidden, so that it goes on.
    pub(crate) fn on_conflict(&mut self, id: u32) -> Option<Step>
        requires searching { IsSearching self.old }
        requires wrong { IsFalseOf self.old.arena.clauses self.old.trail.items id }
        ensures { ConflictComesTo self.old self.new result }
    {
        let level = self.level_of_clause(id);
        if level <= self.base {
            self.leaves = counted(self.leaves);
            return Some(Step::Last(Leaf::Dead));
        }
        if self.turn(id, level) {
            self.leaves = counted(self.leaves);
            return Some(Step::Goes(Leaf::Dead));
        }
        None
    }

    /// The greatest level of a literal of a false clause.
    fn level_of_clause(&self, id: u32) -> u32
        requires searching { IsSearching self.now }
        requires wrong { IsFalseOf self.now.arena.clauses self.now.trail.items id }
        ensures level { result ≡ rest_level self.now.trail.items (pos 0)
            (slice_index_or self.now.arena.clauses id []) }
        ensures within { result ≤ self.now.trail.level }
    {
        level_of_rest(&self.trail, self.arena.lits(id), 0)
    }

    /// Takes the levels from this one on back, and puts the negation of its decision on the level
    /// below. Answers whether the decision is a shown one.
    pub(crate) fn flip(&mut self, level: u32) -> bool
        requires ground { IsGround self.old }
        requires passed { HasPassed self.old.trail.items self.old.order }
        requires copied { AreCopied self.old.trail.items self.old.copied self.old.values.items }
        requires some { 0 < level }
        requires within { level ≤ self.old.trail.level }
        ensures { FlipsDecision self.old self.new level result }
    {
        let decision = self.take_back(level);
        self.put_other(decision, level - 1, Kind::Flipped)
    }

    /// Takes the levels from this one on back, puts their variables back among those to decide, and
    /// answers the decision of this level. The time is that of a walk over the items from it on.
    pub(crate) fn take_back(&mut self, level: u32) -> Item
        requires order { self.old.order.variables ≡ self.old.trail.variables }
        requires passed { HasPassed self.old.trail.items self.old.order }
        requires copied { AreCopied self.old.trail.items self.old.copied self.old.values.items }
        requires some { 0 < level }
        requires within { level ≤ self.old.trail.level }
        ensures { TakesBack self.old self.new level result }
    {
        let place = self.trail.decision(level);
        let decision = self.trail.items()[place];
        self.copied = self.copied.min(place);
        self.order.put_back_above(&self.trail, level - 1);
        self.trail.backtrack(level - 1);
        decision
    }

    /// Puts the negation of a decision that was taken back on the trail. Answers whether it is a
    /// shown one.
    pub(crate) fn put_other(&mut self, decision: Item, level: u32, kind: Kind) -> bool
        requires shown { IsStrictlyIncreasing self.old.shown.items }
        requires small { self.old.trail.variables < 2 ^ 31 }
        requires named { 0 < nat_abs decision.lit }
        requires of { nat_abs decision.lit ≤ self.old.trail.variables }
        requires free { item_of self.old.trail.items (nat_abs decision.lit) ≡ None }
        requires below { level ≤ self.old.trail.level }
        requires undecided { is_decision kind ≡ false }
        ensures { PutsOther self.old self.new decision level kind result }
    {
        self.trail.assign(-decision.lit, level, kind);
        is_shown(self.shown.as_slice(), decision.lit.unsigned_abs())
    }
}
