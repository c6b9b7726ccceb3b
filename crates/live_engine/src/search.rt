//! The search of a job, and the loop that makes its moves up to the next leaf.
ghost use Rattle.std.specs.Prelude.{◌≡◌, ◌<◌, ◌≤◌, ◌^◌, [], length, vec_capacity};
ghost use Rattle.chrono_trail.specs.Trails.{IsTrail};
ghost use Rattle.propagation.specs.Steps.{CameTo};
ghost use Rattle.live_engine.specs.Searching.{IsSearching, KeepsLeaves, left};
ghost use Rattle.live_engine.specs.Steps.{ComesTo, counted};

use chrono_trail::Trail;
use clause_arena::Arena;
use conflict_analysis::Analyser;
use implicant_shrink::Shrinker;
use projected_decide::Order;
use propagation::{Propagated, Propagator};
use sat_terms::Cube;
use std::alloc::Global;

/// At so many leaves their number stands still.
const MOST_LEAVES: u64 = 1 << 62;

/// What a call for a leaf came to.
#[derive(Clone, Copy, Debug, PartialEq, Eq)]
pub enum Leaf {
    /// A cube was found.
    Found,
    /// A conflict whose decision is shown, or which needs none: nothing is to be found there.
    Dead,
    /// Nothing is left to try.
    Ended,
}

/// A leaf, and whether the search goes on after it.
#[derive(Clone, Copy, Debug)]
pub(crate) enum Step {
    /// There is more to try.
    Goes(Leaf),
    /// It was the last one.
    Last(Leaf),
}

/// Where the search of a job stands.
#[derive(Clone, Copy, Debug)]
pub(crate) enum Phase {
    /// There is no job.
    Idle,
    /// It goes on.
    Running,
    /// Nothing is left to try.
    Over,
}

/// A search on its way.
#[derive(Debug, Drop)]
pub(crate) struct Search {
    /// The variables are 1 to this one.
    pub(crate) variables: u32,
    /// The clauses of the formula, and lemmas behind them.
    pub(crate) arena: Arena,
    /// What propagates them.
    pub(crate) propagator: Propagator,
    /// What is assigned.
    pub(crate) trail: Trail,
    /// What is decided next.
    pub(crate) order: Order,
    /// What a conflict teaches.
    pub(crate) analyser: Analyser,
    /// So many lemmas are kept at most.
    pub(crate) most_lemmas: u32,
    /// What a model needs of its literals.
    pub(crate) shrinker: Shrinker,
    /// The shown variables, rising.
    pub(crate) shown: Vec<u32>,
    /// Whether a variable is one of them, by its number.
    pub(crate) is_shown: Vec<bool>,
    /// The prefix of the job.
    pub(crate) prefix: Cube,
    /// Decisions up to this level are not flipped: their other sides are not the job's.
    pub(crate) base: u32,
    /// Of each level, how many leaves there were when its decision was made.
    pub(crate) counts: Vec<u64>,
    /// How many leaves there were.
    pub(crate) leaves: u64,
    /// The value of each variable in the last model, by its number.
    pub(crate) values: Vec<bool>,
    /// Whether there was a model.
    pub(crate) has_model: bool,
    /// So many of the oldest items of the trail say the same as these values.
    pub(crate) copied: usize,
    /// So many of the lemmas, the first ones, were sent or are not to be.
    pub(crate) sent: u32,
    /// The cubes found, in the order in which they were.
    pub(crate) found: Vec<Cube>,
}

impl Search {
    /// Makes moves up to the next leaf. Where memory is wanting it does with `spare` and the place
    /// kept free among the found cubes.
    pub(crate) fn next_leaf(&mut self, alloc: Global, spare: &mut Vec<i32>) -> Step
        requires searching { IsSearching self.old }
        requires empty { spare.old.items ≡ [] }
        requires room { length self.old.shown.items ≤ vec_capacity spare.old }
        requires place { length self.old.found.items < vec_capacity self.old.found }
        ensures { ComesTo self.old self.new result }
    {
        // Chronological backtracking: a conflict or a model takes the levels from one decision on
        // back, and that decision's negation, on the level below, closes the side that is done. So
        // the trail alone tells what was tried, and no clause has to block a model that was found.
        loop {
            match self.propagate() {
                Propagated::Conflict(id) => {
                    if let Some(step) = self.on_conflict(id) {
                        return step;
                    }
                }
                Propagated::Quiet => {
                    if !self.decide() {
                        return self.on_model(alloc, spare);
                    }
                }
            }
        }
    }

    /// Appends what the clauses imply, each literal on its true level.
    fn propagate(&mut self) -> Propagated
        requires { IsSearching self.old }
        ensures searching { IsSearching self.new }
        ensures keeps { KeepsLeaves self.old self.new }
        ensures left { left self.new ≤ left self.old }
        ensures outcome { CameTo self.new.arena.clauses self.new.trail result }
    {
        self.propagator.propagate(&self.arena, &mut self.trail)
    }
}

/// One leaf more, up to the number at which it stands still.
pub(crate) fn counted(leaves: u64) -> u64
    requires { leaves ≤ 2 ^ 62 }
    ensures { result ≡ counted leaves }
{
    (leaves + 1).min(MOST_LEAVES)
}
