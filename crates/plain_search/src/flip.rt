//! Flips: the other side of a decision.
ghost use Rattle.std.specs.Prelude.{◌≤◌};
ghost use Rattle.plain_search.specs.Steps.{FlipsOrEnds};

use crate::decide::Reached;
use crate::search::Search;
use chrono_trail::Kind;

impl Search {
    /// Takes the levels from this one on back, and puts the negation of its decision on the level
    /// below. False at level 0, which has no decision: nothing is left to try.
    pub(crate) fn flip(&mut self, level: u32) -> bool
        requires { level ≤ self.old.trail.level }
        ensures { FlipsOrEnds self.old self.new level result }
    {
        if level == 0 {
            return false;
        }
        let decision = self.trail.items()[self.trail.decision(level)];
        self.trail.backtrack(level - 1);
        self.trail.assign(-decision.lit, level - 1, Kind::Flipped);
        self.reached = Reached::none();
        true
    }
}
