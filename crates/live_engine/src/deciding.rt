//! Decisions: the lowest free variable, false first.
ghost use Rattle.std.specs.Prelude.{◌≡◌, ◌<◌, length, slice_set};
ghost use Rattle.live_engine.specs.Searching.{IsSearching};
ghost use Rattle.live_engine.specs.Steps.{DecidesOrIsFull};

use crate::search::Search;

impl Search {
    /// Decides the lowest free variable false, on a new level, and notes how many leaves there are
    /// by now. False where each variable is set.
    pub(crate) fn decide(&mut self) -> bool
        requires { IsSearching self.old }
        ensures { DecidesOrIsFull self.old self.new result }
    {
        match self.order.next(&self.trail) {
            Some(lit) => {
                self.trail.decide(lit);
                note(&mut self.counts, self.trail.level(), self.leaves);
                true
            }
            None => false,
        }
    }
}

/// Notes the number of leaves as the count of a level.
fn note(counts: &mut Vec<u64>, level: u32, leaves: u64)
    requires { level < length counts.old.items }
    ensures { counts.new.items ≡ slice_set counts.old.items level leaves }
{
    counts[level as usize] = leaves;
}
