//! Unit propagation, by scanning the formula.
ghost use Rattle.std.specs.Prelude.{◌≤◌};
ghost use Rattle.plain_search.specs.Searching.{IsListing, work_left};
ghost use Rattle.plain_search.specs.Steps.{RoundCameTo};

use crate::search::Search;
use chrono_trail::{Kind, Scanned, scan};
use sat_terms::Subject;

/// What one round of propagation came to.
#[derive(Clone, Copy, Debug, PartialEq, Eq)]
pub(crate) enum Propagated {
    /// A clause is false.
    Conflict,
    /// Literals were implied.
    Moved,
    /// No clause is false or unit.
    Quiet,
}

impl Search {
    /// Scans each clause once, and implies the literal of each unit one, on the current level.
    pub(crate) fn propagate(&mut self, subject: &Subject) -> Propagated
        requires { IsListing subject.now self.old }
        ensures searching { IsListing subject.now self.new }
        ensures left { work_left subject.now self.new ≤ work_left subject.now self.old }
        ensures outcome { RoundCameTo subject.now self.old self.new result }
    {
        let mut propagated = Propagated::Quiet;
        for (place, clause) in subject.formula.clauses.as_slice().iter().enumerate() {
            let level = self.trail.level();
            match scan(&self.trail, clause.lits()) {
                Scanned::False => return Propagated::Conflict,
                Scanned::Unit(lit) => {
                    self.trail.assign(lit, level, Kind::Implied(place as u32));
                    propagated = Propagated::Moved;
                }
                Scanned::Neither => {}
            }
        }
        propagated
    }
}
