//! The search, and the loop that makes its moves.
ghost use Rattle.std.specs.Prelude.{[], IfOk};
ghost use Rattle.sat_terms.specs.RightList.{IsRightList};
ghost use Rattle.sat_terms.specs.Subjects.{IsSubject};
ghost use Rattle.plain_search.specs.Searching.{IsListing, Advances};

use crate::decide::Reached;
use crate::pairs::find_pairs;
use crate::propagate::Propagated;
use chrono_trail::Trail;
use sat_terms::{Cube, Subject, compare};
use std::alloc::{AllocError, Global};

/// A search on its way.
#[derive(Drop)]
pub(crate) struct Search {
    /// What is assigned.
    pub(crate) trail: Trail,
    /// Of each clause, whether it holds a literal and its negation.
    pub(crate) pairs: Vec<bool>,
    /// How far the walk for the lowest free variable has come.
    pub(crate) reached: Reached,
    /// The cubes found, in the order in which they were.
    pub(crate) found: Vec<Cube>,
}

impl Search {
    /// The search that has nothing assigned and nothing found.
    fn make(alloc: Global, subject: &Subject) -> Result<Search, AllocError>
        requires { IsSubject subject.now.formula.variables subject.now.formula.clauses
            subject.now.shown subject.now.under }
        ensures { IfOk result (IsListing subject.now) }
    {
        Ok(Search {
            trail: Trail::make(alloc, subject.formula.variables)?,
            pairs: find_pairs(alloc, &subject.formula)?,
            reached: Reached::none(),
            found: Vec::new(alloc),
        })
    }

    /// Makes one move: a round of propagation, and where it came to rest, what follows a conflict,
    /// a decision, or what follows a model. False where the search is over.
    fn step(&mut self, alloc: Global, subject: &Subject) -> Result<bool, AllocError>
        requires { IsListing subject.now self.old }
        ensures { IfOk result (Advances subject.now self.old self.new) }
    {
        match self.propagate(subject) {
            Propagated::Moved => Ok(true),
            Propagated::Conflict => {
                let level = self.trail.level();
                Ok(self.flip(level))
            }
            Propagated::Quiet => {
                if self.decide(subject) {
                    return Ok(true);
                }
                let level = self.shrink(alloc, subject)?;
                Ok(self.flip(level))
            }
        }
    }
}

/// All solutions of the subject's formula, projected on its shown variables, whatever its given
/// literals: the right list of it, sorted and pairwise apart. The time grows with the number of
/// branches: each walks over the variables once, and scans all clauses after each decision and each
/// round of implied literals. Memory is that of the formula's variables, of a mark for each clause,
/// and of the list.
pub fn enumerate_plain(alloc: Global, subject: &Subject) -> Result<Vec<Cube>, AllocError>
    requires { IsSubject subject.now.formula.variables subject.now.formula.clauses
        subject.now.shown subject.now.under }
    ensures { IfOk result (λ cubes. IsRightList subject.now.formula.clauses subject.now.shown []
        cubes.items) }
{
    let mut search = Search::make(alloc, subject)?;
    // Chronological backtracking: a conflict or a model takes the levels from one decision on back,
    // and that decision's negation, on the level below, closes the side that is done. So the trail
    // alone tells what was tried, and no clause has to block a model that was found.
    while search.step(alloc, subject)? {}
    search
        .found
        .sort_unstable_by(|c, d| compare(c.lits(), d.lits()));
    Ok(search.found)
}
