//! The check: cubes against clauses, and then against each other.
ghost use Rattle.std.specs.Prelude.{IfOk};
ghost use Rattle.std.specs.List.{All};
ghost use Rattle.sat_terms.specs.Subjects.{IsSubject};
ghost use Rattle.cube_check.specs.Verdicts.{IsMet, IsVerdict};

use crate::marks::Marks;
use crate::met::Met;
use crate::misses::{find_pairs, first_miss};
use crate::overlaps::first_overlap;
use crate::verdict::Verdict;
use sat_terms::Subject;
use std::alloc::{AllocError, Global};

/// The verdict on these cubes. Each cube is looked at once with each clause, up to the first of its
/// literals that is met. Then each walks over a tree of all cubes, and passes each branch over that
/// begins with a negation of one of its literals: in a listing of a search it goes along one path.
/// At worst, where cubes leave out the variables that part the others, each one visits each other.
/// Memory is that of the variables, of a mark for each clause, and of three numbers for each cube.
pub fn check_listing(alloc: Global, subject: &Subject, met: &[Met]) -> Result<Verdict, AllocError>
    requires subject { IsSubject subject.now.formula.variables subject.now.formula.clauses
        subject.now.shown subject.now.under }
    requires met { All (IsMet subject.now.formula.variables subject.now.shown) met.now }
    ensures { IfOk result (IsVerdict subject.now.formula.clauses met.now) }
{
    let pairs = find_pairs(alloc, &subject.formula)?;
    let mut marks = Marks::make(alloc, subject.formula.variables)?;
    if let Some((cube, clause)) = first_miss(&subject.formula, &pairs, met, &mut marks) {
        return Ok(Verdict::NotMet {
            cube: cube + 1,
            clause: clause + 1,
        });
    }
    match first_overlap(alloc, subject.formula.variables, met, &mut marks)? {
        Some((first, second)) => Ok(Verdict::Overlap {
            first: first + 1,
            second: second + 1,
        }),
        None => Ok(Verdict::Right),
    }
}
