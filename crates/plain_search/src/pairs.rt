//! Which clauses of the formula hold a literal and its negation, so that each assignment meets
//! them.
ghost use Rattle.std.specs.Prelude.{◌≡◌, map, IfOk};
ghost use Rattle.sat_terms.specs.Subjects.{IsFormula};
ghost use Rattle.sat_terms.specs.Cubes.{has_pair};

use sat_terms::{Formula, PairFinder};
use std::alloc::{AllocError, Global};

/// For each clause, whether it holds a pair. The time is that of two walks over the formula, with a
/// table of its literals.
pub(crate) fn find_pairs(alloc: Global, formula: &Formula) -> Result<Vec<bool>, AllocError>
    requires { IsFormula formula.now.variables formula.now.clauses }
    ensures { IfOk result (λ pairs. pairs.items ≡ map has_pair formula.now.clauses) }
{
    let mut finder = PairFinder::make(alloc, formula.variables)?;
    let mut pairs = Vec::new(alloc);
    for clause in formula.clauses.as_slice() {
        pairs.push(finder.has_pair(clause.lits()))?;
    }
    Ok(pairs)
}
