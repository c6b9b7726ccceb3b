//! Which clauses of the formula hold a literal and its negation, so that each assignment meets
//! them.
ghost use Rattle.std.specs.Prelude.{◌≡◌, ◌<◌, ◌^◌, map, IfOk};
ghost use Rattle.std.specs.List.{All};
ghost use Rattle.sat_terms.specs.Cubes.{has_pair};
ghost use Rattle.sat_terms.specs.Literals.{IsLiteralOf};
ghost use Rattle.implicant_shrink.specs.Shrinking.{formula_of};

use clause_arena::Arena;
use sat_terms::PairFinder;
use std::alloc::{AllocError, Global};

/// For each clause of the formula, whether it holds a pair. The time is that of two walks over it,
/// with a table of its literals.
pub(crate) fn find_pairs(
    alloc: Global,
    arena: &Arena,
    variables: u32,
) -> Result<Vec<bool>, AllocError>
    requires small { variables < 2 ^ 31 }
    requires clauses { All (All (IsLiteralOf variables)) arena.now.clauses }
    ensures { IfOk result (λ pairs. pairs.items ≡ map has_pair (formula_of arena.now)) }
{
    let mut finder = PairFinder::make(alloc, variables)?;
    let mut pairs = Vec::new(alloc);
    for id in 0..arena.base() {
        pairs.push(finder.has_pair(arena.lits(id)))?;
    }
    Ok(pairs)
}
