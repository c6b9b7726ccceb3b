//! That the calls succeed, and the answers on worked formulas.
ghost use Rattle.std.specs.Prelude.{◌≤◌, length, IfOk};
ghost use Rattle.std.specs.List.{All};
ghost use Rattle.sat_terms.specs.Literals.{IsLiteralOf};
ghost use Rattle.sat_terms.specs.Subjects.{IsFormula};

use crate::Arena;
use sat_terms::{Clause, Formula, Items};
use std::alloc::{AllocError, Global};
use std::test::Fail;

/// The formula over the variables 1 to 4 with these two clauses.
fn formula_of(alloc: Global, first: &[i32], second: &[i32]) -> Result<Formula, AllocError>
    requires first { All (IsLiteralOf 4) first.now }
    requires second { All (IsLiteralOf 4) second.now }
    requires few_first { length first.now ≤ 4 }
    requires few_second { length second.now ≤ 4 }
    ensures { IfOk result (λ formula. IsFormula formula.variables formula.clauses) }
{
    let mut clauses = Vec::new(alloc);
    clauses.push(Clause::from_lits(alloc, first)?)?;
    clauses.push(Clause::from_lits(alloc, second)?)?;
    Ok(Formula {
        variables: 4,
        clauses: Items::from_vec(clauses),
    })
}

#[test]
fn a_lemma_comes_and_goes(rt: HostRuntime) -> Result<(), Fail> {
    let formula = formula_of(rt.alloc(), &[2, 4], &[2, -4])?;
    let mut arena = Arena::make(rt.alloc(), &formula)?;
    assert_eq!(rt; arena.len(), 2);
    assert_eq!(rt; arena.base(), 2);
    assert!(rt; arena.has_room(1));
    assert_eq!(rt; arena.add(&[2])?, 2);
    assert_eq!(rt; arena.len(), 3);
    assert!(rt; arena.base() < arena.len());
    arena.pop();
    assert_eq!(rt; arena.len(), 2);
    Ok(())
}

#[test]
fn long_lemmas_go_and_short_ones_move_down(rt: HostRuntime) -> Result<(), Fail> {
    let formula = formula_of(rt.alloc(), &[1, 2, 3], &[4])?;
    let mut arena = Arena::make(rt.alloc(), &formula)?;
    arena.add(&[1, 2, 3])?;
    arena.add(&[3, 4])?;
    arena.add(&[-1, 2, -3])?;
    arena.add(&[-2])?;
    arena.drop_lemmas(2);
    assert!(rt; arena.len() == 4);
    assert_eq!(rt; arena.lits(0), [1, 2, 3].as_slice());
    assert_eq!(rt; arena.lits(2), [3, 4].as_slice());
    assert_eq!(rt; arena.lits(3), [-2].as_slice());
    Ok(())
}

#[test]
fn a_repeated_literal_is_kept_once(rt: HostRuntime) -> Result<(), Fail> {
    let formula = formula_of(rt.alloc(), &[2, -2, 2], &[])?;
    let arena = Arena::make(rt.alloc(), &formula)?;
    assert!(rt; arena.len() == 2);
    assert_eq!(rt; arena.lits(0), [2, -2].as_slice());
    assert_eq!(rt; arena.lits(1), [].as_slice());
    Ok(())
}

#[test]
fn room_ends_at_the_limit_of_literals(rt: HostRuntime) -> Result<(), Fail> {
    let formula = formula_of(rt.alloc(), &[1], &[3])?;
    let arena = Arena::make(rt.alloc(), &formula)?;
    assert!(rt; arena.has_room(16_000_000));
    assert!(rt; !arena.has_room(16_000_001));
    Ok(())
}
