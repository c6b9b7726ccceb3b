//! Worked rows: what is implied, on which level, and which clause is false.
ghost use Rattle.std.specs.Prelude.{◌≡◌, ◌≤◌, length, IfOk};
ghost use Rattle.std.specs.List.{All};
ghost use Rattle.sat_terms.specs.Literals.{IsLiteralOf};
ghost use Rattle.sat_terms.specs.Subjects.{IsFormula};
ghost use Rattle.propagation.specs.Settled.{Watches, IsSettled};

use crate::{Propagated, Propagator};
use chrono_trail::{Item, Kind, Trail};
use clause_arena::Arena;
use sat_terms::{Clause, Formula, Items};
use std::alloc::{AllocError, Global};
use std::test::Fail;

/// The formula over the variables 1 to `variables` with these two clauses.
pub(crate) fn formula_of(
    alloc: Global,
    variables: u32,
    first: &[i32],
    second: &[i32],
) -> Result<Formula, AllocError>
    requires small { variables ≤ 6 }
    requires first { All (IsLiteralOf variables) first.now }
    requires second { All (IsLiteralOf variables) second.now }
    requires few_first { length first.now ≤ 4 }
    requires few_second { length second.now ≤ 4 }
    ensures formula { IfOk result (λ formula. IsFormula formula.variables formula.clauses) }
    ensures variables { IfOk result (λ formula. formula.variables ≡ variables) }
{
    let mut clauses = Vec::new(alloc);
    clauses.push(Clause::from_lits(alloc, first)?)?;
    clauses.push(Clause::from_lits(alloc, second)?)?;
    Ok(Formula {
        variables,
        clauses: Items::from_vec(clauses),
    })
}

/// Its arena.
pub(crate) fn arena_of(alloc: Global, formula: &Formula) -> Result<Arena, AllocError>
    requires { IsFormula formula.now.variables formula.now.clauses }
    ensures { IfOk result (λ arena. All (All (IsLiteralOf formula.now.variables)) arena.clauses) }
{
    Arena::make(alloc, formula)
}

/// Propagates over clauses that the propagator watches, under a trail of which no item is marked.
pub(crate) fn run(propagator: &mut Propagator, arena: &Arena, trail: &mut Trail) -> Propagated
    requires variables { trail.old.variables ≡ propagator.old.variables }
    requires clauses { All (All (IsLiteralOf propagator.old.variables)) arena.now.clauses }
    requires watches { Watches arena.now.clauses propagator.old }
    requires unseen { trail.old.seen ≡ 0 }
    ensures settled { IsSettled arena.now.clauses propagator.new trail.new }
    ensures known { propagator.new.known ≡ propagator.old.known }
    ensures own_variables { propagator.new.variables ≡ propagator.old.variables }
    ensures variables { trail.new.variables ≡ trail.old.variables }
    ensures level { trail.new.level ≡ trail.old.level }
{
    propagator.propagate(arena, trail)
}

#[test]
fn one_literal_implies_the_next(rt: HostRuntime) -> Result<(), Fail> {
    let formula = formula_of(rt.alloc(), 3, &[1, 2], &[-2, 3])?;
    let arena = arena_of(rt.alloc(), &formula)?;
    let mut trail = Trail::make(rt.alloc(), 3)?;
    let mut propagator = Propagator::make(rt.alloc(), &arena, 3)?;
    trail.decide(-1);
    assert!(rt; run(&mut propagator, &arena, &mut trail) == Propagated::Quiet);
    let decided = Item {
        lit: -1,
        level: 1,
        kind: Kind::Decided,
    };
    let second = Item {
        lit: 2,
        level: 1,
        kind: Kind::Implied(0),
    };
    let third = Item {
        lit: 3,
        level: 1,
        kind: Kind::Implied(1),
    };
    assert_eq!(rt; trail.items(), [decided, second, third].as_slice());
    trail.backtrack(0);
    assert_eq!(rt; trail.items().len(), 0);
    Ok(())
}

#[test]
fn what_needs_no_decision_stands_on_level_zero(rt: HostRuntime) -> Result<(), Fail> {
    let formula = formula_of(rt.alloc(), 4, &[-3, 2], &[3])?;
    let arena = arena_of(rt.alloc(), &formula)?;
    let mut trail = Trail::make(rt.alloc(), 4)?;
    let mut propagator = Propagator::make(rt.alloc(), &arena, 4)?;
    trail.decide(-1);
    assert!(rt; run(&mut propagator, &arena, &mut trail) == Propagated::Quiet);
    trail.backtrack(0);
    let first = Item {
        lit: 3,
        level: 0,
        kind: Kind::Implied(1),
    };
    let second = Item {
        lit: 2,
        level: 0,
        kind: Kind::Implied(0),
    };
    assert_eq!(rt; trail.items(), [first, second].as_slice());
    Ok(())
}

#[test]
fn two_clauses_cannot_both_hold(rt: HostRuntime) -> Result<(), Fail> {
    let formula = formula_of(rt.alloc(), 4, &[2, 4], &[2, -4])?;
    let mut arena = arena_of(rt.alloc(), &formula)?;
    assert_eq!(rt; (arena.len(), arena.base()), (2, 2));
    let mut trail = Trail::make(rt.alloc(), 4)?;
    let mut propagator = Propagator::make(rt.alloc(), &arena, 4)?;
    trail.decide(-1);
    trail.decide(-2);
    assert!(rt;
        matches!(
            run(&mut propagator, &arena, &mut trail),
            Propagated::Conflict(0 | 1)
        )
    );
    assert!(rt; arena.has_room(1));
    let id = arena.add(&[2])?;
    assert_eq!(rt; id, 2);
    propagator.learn(&arena, &mut trail, id)?;
    assert_eq!(rt; trail.items().len(), 3);
    propagator.rebuild(&arena);
    Ok(())
}

#[test]
fn a_clause_with_a_pair_implies_nothing(rt: HostRuntime) -> Result<(), Fail> {
    let formula = formula_of(rt.alloc(), 4, &[1, -1], &[2, 3, -3])?;
    let arena = arena_of(rt.alloc(), &formula)?;
    let mut trail = Trail::make(rt.alloc(), 4)?;
    let mut propagator = Propagator::make(rt.alloc(), &arena, 4)?;
    trail.decide(-2);
    assert!(rt; run(&mut propagator, &arena, &mut trail) == Propagated::Quiet);
    assert_eq!(rt; trail.items().len(), 1);
    Ok(())
}
