//! Worked rows: the clause that is learnt, its levels and what it asserts.
ghost use Rattle.std.specs.Prelude.{◌≡◌, ◌≤◌, [], ◌∷◌, length, IfOk};
ghost use Rattle.std.specs.List.{All};
ghost use Rattle.sat_terms.specs.Literals.{IsLiteralOf};
ghost use Rattle.clause_arena.specs.Once.{once};

use crate::Analyser;
use chrono_trail::{Kind, Trail};
use clause_arena::Arena;
use sat_terms::{Clause, Formula, Items};
use std::alloc::{AllocError, Global};
use std::test::Fail;

/// The arena of these two clauses over the variables 1 to `variables`.
fn arena_of(
    alloc: Global,
    variables: u32,
    first: &[i32],
    second: &[i32],
) -> Result<Arena, AllocError>
    requires small { variables ≤ 6 }
    requires first { All (IsLiteralOf variables) first.now }
    requires second { All (IsLiteralOf variables) second.now }
    requires few_first { length first.now ≤ 6 }
    requires few_second { length second.now ≤ 6 }
    ensures clauses { IfOk result (λ arena. arena.clauses ≡ once first.now ∷ once second.now ∷ []) }
{
    let mut clauses = Vec::new(alloc);
    clauses.push(Clause::from_lits(alloc, first)?)?;
    clauses.push(Clause::from_lits(alloc, second)?)?;
    let formula = Formula {
        variables,
        clauses: Items::from_vec(clauses),
    };
    Arena::make(alloc, &formula)
}

/// The second literal of the clause is of the level of the first, so nothing can be turned by it.
#[test]
fn a_flipped_literal_is_learnt_beside_the_decision(rt: HostRuntime) -> Result<(), Fail> {
    let arena = arena_of(rt.alloc(), 3, &[1, -2, 3], &[1, -2, -3])?;
    let mut trail = Trail::make(rt.alloc(), 3)?;
    trail.decide(-1);
    trail.assign(2, 1, Kind::Flipped);
    trail.assign(3, 1, Kind::Implied(0));
    let mut analyser = Analyser::make(rt.alloc(), 3)?;
    let learnt = analyser.analyse(&arena, &trail, 1);
    assert_eq!(rt; learnt.lits, [-2, 1].as_slice());
    assert_eq!(rt; learnt.conflict_level, 1);
    assert_eq!(rt; learnt.rest_level, 1);
    assert_eq!(rt; learnt.asserts, Some(1));
    Ok(())
}

/// An assumed literal of level 0 is learnt too. A second call finds no mark of the first.
#[test]
fn the_highest_levels_come_first_and_the_others_rise(rt: HostRuntime) -> Result<(), Fail> {
    let arena = arena_of(rt.alloc(), 6, &[6, 5, 4], &[-6, 1, -2, 5])?;
    let mut trail = Trail::make(rt.alloc(), 6)?;
    trail.assign(2, 0, Kind::Assumed);
    trail.decide(-1);
    trail.decide(-4);
    trail.decide(-5);
    trail.assign(6, 3, Kind::Implied(0));
    let mut analyser = Analyser::make(rt.alloc(), 6)?;
    let before = analyser.analyse(&arena, &trail, 1);
    assert_eq!(rt; before.lits, [5, 4, -2, 1].as_slice());
    let learnt = analyser.analyse(&arena, &trail, 1);
    assert_eq!(rt; learnt.lits, [5, 4, -2, 1].as_slice());
    assert_eq!(rt; learnt.conflict_level, 3);
    assert_eq!(rt; learnt.rest_level, 2);
    assert_eq!(rt; learnt.asserts, Some(5));
    Ok(())
}

#[test]
fn the_empty_clause_teaches_itself(rt: HostRuntime) -> Result<(), Fail> {
    let arena = arena_of(rt.alloc(), 1, &[], &[1])?;
    let trail = Trail::make(rt.alloc(), 1)?;
    let mut analyser = Analyser::make(rt.alloc(), 1)?;
    let learnt = analyser.analyse(&arena, &trail, 0);
    assert_eq!(rt; learnt.lits, [].as_slice());
    assert_eq!(rt; learnt.conflict_level, 0);
    assert_eq!(rt; learnt.rest_level, 0);
    assert_eq!(rt; learnt.asserts, None);
    Ok(())
}
