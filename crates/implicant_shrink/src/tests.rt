//! Models and their least levels.
ghost use Rattle.std.specs.Prelude.{◌≡◌, ℕ, ◌+◌, ◌<◌, ◌≤◌, true, length, is_some, IfOk};
ghost use Rattle.std.specs.List.{All};
ghost use Rattle.sat_terms.specs.Literals.{IsLiteralOf};
ghost use Rattle.sat_terms.specs.Subjects.{IsFormula};
ghost use Rattle.chrono_trail.specs.Items.{item_of};
ghost use Rattle.implicant_shrink.specs.Shrinking.{formula_of, IsFor};

use crate::{Shrinker, Shrunk, shrink};
use chrono_trail::{Kind, Trail};
use clause_arena::Arena;
use sat_terms::{Clause, Formula, Items};
use std::alloc::{AllocError, Global};
use std::test::Fail;

/// Variables 1 and 2 of 4 are shown.
const TWO: [bool; 5] = [false, true, true, false, false];

/// Variables 1 to 3 of 4 are shown.
const THREE: [bool; 5] = [false, true, true, true, false];

/// The arena of these two clauses over the variables 1 to 4.
fn arena_of(alloc: Global, first: &[i32], second: &[i32]) -> Result<Arena, AllocError>
    requires first { All (IsLiteralOf 4) first.now }
    requires second { All (IsLiteralOf 4) second.now }
    requires few_first { length first.now ≤ 4 }
    requires few_second { length second.now ≤ 4 }
    ensures { IfOk result (λ arena. All (All (IsLiteralOf 4)) arena.clauses) }
{
    let mut clauses = Vec::new(alloc);
    clauses.push(Clause::from_lits(alloc, first)?)?;
    clauses.push(Clause::from_lits(alloc, second)?)?;
    Arena::make(
        alloc,
        &Formula {
            variables: 4,
            clauses: Items::from_vec(clauses),
        },
    )
}

/// Whether each of the variables 1 to 4 is assigned.
fn is_full(trail: &Trail) -> bool
    requires { trail.now.variables ≡ 4 }
    ensures { result ≡ true → (v : ℕ) → 0 < v → v ≤ 4 → is_some (item_of trail.now.items v) ≡ true }
{
    for below in 0..4 {
        if trail.item(below + 1).is_none() {
            return false;
        }
    }
    true
}

/// What shrinking comes to, with a shrinker's state and without; None where the two differ, or some
/// variable is unassigned.
fn shrunk(
    arena: &Arena,
    kept: &mut Shrinker,
    shown: &[bool],
    trail: &Trail,
    base: u32,
) -> Option<Shrunk>
    requires variables { trail.now.variables ≡ 4 }
    requires table { length shown.now ≡ 5 }
    requires clauses { All (All (IsLiteralOf 4)) arena.now.clauses }
    requires formula { IsFor (formula_of arena.now) kept.old }
    ensures formula { IsFor (formula_of arena.now) kept.new }
{
    if !is_full(trail) {
        return None;
    }
    match shrink(arena, shown, trail, base) {
        Shrunk::Level(level) => {
            if kept.level(arena, shown, trail, base) == level {
                Some(Shrunk::Level(level))
            } else {
                None
            }
        }
        Shrunk::Missed(id) => Some(Shrunk::Missed(id)),
    }
}

#[test]
fn a_flipped_literal_stays_and_one_turned_by_a_lemma_may_go(rt: HostRuntime) -> Result<(), Fail> {
    let arena = arena_of(rt.alloc(), &[1, 3, 4], &[1, 3, -4])?;
    let mut kept = Shrinker::make(rt.alloc(), &arena, 4)?;
    let mut trail = Trail::make(rt.alloc(), 4)?;
    trail.decide(-1);
    trail.decide(-2);
    trail.assign(3, 2, Kind::Flipped);
    trail.decide(-4);
    assert!(rt; shrunk(&arena, &mut kept, &THREE, &trail, 0) == Some(Shrunk::Level(2)));
    trail.backtrack(1);
    trail.assign(3, 1, Kind::Turned(2));
    trail.decide(-2);
    trail.decide(-4);
    assert!(rt; shrunk(&arena, &mut kept, &THREE, &trail, 0) == Some(Shrunk::Level(1)));
    Ok(())
}

#[test]
fn the_least_level_of_a_clause_counts(rt: HostRuntime) -> Result<(), Fail> {
    let arena = arena_of(rt.alloc(), &[-3, -1], &[-2, -3])?;
    let mut kept = Shrinker::make(rt.alloc(), &arena, 4)?;
    let mut trail = Trail::make(rt.alloc(), 4)?;
    trail.decide(-1);
    trail.decide(-2);
    trail.decide(-3);
    trail.decide(-4);
    assert!(rt; shrunk(&arena, &mut kept, &THREE, &trail, 0) == Some(Shrunk::Level(2)));
    assert!(rt; shrunk(&arena, &mut kept, &THREE, &trail, 3) == Some(Shrunk::Level(3)));
    assert!(rt; shrunk(&arena, &mut kept, &TWO, &trail, 0) == Some(Shrunk::Level(0)));
    Ok(())
}

#[test]
fn a_pair_needs_no_level(rt: HostRuntime) -> Result<(), Fail> {
    let arena = arena_of(rt.alloc(), &[1, 2, -1], &[3, 4])?;
    let mut kept = Shrinker::make(rt.alloc(), &arena, 4)?;
    let mut trail = Trail::make(rt.alloc(), 4)?;
    trail.decide(-1);
    trail.decide(-2);
    trail.decide(3);
    trail.decide(-4);
    assert!(rt; shrunk(&arena, &mut kept, &TWO, &trail, 0) == Some(Shrunk::Level(0)));
    Ok(())
}

#[test]
fn the_first_false_clause_is_missed(rt: HostRuntime) -> Result<(), Fail> {
    let arena = arena_of(rt.alloc(), &[-1, 2], &[1, 3])?;
    let mut kept = Shrinker::make(rt.alloc(), &arena, 4)?;
    let mut trail = Trail::make(rt.alloc(), 4)?;
    trail.decide(-1);
    trail.decide(-2);
    trail.decide(-3);
    trail.decide(-4);
    assert!(rt; shrunk(&arena, &mut kept, &TWO, &trail, 0) == Some(Shrunk::Missed(1)));
    Ok(())
}
