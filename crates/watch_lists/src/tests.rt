//! That the calls succeed, and the answers on worked clauses.
ghost use Rattle.std.specs.Prelude.{◌≡◌, ◌+◌, ◌*◌, ◌<◌, ◌≤◌, length, IfOk, IfErr, slice_index_or, []};
ghost use Rattle.std.specs.List.{All};
ghost use Rattle.sat_terms.specs.Literals.{IsLiteralOf};
ghost use Rattle.sat_terms.specs.Subjects.{IsFormula};
ghost use Rattle.watch_lists.specs.Watching.{IsWatching};

use crate::{Watch, Watches};
use clause_arena::Arena;
use sat_terms::{Clause, Formula, Items};
use std::alloc::{AllocError, Global};
use std::test::Fail;

/// The arena of three clauses over the variables 1 to 4.
fn arena_of(alloc: Global, a: &[i32], b: &[i32], c: &[i32]) -> Result<Arena, AllocError>
    requires first { All (IsLiteralOf 4) a.now }
    requires second { All (IsLiteralOf 4) b.now }
    requires third { All (IsLiteralOf 4) c.now }
    requires few { length a.now ≤ 4 }
    requires few_second { length b.now ≤ 4 }
    requires few_third { length c.now ≤ 4 }
    ensures count { IfOk result (λ arena. length arena.clauses ≡ 3) }
    ensures base { IfOk result (λ arena. arena.base ≡ 3) }
    ensures literals { IfOk result (λ arena. All (All (IsLiteralOf 4)) arena.clauses) }
{
    let mut clauses = Vec::new(alloc);
    clauses.push(Clause::from_lits(alloc, a)?)?;
    clauses.push(Clause::from_lits(alloc, b)?)?;
    clauses.push(Clause::from_lits(alloc, c)?)?;
    let formula = Formula {
        variables: 4,
        clauses: Items::from_vec(clauses),
    };
    Arena::make(alloc, &formula)
}

/// Watches for each of the arena's three clauses.
fn watches_of(alloc: Global, arena: &Arena) -> Result<Watches, AllocError>
    requires count { length arena.now.clauses ≡ 3 }
    requires literals { All (All (IsLiteralOf 4)) arena.now.clauses }
    ensures lists { IfOk result (λ watches. length watches.lists ≡ 10) }
    ensures places { IfOk result (λ watches. length watches.lits ≡ 6) }
    ensures watching { IfOk result (λ watches. IsWatching watches arena.now.clauses) }
{
    Watches::make(alloc, arena, 4)
}

/// The places of the first three watches of a literal.
fn walk(watches: &Watches, lit: i32) -> [u32; 3]
    requires literal { IsLiteralOf 4 lit }
    requires lists { length watches.now.lists ≡ 10 }
{
    let mut found = [9; 3];
    let mut at = watches.first(lit);
    for slot in found.iter_mut() {
        if let Some(watch) = at {
            *slot = watch.place;
            at = watches.after(watch);
        }
    }
    found
}

#[test]
fn a_clause_watches_its_first_two_literals(rt: HostRuntime) -> Result<(), Fail> {
    let arena = arena_of(rt.alloc(), &[1, 2, 3], &[-4], &[2, -1])?;
    let watches = watches_of(rt.alloc(), &arena)?;
    assert_eq!(rt; walk(&watches, 1), [0, 9, 9]);
    assert_eq!(rt; walk(&watches, 2), [4, 1, 9]);
    assert_eq!(rt; walk(&watches, -1), [5, 9, 9]);
    assert_eq!(rt; walk(&watches, 3), [9, 9, 9]);
    assert_eq!(rt; walk(&watches, -4), [9, 9, 9]);
    Ok(())
}

#[test]
fn a_watch_moves_and_the_others_stay(rt: HostRuntime) -> Result<(), Fail> {
    let arena = arena_of(rt.alloc(), &[1, 2, 3], &[1, 3], &[1, 4, -2])?;
    let mut watches = watches_of(rt.alloc(), &arena)?;
    assert_eq!(rt; walk(&watches, 1), [4, 2, 0]);
    if let Some(last) = watches.first(1) {
        if let Some(middle) = watches.after(last) {
            assert_eq!(rt; middle.clause(), 1);
            assert_eq!(rt; watches.literal(middle), 1);
            watches.move_watch(middle, 3);
        }
    }
    assert_eq!(rt; walk(&watches, 1), [4, 0, 9]);
    assert_eq!(rt; walk(&watches, 3), [2, 3, 9]);
    if let Some(first) = watches.first(1) {
        watches.move_watch(first, -2);
    }
    assert_eq!(rt; walk(&watches, 1), [0, 9, 9]);
    assert_eq!(rt; walk(&watches, -2), [4, 9, 9]);
    if let Some(only) = watches.first(1) {
        watches.move_watch(only, 3);
    }
    assert_eq!(rt; walk(&watches, 1), [9, 9, 9]);
    assert_eq!(rt; walk(&watches, 3), [0, 2, 3]);
    Ok(())
}

#[test]
fn a_watch_knows_the_other_literal_of_its_clause(rt: HostRuntime) -> Result<(), Fail> {
    let arena = arena_of(rt.alloc(), &[1, 2], &[], &[3, -3])?;
    let watches = watches_of(rt.alloc(), &arena)?;
    assert_eq!(rt; watches.other(Watch { place: 0 }), 2);
    assert_eq!(rt; watches.other(Watch { place: 1 }), 1);
    assert_eq!(rt; watches.other(Watch { place: 4 }), -3);
    assert_eq!(rt; watches.other(Watch { place: 5 }), 3);
    Ok(())
}

/// Adds a lemma of three literals to the arena, and watches it.
fn learn(arena: &mut Arena, watches: &mut Watches) -> Result<(), AllocError>
    requires count { length arena.old.clauses ≡ 3 }
    requires base { arena.old.base ≡ 3 }
    requires watching { IsWatching watches.old arena.old.clauses }
    requires lists { length watches.old.lists ≡ 10 }
    ensures lists { length watches.new.lists ≡ 10 }
    ensures places { IfOk result (λ _. 6 ≤ length watches.new.lits) }
{
    let id = arena.add(&[3, 2, 4])?;
    watches.attach(arena, id)
}

#[test]
fn a_lemma_is_watched_and_goes_with_a_rebuild(rt: HostRuntime) -> Result<(), Fail> {
    let formula = arena_of(rt.alloc(), &[1, 2, 3], &[-4], &[2, -1])?;
    let mut arena = arena_of(rt.alloc(), &[1, 2, 3], &[-4], &[2, -1])?;
    let mut watches = watches_of(rt.alloc(), &arena)?;
    learn(&mut arena, &mut watches)?;
    assert_eq!(rt; walk(&watches, 3), [6, 9, 9]);
    assert_eq!(rt; walk(&watches, 2), [7, 4, 1]);
    if let Some(first) = watches.first(2) {
        watches.move_watch(first, 4);
    }
    assert_eq!(rt; walk(&watches, 4), [7, 9, 9]);
    watches.rebuild(&formula);
    assert_eq!(rt; walk(&watches, 2), [4, 1, 9]);
    assert_eq!(rt; walk(&watches, 3), [9, 9, 9]);
    assert_eq!(rt; walk(&watches, 4), [9, 9, 9]);
    Ok(())
}
