//! Propagation on every pair of clauses of two literals over three variables, from each decision,
//! against the least set computed plainly.
ghost use Rattle.std.specs.Prelude.{◌<◌, ◌≤◌, nat_abs};
ghost use Rattle.sat_terms.specs.Literals.{IsLiteralOf};

use crate::tests::{arena_of, formula_of, run};
use crate::{Propagated, Propagator};
use chrono_trail::Trail;
use std::alloc::{AllocError, Global};
use std::test::Fail;

/// The literals -3, -2, -1, 1, 2 and 3.
fn literal_at(place: usize) -> i32
    requires { place < 6 }
    ensures { IsLiteralOf 3 result }
{
    if place < 3 {
        place as i32 - 3
    } else {
        place as i32 - 2
    }
}

/// A clause of two literals of the variables 1 to 3.
#[derive(Clone, Copy, Debug)]
struct Pair {
    one: i32,
    other: i32,
    ghost one_is: { IsLiteralOf 3 one },
    ghost other_is: { IsLiteralOf 3 other },
}

/// A set of the literals -4 to 4, by their places.
type Set = [bool; 9];

/// The place of a literal in a set.
fn place_of(lit: i32) -> usize
    requires { nat_abs lit ≤ 3 }
    ensures { result < 9 }
{
    (lit + 4) as usize
}

/// Puts what the clause implies under the set into it. A clause with a pair implies nothing.
fn imply(set: &mut Set, clause: Pair) {
    let one = clause.one;
    let other = clause.other;
    if one == -other {
        return;
    }
    if one == other || set[place_of(-other)] {
        set[place_of(one)] = true;
    }
    if set[place_of(-one)] {
        set[place_of(other)] = true;
    }
}

/// Whether each literal of the clause is negated in the set. A clause with a pair never counts.
fn is_negated(set: &Set, clause: Pair) -> bool {
    let one = clause.one;
    let other = clause.other;
    one != -other && set[place_of(-one)] && set[place_of(-other)]
}

/// The least set from one literal: six literals are all that can come in.
fn closure(first: Pair, second: Pair, start: i32) -> Set
    requires { nat_abs start ≤ 3 }
{
    let mut set = [false; 9];
    set[place_of(start)] = true;
    for _ in 0..6 {
        imply(&mut set, first);
        imply(&mut set, second);
    }
    set
}

/// Whether propagation answers what the least set says: a conflict exactly where it closes, and
/// else just its literals.
fn agrees(alloc: Global, first: Pair, second: Pair, start: i32) -> Result<bool, AllocError>
    requires { IsLiteralOf 3 start }
{
    let formula = formula_of(
        alloc,
        3,
        &[first.one, first.other],
        &[second.one, second.other],
    )?;
    let arena = arena_of(alloc, &formula)?;
    let mut trail = Trail::make(alloc, 3)?;
    let mut propagator = Propagator::make(alloc, &arena, 3)?;
    trail.decide(start);
    let quiet = run(&mut propagator, &arena, &mut trail) == Propagated::Quiet;
    let set = closure(first, second, start);
    if is_negated(&set, first) || is_negated(&set, second) {
        return Ok(!quiet);
    }
    let mut same = quiet;
    for place in 0..6usize {
        let lit = literal_at(place);
        same = same && (trail.value(lit) == Some(true)) == set[place_of(lit)];
    }
    Ok(same)
}

/// The clause of these two literals, by their places.
fn pair_at(one: usize, other: usize) -> Pair
    requires one { one < 6 }
    requires other { other < 6 }
{
    Pair {
        one: literal_at(one),
        other: literal_at(other),
    }
}

/// How many pairs of clauses that begin with this one disagree from some decision.
fn wrong_with(alloc: Global, first: Pair) -> Result<u32, AllocError> {
    let mut wrong: u32 = 0;
    for code in 0..36usize {
        let second = pair_at(code / 6, code % 6);
        for place in 0..6usize {
            if !agrees(alloc, first, second, literal_at(place))? {
                wrong = wrong.saturating_add(1);
            }
        }
    }
    Ok(wrong)
}

#[test]
fn every_pair_of_short_clauses_propagates_to_its_least_set(rt: HostRuntime) -> Result<(), Fail> {
    for code in 0..36usize {
        assert_eq!(rt;
            wrong_with(rt.alloc(), pair_at(code / 6, code % 6))?,
            0,
            "first clause {code}"
        );
    }
    Ok(())
}
