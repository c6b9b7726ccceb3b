//! Jobs of prefixes of all kinds, one after another in one engine.
use super::calls::{Call, Example, play};
use super::tests::{HIDDEN_VALUES, NO_HIDDEN_VALUE};
use crate::Leaf;

#[test]
fn a_prefix_against_the_formula_is_one_dead_leaf(rt: HostRuntime) {
    const CALLS: &[Call<'static>] = &[
        Call::Start(&[-2]),
        Call::Leaf(Leaf::Dead),
        Call::Leaf(Leaf::Ended),
        Call::Expose(&[], &[], 1),
    ];
    play(&rt, rt.alloc(), &NO_HIDDEN_VALUE, CALLS);
}

/// With 2 false the hidden variables 3 and 4 have no values, which only a decision of one shows.
#[test]
fn no_hidden_conflict_is_counted_in_a_dead_prefix(rt: HostRuntime) {
    const EXAMPLE: Example = Example {
        variables: 4,
        clauses: &[&[2, 3, 4], &[2, 3, -4], &[2, -3, 4], &[2, -3, -4]],
        shown: &[1, 2],
    };
    const CALLS: &[Call<'static>] = &[
        Call::Start(&[-2]),
        Call::Leaf(Leaf::Dead),
        Call::Stands(&[], &[], 1),
        Call::GiveNothing,
        Call::Leaf(Leaf::Ended),
        Call::Expose(&[], &[], 1),
    ];
    play(&rt, rt.alloc(), &EXAMPLE, CALLS);
}

#[test]
fn a_prefix_of_all_shown_variables_is_found_or_dead(rt: HostRuntime) {
    const CALLS: &[Call<'static>] = &[
        Call::List(&[-1, -2], &[]),
        Call::List(&[-1, 2], &[&[-1, 2]]),
        Call::List(&[1, -2], &[]),
        Call::List(&[1, 2], &[&[1, 2]]),
    ];
    play(&rt, rt.alloc(), &NO_HIDDEN_VALUE, CALLS);
}

#[test]
fn cubes_hold_the_literals_that_the_formula_fixes(rt: HostRuntime) {
    const EXAMPLE: Example = Example {
        variables: 3,
        clauses: &[&[1], &[-1, 2, 3]],
        shown: &[1, 2, 3],
    };
    const CALLS: &[Call<'static>] = &[
        Call::List(&[1], &[&[1, -2, 3], &[1, 2]]),
        Call::List(&[-1], &[]),
        Call::List(&[], &[&[1, -2, 3], &[1, 2]]),
        Call::List(&[2], &[&[1, 2]]),
    ];
    play(&rt, rt.alloc(), &EXAMPLE, CALLS);
}

#[test]
fn shown_variables_may_stand_behind_hidden_ones(rt: HostRuntime) {
    const EXAMPLE: Example = Example {
        variables: 4,
        clauses: &[&[1, 3], &[-1, -3], &[2, -4]],
        shown: &[3, 4],
    };
    const CALLS: &[Call<'static>] = &[
        Call::List(&[], &[&[-3, -4], &[-3, 4], &[3, -4], &[3, 4]]),
        Call::List(&[4], &[&[-3, 4], &[3, 4]]),
    ];
    play(&rt, rt.alloc(), &EXAMPLE, CALLS);
}

/// The first formula has a solution, the second has none.
#[test]
fn with_nothing_shown_the_empty_prefix_is_found_or_dead(rt: HostRuntime) {
    const SOLVABLE: Example = Example {
        variables: 2,
        clauses: &[&[1, 2], &[-1, 2]],
        shown: &[],
    };
    const CONTRADICTORY: Example = Example {
        variables: 2,
        clauses: &[&[1, 2], &[-1, 2], &[1, -2], &[-1, -2]],
        shown: &[],
    };
    const FOUND: &[Call<'static>] = &[Call::List(&[], &[&[]]), Call::Hidden(2, Some(true))];
    const DEAD: &[Call<'static>] = &[Call::List(&[], &[]), Call::Hidden(2, None)];
    play(&rt, rt.alloc(), &SOLVABLE, FOUND);
    play(&rt, rt.alloc(), &CONTRADICTORY, DEAD);
}

#[test]
fn a_job_that_was_abandoned_leaves_nothing_to_the_next(rt: HostRuntime) {
    const CALLS: &[Call<'static>] = &[
        Call::Start(&[]),
        Call::Leaf(Leaf::Found),
        Call::Abandon,
        Call::Stands(&[], &[], 0),
        Call::Start(&[1]),
        Call::Leaf(Leaf::Found),
        Call::Expose(&[&[1, -2]], &[&[1, 2]], 1),
    ];
    play(&rt, rt.alloc(), &HIDDEN_VALUES, CALLS);
}
