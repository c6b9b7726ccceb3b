//! Worked rows, call by call: leaves, gives, exposes and hidden values.
use super::calls::{Call, Example, play, play_with_lemmas};
use crate::Leaf;

/// With 2 false the hidden variable 4 has no value.
pub(crate) const NO_HIDDEN_VALUE: Example = Example {
    variables: 4,
    clauses: &[&[2, 4], &[2, -4]],
    shown: &[1, 2],
};

/// The hidden variable 3 makes up for 1, and 4 goes with 2.
pub(crate) const HIDDEN_VALUES: Example = Example {
    variables: 4,
    clauses: &[&[1, 3], &[-2, 4]],
    shown: &[1, 2],
};

/// An odd number of the variables 1 to 4 is true.
const ODD: Example = Example {
    variables: 4,
    clauses: &[
        &[1, 2, 3, 4],
        &[1, 2, -3, -4],
        &[1, -2, 3, -4],
        &[1, -2, -3, 4],
        &[-1, 2, 3, -4],
        &[-1, 2, -3, 4],
        &[-1, -2, 3, 4],
        &[-1, -2, -3, -4],
    ],
    shown: &[1, 2, 3, 4],
};

#[test]
fn what_a_conflict_teaches_stands_below_all_decisions(rt: HostRuntime) {
    const CALLS: &[Call<'static>] = &[
        Call::Start(&[]),
        Call::Leaf(Leaf::Dead),
        Call::Stands(&[], &[&[1], &[-1, 2]], 1),
        Call::Newest(2, false),
        Call::Leaf(Leaf::Found),
        Call::Hidden(4, Some(false)),
        Call::Hidden(1, None),
        Call::Stands(&[&[2]], &[], 2),
        Call::Leaf(Leaf::Ended),
        Call::Stands(&[&[2]], &[], 2),
        Call::Expose(&[&[2]], &[], 2),
    ];
    play(&rt, rt.alloc(), &NO_HIDDEN_VALUE, CALLS);
}

#[test]
fn without_lemmas_each_value_of_a_variable_is_tried(rt: HostRuntime) {
    const CALLS: &[Call<'static>] = &[
        Call::Start(&[]),
        Call::Leaf(Leaf::Dead),
        Call::Stands(&[], &[&[1], &[-1, 2]], 1),
        Call::Newest(2, true),
        Call::Leaf(Leaf::Found),
        Call::Stands(&[&[-1, 2]], &[&[1]], 2),
        Call::Leaf(Leaf::Dead),
        Call::Stands(&[&[-1, 2]], &[&[1, 2]], 3),
        Call::Leaf(Leaf::Found),
        Call::Stands(&[&[-1, 2], &[1, 2]], &[], 4),
        Call::Leaf(Leaf::Ended),
        Call::Stands(&[&[-1, 2], &[1, 2]], &[], 4),
        Call::Expose(&[&[-1, 2], &[1, 2]], &[], 4),
    ];
    play_with_lemmas(&rt, rt.alloc(), &NO_HIDDEN_VALUE, 0, CALLS);
}

#[test]
fn the_values_of_hidden_variables_are_told_and_no_others(rt: HostRuntime) {
    const CALLS: &[Call<'static>] = &[
        Call::Hidden(3, None),
        Call::Start(&[]),
        Call::Leaf(Leaf::Found),
        Call::Hidden(1, None),
        Call::Hidden(2, None),
        Call::Hidden(3, Some(true)),
        Call::Hidden(4, Some(false)),
        Call::Abandon,
        Call::Hidden(3, Some(true)),
    ];
    play(&rt, rt.alloc(), &HIDDEN_VALUES, CALLS);
}

#[test]
fn a_cube_outside_the_kept_prefix_is_given_away(rt: HostRuntime) {
    const CALLS: &[Call<'static>] = &[
        Call::Start(&[]),
        Call::Leaf(Leaf::Found),
        Call::Stands(&[&[-1, -2]], &[&[1], &[-1, 2]], 1),
        Call::Give(&[&[-1, -2]], &[1], &[-1, 2], 1),
        Call::Stands(&[], &[&[-1, 2]], 0),
        Call::Leaf(Leaf::Found),
        Call::Leaf(Leaf::Ended),
        Call::Expose(&[&[-1, 2]], &[], 1),
    ];
    play(&rt, rt.alloc(), &HIDDEN_VALUES, CALLS);
}

#[test]
fn a_job_goes_on_in_the_prefix_that_it_keeps(rt: HostRuntime) {
    const CALLS: &[Call<'static>] = &[
        Call::Start(&[]),
        Call::Leaf(Leaf::Dead),
        Call::Give(&[], &[1], &[-1, 2], 1),
        Call::Leaf(Leaf::Found),
        Call::Hidden(4, Some(false)),
        Call::Leaf(Leaf::Ended),
        Call::GiveNothing,
        Call::Expose(&[&[-1, 2]], &[], 1),
        Call::List(&[1], &[&[1, 2]]),
    ];
    play(&rt, rt.alloc(), &NO_HIDDEN_VALUE, CALLS);
}

/// The first gift withholds the cube found, since it lies within the prefix that the job keeps.
#[test]
fn each_gift_is_the_lowest_untried_prefix(rt: HostRuntime) {
    const CALLS: &[Call<'static>] = &[
        Call::Start(&[]),
        Call::Leaf(Leaf::Found),
        Call::Stands(&[&[-1, -2, -3, 4]], &[&[1], &[-1, 2], &[-1, -2, 3]], 1),
        Call::Give(&[], &[1], &[-1], 0),
        Call::Stands(&[&[-1, -2, -3, 4]], &[&[-1, 2], &[-1, -2, 3]], 1),
        Call::Give(&[&[-1, -2, -3, 4]], &[-1, 2], &[-1, -2, 3], 1),
        Call::Stands(&[], &[&[-1, -2, 3]], 0),
        Call::GiveNothing,
        Call::Stands(&[], &[&[-1, -2, 3]], 0),
        Call::Leaf(Leaf::Found),
        Call::Leaf(Leaf::Ended),
        Call::Expose(&[&[-1, -2, 3, -4]], &[], 1),
        Call::List(&[-1, 2], &[&[-1, 2, -3, -4], &[-1, 2, 3, 4]]),
        Call::List(
            &[1],
            &[
                &[1, -2, -3, -4],
                &[1, -2, 3, 4],
                &[1, 2, -3, 4],
                &[1, 2, 3, -4],
            ],
        ),
    ];
    play(&rt, rt.alloc(), &ODD, CALLS);
}

#[test]
fn a_job_that_ends_early_tells_what_it_leaves_open(rt: HostRuntime) {
    const CALLS: &[Call<'static>] = &[
        Call::Start(&[-1]),
        Call::Leaf(Leaf::Found),
        Call::Expose(&[&[-1, -2, -3, 4]], &[&[-1, 2], &[-1, -2, 3]], 1),
        Call::Start(&[-1, 2]),
        Call::Expose(&[], &[&[-1, 2]], 0),
    ];
    play(&rt, rt.alloc(), &ODD, CALLS);
}

/// The clause `1 3` is taught, so 3 stands on the level of 1 and not on that of 2.
#[test]
fn a_taught_literal_stands_on_its_true_level(rt: HostRuntime) {
    const EXAMPLE: Example = Example {
        variables: 4,
        clauses: &[&[1, 3, 4], &[1, 3, -4]],
        shown: &[1, 2, 3],
    };
    const CALLS: &[Call<'static>] = &[
        Call::Start(&[]),
        Call::Leaf(Leaf::Dead),
        Call::Stands(&[], &[&[1], &[-1, 2], &[-1, -2, 3]], 1),
        Call::Newest(3, false),
        Call::Leaf(Leaf::Found),
        Call::Stands(&[&[-1, 3]], &[&[1]], 2),
        Call::Leaf(Leaf::Found),
        Call::Leaf(Leaf::Ended),
        Call::Expose(&[&[-1, 3], &[1]], &[], 3),
    ];
    play(&rt, rt.alloc(), &EXAMPLE, CALLS);
}

/// The clause `1 3` is taught first. Then 3 comes to a conflict on the level of 1 alone, while that
/// of 2 is the current one.
#[test]
fn a_conflict_below_the_current_level_takes_that_level_back_too(rt: HostRuntime) {
    const EXAMPLE: Example = Example {
        variables: 4,
        clauses: &[&[1, 3, 4], &[1, 3, -4], &[1, -3, 4], &[1, -3, -4]],
        shown: &[1, 2, 3],
    };
    const CALLS: &[Call<'static>] = &[
        Call::Start(&[]),
        Call::Leaf(Leaf::Dead),
        Call::Stands(&[], &[&[1], &[-1, 2], &[-1, -2, 3]], 1),
        Call::Leaf(Leaf::Dead),
        Call::Stands(&[], &[&[1]], 2),
        Call::Newest(1, false),
        Call::Leaf(Leaf::Found),
        Call::Leaf(Leaf::Ended),
        Call::Expose(&[&[1]], &[], 3),
    ];
    play(&rt, rt.alloc(), &EXAMPLE, CALLS);
}

/// The clause `1 -2` is taught, but both literals are of the level of the conflict.
#[test]
fn what_asserts_nothing_below_the_conflict_turns_by_a_flip(rt: HostRuntime) {
    const EXAMPLE: Example = Example {
        variables: 3,
        clauses: &[&[1, -2, 3], &[1, -2, -3]],
        shown: &[1, 2, 3],
    };
    const CALLS: &[Call<'static>] = &[
        Call::Start(&[]),
        Call::Leaf(Leaf::Found),
        Call::Stands(&[&[-1, -2]], &[&[1], &[-1, 2]], 1),
        Call::Newest(2, true),
        Call::Leaf(Leaf::Dead),
        Call::Stands(&[&[-1, -2]], &[&[1]], 2),
        Call::Newest(1, true),
        Call::Fresh(Some(&[-2, 1])),
        Call::Leaf(Leaf::Found),
        Call::Leaf(Leaf::Ended),
        Call::Expose(&[&[-1, -2], &[1]], &[], 3),
        Call::Longer(1, 1),
    ];
    play(&rt, rt.alloc(), &EXAMPLE, CALLS);
}
