//! Lemmas: learnt, sent, imported, dropped and at their limit.
use super::calls::{Call, Example, play, play_with_lemmas};
use super::tests::NO_HIDDEN_VALUE;
use crate::Leaf;

/// The hidden variable 5 has no value where 1 to 4 are false, and none where 3 and 4 are true.
const TWO_GAPS: Example = Example {
    variables: 5,
    clauses: &[
        &[1, 2, 3, 4, 5],
        &[1, 2, 3, 4, -5],
        &[-3, -4, 5],
        &[-3, -4, -5],
    ],
    shown: &[1, 2, 3, 4],
};

/// So many cubes of a listing of this formula hold each assignment of the variables 1 to 4. The
/// value of variable 1 is the lowest bit.
const GAPS: [u32; 16] = [0, 1, 1, 1, 1, 1, 1, 1, 1, 1, 1, 1, 0, 0, 0, 0];

#[test]
fn a_lemma_is_fresh_once_and_in_its_job_alone(rt: HostRuntime) {
    const CALLS: &[Call<'static>] = &[
        Call::Fresh(None),
        Call::Start(&[]),
        Call::Leaf(Leaf::Dead),
        Call::Fresh(Some(&[2])),
        Call::Fresh(None),
        Call::Abandon,
        Call::DropLemmas(0),
        Call::Start(&[]),
        Call::Leaf(Leaf::Dead),
        Call::Abandon,
        Call::Start(&[]),
        Call::Fresh(None),
    ];
    play(&rt, rt.alloc(), &NO_HIDDEN_VALUE, CALLS);
}

#[test]
fn what_unit_propagation_refutes_is_imported(rt: HostRuntime) {
    const CALLS: &[Call<'static>] = &[
        Call::Import(&[1], false),
        Call::Import(&[2, -2], true),
        Call::Longer(0, 0),
        Call::Import(&[2], true),
        Call::Longer(0, 1),
        Call::Fresh(None),
        Call::Start(&[]),
        Call::Leaf(Leaf::Found),
        Call::Leaf(Leaf::Ended),
    ];
    play(&rt, rt.alloc(), &NO_HIDDEN_VALUE, CALLS);
}

#[test]
fn an_imported_lemma_helps_to_refute_the_next(rt: HostRuntime) {
    const EXAMPLE: Example = Example {
        variables: 3,
        clauses: &[&[1, 2, 3], &[1, 2, -3], &[1, -2, 3], &[1, -2, -3]],
        shown: &[1, 2, 3],
    };
    const CALLS: &[Call<'static>] = &[
        Call::Import(&[1], false),
        Call::Longer(0, 0),
        Call::Import(&[1, 2], true),
        Call::Import(&[1], true),
        Call::Import(&[1, -2, 1], true),
        Call::Longer(0, 3),
        Call::Longer(1, 2),
        Call::Longer(2, 0),
        Call::List(&[], &[&[1]]),
    ];
    play(&rt, rt.alloc(), &EXAMPLE, CALLS);
}

#[test]
fn long_lemmas_are_dropped_and_the_short_ones_kept(rt: HostRuntime) {
    const CALLS: &[Call<'static>] = &[
        Call::Count(GAPS),
        Call::Longer(0, 2),
        Call::Longer(2, 1),
        Call::DropLemmas(2),
        Call::Longer(0, 1),
        Call::Longer(2, 0),
        Call::Count(GAPS),
        Call::DropLemmas(0),
        Call::Longer(0, 0),
        Call::Count(GAPS),
    ];
    play(&rt, rt.alloc(), &TWO_GAPS, CALLS);
}

#[test]
fn no_more_lemmas_are_learnt_than_there_is_room_for(rt: HostRuntime) {
    for most in 0..4u32 {
        let calls = [Call::Count(GAPS), Call::Longer(0, most.min(2))];
        play_with_lemmas(&rt, rt.alloc(), &TWO_GAPS, most, &calls);
    }
}
