//! Runs that stop at a budget, and runs that go on from a saved text, byte for byte.
use crate::{Ended, OpenGate, Status, TextRefused, Words, enumerate_alone, run};
use fault_io::{BytesIn, BytesOut};
use std::alloc::{AllocError, Global};
use std::test::Fail;

/// How a run over memory ended, with the bytes that it wrote.
#[derive(Drop)]
struct Ran {
    ended: Ended,
    out: BytesOut,
}

/// Runs on a text with this budget.
fn run_with(alloc: Global, text: &[u8], budget: Option<u64>) -> Result<Ran, AllocError> {
    let mut input = BytesIn::make(text.to_vec(alloc)?, 4, Vec::new(alloc));
    let mut out = BytesOut::make(alloc, 1000, 4, Vec::new(alloc))?;
    let ended = enumerate_alone(alloc, &mut input, &mut out, budget);
    Ok(Ran { ended, out })
}

/// A text, a budget, and what the run on it has to come to: a status, and these bytes.
type Row = (&'static [u8], Option<u64>, Status, &'static [u8]);

/// Whether the run of a row comes to what it has to.
fn holds(alloc: Global, row: Row) -> Result<bool, AllocError> {
    let (text, budget, status, bytes) = row;
    let ran = run_with(alloc, text, budget)?;
    Ok(ran.ended.status == status && ran.out.bytes() == bytes)
}

/// Just one of two variables is true.
const FORMULA: &[u8] = b"p cnf 2 2\n1 2 0\n-1 -2 0\n";

const LISTING: &[u8] = b"v -1 2 0\nv 1 -2 0\ns ALL\n";

/// After one leaf.
const SAVED: &[u8] = b"c allsat saved 2\np cnf 2 2\n1 2 0\n-1 -2 0\nc p show 1 2 0\n\
    c p under 0\nc p cube -1 2 0\nc p open 1 0\nc p end\n";

#[test]
fn a_run_stops_at_its_budget_and_another_goes_on(rt: HostRuntime) -> Result<(), Fail> {
    let rows: [Row; 6] = [
        (FORMULA, Some(1), Status::BudgetSpent, SAVED),
        (FORMULA, Some(2), Status::Finished, LISTING),
        (FORMULA, Some(3), Status::Finished, LISTING),
        (FORMULA, None, Status::Finished, LISTING),
        (SAVED, Some(1), Status::Finished, LISTING),
        (SAVED, None, Status::Finished, LISTING),
    ];
    for row in rows {
        assert!(rt; holds(rt.alloc(), row)?);
    }
    Ok(())
}

#[test]
fn the_words_give_the_budget_and_the_notes_tell_of_it(rt: HostRuntime) -> Result<(), Fail> {
    let alloc = rt.alloc();
    let mut words = Words::make(alloc);
    words.push("enumerate")?;
    words.push("--budget=1")?;
    let mut input = BytesIn::make(FORMULA.to_vec(alloc)?, 4, Vec::new(alloc));
    let mut out = BytesOut::make(alloc, 1000, 4, Vec::new(alloc))?;
    let mut notes = BytesOut::make(alloc, 100, 4, Vec::new(alloc))?;
    let ended = run(
        &rt, alloc, &words, &mut input, &mut out, &mut notes, &OpenGate,
    );
    assert_eq!(rt; ended.status, Status::BudgetSpent);
    assert_eq!(rt; ended.status.code(), 3);
    assert_eq!(rt; out.bytes(), SAVED);
    assert_eq!(rt; notes.bytes(), b"allsat: budget spent\n".as_slice());
    Ok(())
}

#[test]
fn a_saved_text_without_its_end_is_refused(rt: HostRuntime) -> Result<(), Fail> {
    let text = &SAVED[..SAVED.len() - 8];
    let ran = run_with(rt.alloc(), text, None)?;
    let refused = Status::InputRefused(TextRefused::SavedUnended { line: 8 });
    assert_eq!(rt; ran.ended.status, refused);
    assert!(rt; ran.ended.book.is_none());
    assert!(rt; ran.out.bytes().is_empty());
    Ok(())
}

/// An odd number of three variables is true, and the first is not.
const UNDER: &[u8] = b"p cnf 3 4\n1 2 3 0\n1 -2 -3 0\n-1 2 -3 0\n-1 -2 3 0\nc p under -1 0\n";

const UNDER_SAVED: &[u8] = b"c allsat saved 2\np cnf 3 4\n1 2 3 0\n1 -2 -3 0\n-1 2 -3 0\n\
    -1 -2 3 0\nc p show 1 2 3 0\nc p under -1 0\nc p cube -1 -2 3 0\nc p open -1 2 0\nc p end\n";

const UNDER_LISTING: &[u8] = b"v -1 -2 3 0\nv -1 2 -3 0\ns ALL\n";

#[test]
fn given_literals_are_saved_and_hold_when_the_run_goes_on(rt: HostRuntime) -> Result<(), Fail> {
    let rows: [Row; 3] = [
        (UNDER, Some(1), Status::BudgetSpent, UNDER_SAVED),
        (UNDER_SAVED, None, Status::Finished, UNDER_LISTING),
        (UNDER, None, Status::Finished, UNDER_LISTING),
    ];
    for row in rows {
        assert!(rt; holds(rt.alloc(), row)?);
    }
    Ok(())
}

/// Written by hand: two prefixes and a cube, in an order of their own.
const BY_HAND: &[u8] = b"c allsat saved 1\np cnf 3 1\nc p open 1 2 0\n1 2 3 0\nc p cube 1 -2 0\n\
    c p open -1 0\nc p end\n";

/// The prefix that stands first was searched first.
const BY_HAND_SAVED: &[u8] = b"c allsat saved 2\np cnf 3 1\n1 2 3 0\nc p show 1 2 3 0\n\
    c p under 0\nc p cube 1 -2 0\nc p cube 1 2 0\nc p open -1 0\nc p end\n";

#[test]
fn a_run_goes_on_from_lines_written_by_hand(rt: HostRuntime) -> Result<(), Fail> {
    let listing = b"v -1 -2 3 0\nv -1 2 0\nv 1 -2 0\nv 1 2 0\ns ALL\n";
    let rows: [Row; 6] = [
        (BY_HAND, None, Status::Finished, listing),
        (BY_HAND, Some(1), Status::BudgetSpent, BY_HAND_SAVED),
        (BY_HAND_SAVED, None, Status::Finished, listing),
        (
            b"c allsat saved 1\np cnf 2 1\n1 2 0\nc p show 1 2 0\nc p cube 1 0\n\
                c p open -1 0\nc p end\n",
            None,
            Status::Finished,
            b"v -1 2 0\nv 1 0\ns ALL\n",
        ),
        (
            b"c allsat saved 2\np cnf 2 1\n1 2 0\nc p open 0\nc p end\n",
            None,
            Status::Finished,
            b"v -1 2 0\nv 1 0\ns ALL\n",
        ),
        (
            b"c allsat saved 2\np cnf 0 0\nc p end\n",
            Some(1),
            Status::Finished,
            b"s ALL\n",
        ),
    ];
    for row in rows {
        assert!(rt; holds(rt.alloc(), row)?);
    }
    Ok(())
}

/// A cube twice, which both prefixes hold as well, and one of them within the other.
const OVERLAPPING: &[u8] = b"c allsat saved 2\np cnf 2 1\n1 2 0\nc p show 1 2 0\nc p under 0\n\
    c p cube 1 0\nc p cube 1 0\nc p open 0\nc p open 1 0\nc p end\n";

/// After one leaf.
const OVERLAPPING_SAVED: &[u8] = b"c allsat saved 2\np cnf 2 1\n1 2 0\nc p show 1 2 0\n\
    c p under 0\nc p cube -1 2 0\nc p cube 1 0\nc p cube 1 0\nc p open 1 0\nc p open 1 0\n\
    c p end\n";

#[test]
fn lines_that_are_no_partition_are_searched_as_they_stand(rt: HostRuntime) -> Result<(), Fail> {
    let listing = b"v -1 2 0\nv 1 0\nv 1 0\nv 1 0\nv 1 0\ns ALL\n";
    let rows: [Row; 3] = [
        (OVERLAPPING, None, Status::Finished, listing),
        (OVERLAPPING, Some(1), Status::BudgetSpent, OVERLAPPING_SAVED),
        (OVERLAPPING_SAVED, None, Status::Finished, listing),
    ];
    for row in rows {
        assert!(rt; holds(rt.alloc(), row)?);
    }
    Ok(())
}
