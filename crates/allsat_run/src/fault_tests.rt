//! Faults of the outside, one at every call: of the output while each kind of text is written, of
//! the input, and of the notes. What stands after each is said byte for byte. The call behind the
//! one that fails fails too: where the test makes it, the run made no further one.
use crate::{Ended, OpenGate, Status, TextRefused, Verdict, Words, run};
use fault_io::{BytesIn, BytesOut, Sink, Source};
use std::alloc::{AllocError, Global};
use std::process::Abort;
use std::sync::Wait;
use std::test::Fail;
use std::thread::Threads;

/// A run whose streams do not fail: its words, its input, and what it comes to.
#[derive(Clone, Copy)]
struct Case {
    words: &'static str,
    input: &'static [u8],
    status: Status,
    out: &'static [u8],
    note: &'static [u8],
    has_book: bool,
}

/// A listing.
const LISTED: Case = Case {
    words: "enumerate",
    input: b"p cnf 2 1\n1 2 0\n",
    status: Status::Finished,
    out: b"v -1 2 0\nv 1 0\ns ALL\n",
    note: b"",
    has_book: true,
};

/// A listing by two workers. No two of its models differ in one variable, so the cubes are the same
/// for any number of workers.
const SHARED: Case = Case {
    words: "enumerate --workers 2",
    input: b"p cnf 3 4\n1 2 3 0\n1 -2 -3 0\n-1 2 -3 0\n-1 -2 3 0\n",
    status: Status::Finished,
    out: b"v -1 -2 3 0\nv -1 2 -3 0\nv 1 -2 -3 0\nv 1 2 3 0\ns ALL\n",
    note: b"",
    has_book: true,
};

/// What is saved after one leaf.
const SAVED_TEXT: &[u8] = b"c allsat saved 2\np cnf 2 2\n1 2 0\n-1 -2 0\nc p show 1 2 0\n\
    c p under 0\nc p cube -1 2 0\nc p open 1 0\nc p end\n";

/// A saved text.
const SAVED: Case = Case {
    words: "enumerate --budget 1",
    input: b"p cnf 2 2\n1 2 0\n-1 -2 0\n",
    status: Status::BudgetSpent,
    out: SAVED_TEXT,
    note: b"allsat: budget spent\n",
    has_book: true,
};

/// The listing of a saved text.
const RESUMED: Case = Case {
    words: "enumerate",
    input: SAVED_TEXT,
    status: Status::Finished,
    out: b"v -1 2 0\nv 1 -2 0\ns ALL\n",
    note: b"",
    has_book: true,
};

/// A verdict that is right.
const RIGHT: Case = Case {
    words: "check",
    input: b"c allsat met 1\np cnf 2 2\nc p show 1 0\n1 2 0\n-1 -2 0\nc p met -1 0 2 0\n\
        c p met 1 0 -2 0\nc p end\n",
    status: Status::Finished,
    out: b"s RIGHT\n",
    note: b"",
    has_book: false,
};

/// A verdict that is not.
const NOT_MET: Case = Case {
    words: "check",
    input: b"c allsat met 1\np cnf 2 2\nc p show 1 0\n1 2 0\n-1 -2 0\nc p met -1 0 2 0\n\
        c p met 1 0 2 0\nc p end\n",
    status: Status::CheckedNo(Verdict::NotMet { cube: 2, clause: 2 }),
    out: b"s NOTMET 2 2\n",
    note: b"allsat: check said no\n",
    has_book: false,
};

/// A summary.
const DRILLED: Case = Case {
    words: "drill --size 4",
    input: b"",
    status: Status::Finished,
    out: b"f -3 4 0\ns ALL\n",
    note: b"",
    has_book: true,
};

/// Words that are no command.
const NO_WORDS: Case = Case {
    words: "list",
    input: b"p cnf 0 0\n",
    status: Status::WordsRefused,
    out: b"",
    note: b"allsat: words refused\n",
    has_book: false,
};

/// A text that is refused.
const REFUSED: Case = Case {
    words: "enumerate",
    input: b"p cnf 2 1\n1 3 0\n1 0\nx\n",
    status: Status::InputRefused(TextRefused::VariableTooLarge { line: 2 }),
    out: b"",
    note: b"allsat: input refused: 6 VariableTooLarge line 2\n",
    has_book: false,
};

/// The runs that write a text.
const WRITTEN: [Case; 7] = [LISTED, SHARED, SAVED, RESUMED, RIGHT, NOT_MET, DRILLED];

/// The runs that read an accepted text to its end.
const READ: [Case; 6] = [LISTED, SHARED, SAVED, RESUMED, RIGHT, NOT_MET];

/// The runs that put a line on the notes.
const NOTED: [Case; 4] = [SAVED, NOT_MET, NO_WORDS, REFUSED];

/// The streams of a run, and how it ended.
#[derive(Drop)]
struct Ran {
    ended: Ended,
    input: BytesIn,
    out: BytesOut,
    notes: BytesOut,
}

/// Which calls of each stream fail, how much room the output has, and how many bytes one call of
/// the input gives. A call of the outputs takes one byte.
#[derive(Clone, Copy)]
struct Faults<'a> {
    input: &'a [u64],
    step: usize,
    out: &'a [u64],
    room: usize,
    notes: &'a [u64],
}

/// No call fails.
const NONE: Faults<'static> = Faults {
    input: &[],
    step: 4,
    out: &[],
    room: 1000,
    notes: &[],
};

/// One run with these faults.
fn run_with<R: Threads + Wait + Sync + AllocGlobal>(
    rt: &R,
    case: &Case,
    faults: &Faults,
) -> Result<Ran, AllocError> {
    let alloc = rt.alloc();
    let mut words = Words::make(alloc);
    for word in case.words.split_whitespace() {
        words.push(word)?;
    }
    let step = faults.step.max(1);
    let mut input = BytesIn::make(case.input.to_vec(alloc)?, step, faults.input.to_vec(alloc)?);
    let mut out = BytesOut::make(alloc, faults.room, 1, faults.out.to_vec(alloc)?)?;
    let mut notes = BytesOut::make(alloc, 200, 1, faults.notes.to_vec(alloc)?)?;
    let ended = run(
        rt, alloc, &words, &mut input, &mut out, &mut notes, &OpenGate,
    );
    Ok(Ran {
        ended,
        input,
        out,
        notes,
    })
}

impl Ran {
    /// Whether it came to what it does without faults.
    fn is_whole(&self, case: &Case) -> bool {
        self.ended.status == case.status
            && self.out.bytes() == case.out
            && self.notes.bytes() == case.note
            && self.ended.book.is_some() == case.has_book
    }

    /// Whether it ended at a write fault, with the first `count` bytes of the text out, and with
    /// the book that it wrote where it had one.
    fn stopped_writing(&self, case: &Case, count: usize) -> bool {
        self.ended.status == Status::WriteFault
            && is_front(self.out.bytes(), case.out, count)
            && self.notes.bytes() == b"allsat: write fault\n".as_slice()
            && self.ended.book.is_some() == case.has_book
    }

    /// Whether it ended at a read fault in this line, without a book.
    fn stopped_reading(&self, alloc: Global, line: u64) -> Result<bool, AllocError> {
        let note = format!(in alloc; "allsat: read fault line {line}\n")?;
        Ok(
            self.ended.status == Status::ReadFault(line)
                && self.ended.book.is_none()
                && self.notes.bytes() == note.as_bytes(),
        )
    }
}

/// Whether these are the first so many bytes of the text.
fn is_front(bytes: &[u8], text: &[u8], count: usize) -> bool {
    bytes.len() == count && text.starts_with(bytes)
}

#[test]
fn a_full_output_holds_the_bytes_that_it_had_room_for(rt: HostRuntime) -> Result<(), Fail> {
    for case in WRITTEN {
        for room in 0..case.out.len() {
            let ran = run_with(&rt, &case, &Faults { room, ..NONE })?;
            assert!(rt; ran.stopped_writing(&case, room), "a room of {room}");
        }
        let room = case.out.len();
        assert!(rt; run_with(&rt, &case, &Faults { room, ..NONE })?.is_whole(&case));
    }
    Ok(())
}

#[test]
fn an_output_that_fails_at_a_call_is_left_alone_then(rt: HostRuntime) -> Result<(), Fail> {
    for case in WRITTEN {
        // A call for each byte, and `finish`.
        for before in 0..case.out.len() + 1 {
            let call = before as u64 + 1;
            let out = [call, call + 1];
            let mut ran = run_with(&rt, &case, &Faults { out: &out, ..NONE })?;
            assert!(rt; ran.stopped_writing(&case, before), "call {call}");
            assert!(rt; ran.out.finish().is_err(), "a call behind {call}");
        }
        let out = [case.out.len() as u64 + 2];
        let mut ran = run_with(&rt, &case, &Faults { out: &out, ..NONE })?;
        assert!(rt; ran.is_whole(&case) && ran.out.finish().is_err());
    }
    Ok(())
}

/// What a source gives from now on, or `None` where it fails.
fn rest_of(alloc: Global, source: &mut BytesIn) -> Result<Option<Vec<u8>>, AllocError> {
    let mut rest = Vec::new(alloc);
    let mut buffer = [0u8; 16];
    for _ in 0..1_000 {
        match source.take(&mut buffer) {
            Ok(0) => break,
            Ok(count) => rest.extend_from_slice(&buffer[..count])?,
            Err(_) => return Ok(None),
        }
    }
    Ok(Some(rest))
}

/// Whether a run whose input fails behind so many calls stops in the line that it was reading, took
/// the bytes of these calls and made no other call, none on the output either.
fn stops_behind<R: Threads + Wait + Sync + AllocGlobal>(
    rt: &R,
    case: &Case,
    step: usize,
    calls: usize,
) -> Result<bool, AllocError> {
    let alloc = rt.alloc();
    let call = (calls as u64).saturating_add(1);
    let input = [call, call.saturating_add(1)];
    let faults = Faults {
        input: &input,
        step,
        out: &[1],
        ..NONE
    };
    let mut ran = run_with(rt, case, &faults)?;
    let (front, left) = case
        .input
        .split_at(step.saturating_mul(calls).min(case.input.len()));
    let ends = front.iter().filter(|byte| **byte == b'\n').count();
    let stopped = ran.stopped_reading(alloc, (ends as u64).saturating_add(1))?;
    let no_other = rest_of(alloc, &mut ran.input)?.is_none() && ran.out.finish().is_err();
    let rest = rest_of(alloc, &mut ran.input)?;
    Ok(stopped && no_other && rest.is_some_and(|rest| rest.as_slice() == left))
}

/// Whether a run makes so many calls on its input, each of which may fail, and no other one.
fn needs_calls<R: Threads + Wait + Sync + AllocGlobal + Abort>(
    rt: &R,
    case: &Case,
    step: usize,
    calls: usize,
) -> Result<bool, AllocError> {
    for before in 0..calls {
        assert!(rt;
            stops_behind(rt, case, step, before)?,
            "behind {before} calls"
        );
    }
    let input = [(calls as u64).saturating_add(1)];
    let faults = Faults {
        input: &input,
        step,
        ..NONE
    };
    let mut ran = run_with(rt, case, &faults)?;
    Ok(ran.is_whole(case) && rest_of(rt.alloc(), &mut ran.input)?.is_none())
}

#[test]
fn an_input_that_fails_at_a_call_is_named_with_its_line(rt: HostRuntime) -> Result<(), Fail> {
    for case in READ {
        // Each byte comes by a call, and one more call finds the end.
        let bytes = case.input.len();
        assert!(rt; needs_calls(&rt, &case, 1, bytes + 1)?);
        assert!(rt; needs_calls(&rt, &case, 4, bytes.div_ceil(4) + 1)?);
    }
    Ok(())
}

#[test]
fn an_input_with_a_refused_line_is_asked_for_nothing_behind_it(
    rt: HostRuntime,
) -> Result<(), Fail> {
    // The second line ends with the byte 16.
    assert!(rt; needs_calls(&rt, &REFUSED, 1, 16)?);
    assert!(rt; needs_calls(&rt, &REFUSED, 4, 4)?);
    Ok(())
}

#[test]
fn words_that_are_refused_and_drills_leave_the_input_alone(rt: HostRuntime) -> Result<(), Fail> {
    for case in [NO_WORDS, DRILLED] {
        assert!(rt; needs_calls(&rt, &case, 4, 0)?);
    }
    Ok(())
}

/// Whether notes that fail behind so many bytes hold these, and all else comes to the same.
fn keeps_all_else<R: Threads + Wait + Sync + AllocGlobal>(
    rt: &R,
    case: &Case,
    before: usize,
) -> Result<bool, AllocError> {
    let call = (before as u64).saturating_add(1);
    let notes = [call, call.saturating_add(1)];
    let mut ran = run_with(
        rt,
        case,
        &Faults {
            notes: &notes,
            ..NONE
        },
    )?;
    let same = ran.ended.status == case.status && ran.out.bytes() == case.out;
    Ok(same && is_front(ran.notes.bytes(), case.note, before) && ran.notes.put(b"x").is_err())
}

#[test]
fn notes_that_fail_change_nothing_else(rt: HostRuntime) -> Result<(), Fail> {
    for case in NOTED {
        for before in 0..case.note.len() {
            assert!(rt;
                keeps_all_else(&rt, &case, before)?,
                "behind {before} bytes"
            );
        }
    }
    Ok(())
}

#[test]
fn notes_that_fail_after_another_fault_change_nothing(rt: HostRuntime) -> Result<(), Fail> {
    let reading = Faults {
        input: &[2],
        notes: &[3],
        ..NONE
    };
    let ran = run_with(&rt, &LISTED, &reading)?;
    assert_eq!(rt; ran.ended.status, Status::ReadFault(1));
    assert!(rt; ran.out.bytes().is_empty() && ran.notes.bytes() == b"al".as_slice());
    let writing = Faults {
        out: &[2],
        notes: &[3],
        ..NONE
    };
    let ran = run_with(&rt, &LISTED, &writing)?;
    assert_eq!(rt; ran.ended.status, Status::WriteFault);
    assert!(rt; ran.out.bytes() == b"v".as_slice() && ran.notes.bytes() == b"al".as_slice());
    Ok(())
}
