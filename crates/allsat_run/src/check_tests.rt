//! Checks of worked met texts, run whole: the verdicts byte for byte, and texts that are none.
use crate::{OpenGate, Status, TextRefused, Verdict, Words, run};
use fault_io::{BytesIn, BytesOut};
use std::alloc::{AllocError, Global};
use std::sync::Wait;
use std::test::Fail;
use std::thread::Threads;

/// The status of a run of this word on a text, where it wrote these bytes.
fn status_of<R: Threads + Wait + Sync + AllocGlobal>(
    rt: &R,
    word: &str,
    text: &[u8],
    written: &[u8],
) -> Result<Option<Status>, AllocError> {
    let alloc = rt.alloc();
    let mut words = Words::make(alloc);
    words.push(word)?;
    let mut input = BytesIn::make(text.to_vec(alloc)?, 4, Vec::new(alloc));
    let mut out = BytesOut::make(alloc, 1000, 4, Vec::new(alloc))?;
    let mut notes = BytesOut::make(alloc, 100, 4, Vec::new(alloc))?;
    let ended = run(
        rt, alloc, &words, &mut input, &mut out, &mut notes, &OpenGate,
    );
    Ok((out.bytes() == written).then_some(ended.status))
}

/// Whether the check of a text comes to this verdict, with this line written.
fn comes_to<R: Threads + Wait + Sync + AllocGlobal>(
    rt: &R,
    text: &[u8],
    verdict: Verdict,
    line: &[u8],
) -> Result<bool, AllocError> {
    let wanted = match verdict {
        Verdict::Right => Status::Finished,
        verdict => Status::CheckedNo(verdict),
    };
    Ok(status_of(rt, "check", text, line)? == Some(wanted))
}

#[test]
fn a_listing_whose_cubes_meet_each_clause_is_right(rt: HostRuntime) -> Result<(), Fail> {
    let text = b"c allsat met 1\np cnf 2 2\nc p show 1 0\n1 2 0\n-1 -2 0\n\
        c p met -1 0 2 0\nc p met 1 0 -2 0\nc p end\n";
    assert!(rt; comes_to(&rt, text, Verdict::Right, b"s RIGHT\n")?);
    let empty = b"c allsat met 1\np cnf 1 1\n1 0\nc p end\n";
    assert!(rt; comes_to(&rt, empty, Verdict::Right, b"s RIGHT\n")?);
    Ok(())
}

#[test]
fn the_first_cube_and_clause_that_do_not_meet_are_named(rt: HostRuntime) -> Result<(), Fail> {
    let text = b"c allsat met 1\np cnf 2 2\nc p show 1 0\n1 2 0\n-1 -2 0\n\
        c p met -1 0 2 0\nc p met 1 0 2 0\nc p end\n";
    let no = Verdict::NotMet { cube: 2, clause: 2 };
    assert!(rt; comes_to(&rt, text, no, b"s NOTMET 2 2\n")?);
    Ok(())
}

#[test]
fn a_clause_with_a_literal_and_its_negation_is_met(rt: HostRuntime) -> Result<(), Fail> {
    let text = b"c allsat met 1\np cnf 2 1\nc p show 1 0\n2 -2 0\nc p met 0 0\nc p end\n";
    assert!(rt; comes_to(&rt, text, Verdict::Right, b"s RIGHT\n")?);
    Ok(())
}

#[test]
fn a_cube_that_is_there_twice_overlaps_itself(rt: HostRuntime) -> Result<(), Fail> {
    let text = b"c allsat met 1\np cnf 2 2\nc p show 1 0\n1 2 0\n-1 -2 0\n\
        c p met -1 0 2 0\nc p met 1 0 -2 0\nc p met 1 0 -2 0\nc p end\n";
    let no = Verdict::Overlap {
        first: 2,
        second: 3,
    };
    assert!(rt; comes_to(&rt, text, no, b"s OVERLAP 2 3\n")?);
    Ok(())
}

#[test]
fn cubes_that_overlap_need_not_be_neighbours(rt: HostRuntime) -> Result<(), Fail> {
    let no = Verdict::Overlap {
        first: 1,
        second: 3,
    };
    let texts: [&[u8]; 2] = [
        b"c allsat met 1\np cnf 3 0\nc p met -1 2 0 0\nc p met 1 -2 0 0\nc p met 2 3 0 0\n\
            c p end\n",
        b"c allsat met 1\np cnf 3 0\nc p met 2 3 0 0\nc p met 1 -2 0 0\nc p met -1 2 0 0\n\
            c p end\n",
    ];
    for text in texts {
        assert!(rt; comes_to(&rt, text, no, b"s OVERLAP 1 3\n")?);
    }
    Ok(())
}

#[test]
fn of_several_overlaps_the_lowest_is_named(rt: HostRuntime) -> Result<(), Fail> {
    let text = b"c allsat met 1\np cnf 3 0\nc p met -1 0 0\nc p met 1 2 0 0\nc p met 1 -2 0 0\n\
        c p met 3 0 0\nc p met -1 2 0 0\nc p end\n";
    let no = Verdict::Overlap {
        first: 1,
        second: 4,
    };
    assert!(rt; comes_to(&rt, text, no, b"s OVERLAP 1 4\n")?);
    Ok(())
}

#[test]
fn a_text_that_is_no_met_text_is_refused(rt: HostRuntime) -> Result<(), Fail> {
    let refused = Some(Status::InputRefused(TextRefused::NoMetText { line: 1 }));
    assert!(rt; status_of(&rt, "check", b"p cnf 2 1\n1 2 0\n", b"")? == refused);
    let saved = b"c allsat saved 2\np cnf 0 0\nc p end\n";
    assert!(rt; status_of(&rt, "check", saved, b"")? == refused);
    let text = b"c allsat met 1\np cnf 2 1\nc p show 1 0\n2 -2 0\nc p met 0 1 0\nc p end\n";
    let bad = Some(Status::InputRefused(TextRefused::SavedBad { line: 5 }));
    assert!(rt; status_of(&rt, "check", text, b"")? == bad);
    Ok(())
}

#[test]
fn a_met_text_is_enumerated_as_its_formula_is(rt: HostRuntime) -> Result<(), Fail> {
    let text = b"c allsat met 1\np cnf 2 1\n1 2 0\nc p met 2 0 0\nc p end\n";
    let listed = status_of(&rt, "enumerate", text, b"v -1 2 0\nv 1 0\ns ALL\n")?;
    assert!(rt; listed == Some(Status::Finished));
    Ok(())
}
