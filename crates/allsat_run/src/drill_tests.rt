//! Drills of some sizes, run whole. The input would fail at the first call.
use crate::{OpenGate, Status, Words, run};
use fault_io::{BytesIn, BytesOut};
use std::alloc::{AllocError, Global};
use std::sync::Wait;
use std::test::Fail;
use std::thread::Threads;

/// The words of a drill.
fn words_of(alloc: Global, size: &str) -> Result<Words, AllocError> {
    let mut words = Words::make(alloc);
    words.push("drill")?;
    words.push("--size")?;
    words.push(size)?;
    Ok(words)
}

/// Whether the drill of a size finishes with this summary, and no note.
fn comes_to<R: Threads + Wait + Sync + AllocGlobal>(
    rt: &R,
    size: &str,
    summary: &[u8],
) -> Result<bool, AllocError> {
    let alloc = rt.alloc();
    let words = words_of(alloc, size)?;
    let mut input = BytesIn::make(b"x".to_vec(alloc)?, 4, [1u64].to_vec(alloc)?);
    let mut out = BytesOut::make(alloc, 1000, 4, Vec::new(alloc))?;
    let mut notes = BytesOut::make(alloc, 100, 4, Vec::new(alloc))?;
    let ended = run(
        rt, alloc, &words, &mut input, &mut out, &mut notes, &OpenGate,
    );
    Ok(ended.status == Status::Finished && out.bytes() == summary && notes.bytes().is_empty())
}

#[test]
fn a_drill_tells_what_its_models_have_in_common(rt: HostRuntime) -> Result<(), Fail> {
    assert!(rt; comes_to(&rt, "1", b"f 0\ns ALL\n")?);
    assert!(rt; comes_to(&rt, "4", b"f -3 4 0\ns ALL\n")?);
    assert!(rt; comes_to(&rt, "7", b"f -3 4 -7 0\ns ALL\n")?);
    Ok(())
}

#[test]
fn a_drill_of_size_24_fixes_two_of_each_four(rt: HostRuntime) -> Result<(), Fail> {
    let summary = b"f -3 4 -7 8 -11 12 -15 16 -19 20 -23 24 0\ns ALL\n";
    assert!(rt; comes_to(&rt, "24", summary)?);
    Ok(())
}
