//! Texts of 2^30 bytes and more. Those of as many lines are read outside the gate, by
//! `tools/at_the_limits.py`.
use super::*;
use crate::made_text::MadeText;
use std::test::Fail;

/// 10 bytes, and then 13 bytes whose last one counts.
#[test]
fn a_text_of_just_the_limit_is_read_to_its_last_byte(rt: HostRuntime) -> Result<(), Fail> {
    let alloc = rt.alloc();
    let times = 1_073_741_824 - 10 - 13;
    let mut source = MadeText::make(b"p cnf 2 0\n", b" ", times, b"\nc p show 2 0");
    let input = read_subject(alloc, &mut source)?;
    assert_eq!(rt; source.given(), 1_073_741_824);
    assert_eq!(rt; input.subject.shown.as_slice(), [2].as_slice());
    Ok(())
}

/// The limit stands before the end of line 3, behind the byte that is no number.
#[test]
fn a_line_that_goes_beyond_the_limit_is_not_judged(rt: HostRuntime) {
    let times = 1_073_741_824 - 11 - 2;
    let mut source = MadeText::make(b"p cnf 1 0\nc", b"x", times, b"\nx\n");
    assert_eq!(rt;
        read_subject(rt.alloc(), &mut source).err(),
        Some(ReadRefused::Text(TextRefused::TextTooLong { line: 3 }))
    );
    assert_eq!(rt; source.given(), 1_073_741_825);
}

/// The limit stands behind the end of line 3.
#[test]
fn a_line_refused_within_the_limit_counts_in_a_longer_text(rt: HostRuntime) {
    let times = 1_073_741_824 - 11 - 3;
    let mut source = MadeText::make(b"p cnf 1 0\nc", b"x", times, b"\nx\nc and more\n");
    assert_eq!(rt;
        read_subject(rt.alloc(), &mut source).err(),
        Some(ReadRefused::Text(TextRefused::BadNumber { line: 3 }))
    );
}
