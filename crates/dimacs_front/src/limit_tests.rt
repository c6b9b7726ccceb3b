//! Each limit on numbers, met and passed, and lines of any length.
use super::*;
use crate::made_text::MadeText;
use crate::tests::{numbers, read};
use crate::text_rows::other_row;
use std::alloc::{AllocError, Global};
use std::test::Fail;

/// Reads a front, a piece so many times, and an end.
fn read_made(
    alloc: Global,
    front: &[u8],
    piece: &[u8],
    times: u64,
    end: &[u8],
) -> Result<Input, ReadRefused> {
    let mut source = MadeText::make(front, piece, times, end);
    read_subject(alloc, &mut source)
}

/// How many clauses and literals there are.
fn counts(input: &Input) -> (usize, usize) {
    let clauses = input.subject.formula.clauses.as_slice();
    let mut literals: usize = 0;
    for clause in clauses {
        literals = literals.saturating_add(clause.lits().len());
    }
    (clauses.len(), literals)
}

/// Each variable up to this one, behind a space.
fn names(alloc: Global, last: u32) -> Result<Vec<u8>, AllocError> {
    let mut text = Vec::new(alloc);
    for variable in 1..=last {
        text.extend_from_slice(format!(in alloc; " {variable}")?.as_bytes())?;
    }
    Ok(text)
}

#[test]
fn a_header_may_name_a_million_variables_and_four_million_clauses(
    rt: HostRuntime,
) -> Result<(), Fail> {
    let alloc = rt.alloc();
    let input = read(alloc, b"p cnf 1000000 0\nc p show 0\n", 1000, &[])??;
    assert_eq!(rt; input.subject.formula.variables, 1_000_000);
    let rows = "\
p cnf 1000000 0| => TooManyShown 1
c|p cnf 1000001 0| => TooManyVariables 2
p cnf 4294967297 0| => TooManyVariables 1
p cnf 18446744073709551617 0| => TooManyVariables 1
p cnf 1000001 x| => BadHeader 1
p cnf 1 4000000| => ClauseCount 1 said 4000000 found 0
c|p cnf 1 4000001| => TooManyClauses 2
p cnf 1 4294967296| => TooManyClauses 1
p cnf 1 18446744073709551616| => TooManyClauses 1
p cnf 1 4000001 x| => BadHeader 1";
    assert_eq!(rt; other_row(alloc, rows)?, None);
    Ok(())
}

#[test]
fn a_variable_beyond_all_machine_numbers_is_too_large(rt: HostRuntime) -> Result<(), Fail> {
    let rows = "\
p cnf 1 1|4294967297 0| => VariableTooLarge 2
p cnf 1 1|-4294967297 0| => VariableTooLarge 2
p cnf 1 1|18446744073709551617 0| => VariableTooLarge 2
p cnf 1 1|-18446744073709551617 0| => VariableTooLarge 2
p cnf 1 1|-9223372036854775808 0| => VariableTooLarge 2
p cnf 1 1|c p show 4294967297 0|1| => ShowBad 2
p cnf 1 1|c p show 18446744073709551617 0|1| => ShowBad 2";
    assert_eq!(rt; other_row(rt.alloc(), rows)?, None);
    Ok(())
}

#[test]
fn a_text_may_have_four_million_clauses(rt: HostRuntime) -> Result<(), Fail> {
    let alloc = rt.alloc();
    let most = 4_000_000;
    let input = read_made(alloc, b"p cnf 0 4000000\n", b"0\n", most, b"")?;
    assert_eq!(rt; counts(&input), (4_000_000, 0));
    let texts: [(&[u8], &[u8], &[u8], TextRefused); 5] = [
        (
            b"p cnf 0 4000000\n",
            b"0\n",
            b"0",
            TextRefused::TooManyClauses { line: 4_000_002 },
        ),
        (
            b"p cnf 0 0\n",
            b"0 ",
            b"0 x\n",
            TextRefused::TooManyClauses { line: 2 },
        ),
        (
            b"p cnf 0 0\n",
            b"0 ",
            b"\nc\n",
            TextRefused::ClauseCount {
                line: 3,
                said: 0,
                found: 4_000_000,
            },
        ),
        (
            b"p cnf 1 0\n",
            b"0\n",
            b"1\n",
            TextRefused::Unfinished { line: 4_000_002 },
        ),
        (
            b"p cnf 1 0\n",
            b"0\n",
            b"1\n0\n",
            TextRefused::TooManyClauses { line: 4_000_003 },
        ),
    ];
    for (front, piece, end, refusal) in texts {
        assert_eq!(rt;
            read_made(alloc, front, piece, most, end).err(),
            Some(ReadRefused::Text(refusal))
        );
    }
    Ok(())
}

#[test]
fn a_text_may_have_sixteen_million_literals(rt: HostRuntime) -> Result<(), Fail> {
    let alloc = rt.alloc();
    let front = b"p cnf 1 1000000\n";
    let line = b"1 -1 1 1 -1 -1 1 1 1 1 -1 1 -1 1 1 1 0\n";
    let input = read_made(alloc, front, line, 1_000_000, b"")?;
    assert_eq!(rt; counts(&input), (1_000_000, 16_000_000));
    let texts: [(&[u8], TextRefused); 3] = [
        (b"-1", TextRefused::TooManyLiterals { line: 1_000_002 }),
        (b"\n1 x\n", TextRefused::TooManyLiterals { line: 1_000_003 }),
        (
            b"0",
            TextRefused::ClauseCount {
                line: 1_000_002,
                said: 1_000_000,
                found: 1_000_001,
            },
        ),
    ];
    for (end, refusal) in texts {
        assert_eq!(rt;
            read_made(alloc, front, line, 1_000_000, end).err(),
            Some(ReadRefused::Text(refusal))
        );
    }
    Ok(())
}

#[test]
fn one_clause_may_have_sixteen_million_literals(rt: HostRuntime) -> Result<(), Fail> {
    let alloc = rt.alloc();
    let input = read_made(alloc, b"p cnf 1 1\n", b"1 ", 16_000_000, b"0\n")?;
    assert_eq!(rt; counts(&input), (1, 16_000_000));
    assert_eq!(rt;
        read_made(alloc, b"p cnf 1 1\n", b"1 ", 16_000_001, b"0\n").err(),
        Some(ReadRefused::Text(TextRefused::TooManyLiterals { line: 2 }))
    );
    Ok(())
}

#[test]
fn all_of_8192_variables_may_be_shown(rt: HostRuntime) -> Result<(), Fail> {
    let alloc = rt.alloc();
    let input = read(alloc, b"p cnf 8192 0\n", 1000, &[])??;
    assert_eq!(rt; input.subject.shown.as_slice().len(), 8192);
    let rows = "\
p cnf 8193 0 => TooManyShown 1
|p cnf 8193 0|c||%|x| => TooManyShown 6
p cnf 8193 1|c| => ClauseCount 2 said 1 found 0";
    assert_eq!(rt; other_row(alloc, rows)?, None);
    Ok(())
}

#[test]
fn show_lines_may_name_8192_variables(rt: HostRuntime) -> Result<(), Fail> {
    let alloc = rt.alloc();
    let front = b"p cnf 8193 0\nc p show";
    let named = names(alloc, 8192)?;
    for end in [b" 0\n".as_slice(), b" 0\nc p show 1 8192 0\n"] {
        let input = read_made(alloc, front, &named, 2, end)?;
        assert_eq!(rt; input.subject.shown.as_slice().len(), 8192);
    }
    for (end, line) in [
        (b" 8193 0\n".as_slice(), 2),
        (b" 0\nc p show 8193 0\n", 3),
        (b" 0\nc p show 8193 0\n\nc p show 0\n%\n", 6),
    ] {
        assert_eq!(rt;
            read_made(alloc, front, &named, 1, end).err(),
            Some(ReadRefused::Text(TextRefused::TooManyShown { line }))
        );
    }
    Ok(())
}

#[test]
fn a_show_line_may_name_the_millionth_variable(rt: HostRuntime) -> Result<(), Fail> {
    let alloc = rt.alloc();
    let input = read(alloc, b"p cnf 1000000 0\nc p show 1000000 0\n", 1000, &[])??;
    assert_eq!(rt; input.subject.shown.as_slice(), [1_000_000].as_slice());
    let rows = "\
c p show 1 0|c p show 1000000 0|p cnf 2 0| => ShowBad 2
c p show 1000000 0|p cnf 2 1|1| => Unfinished 3
c p show 1000001 0|p cnf 2 1|1| => ShowBad 1
p cnf 1000000 1|c p show 1000001|1| => ShowBad 2";
    assert_eq!(rt; other_row(alloc, rows)?, None);
    Ok(())
}

#[test]
fn a_long_line_is_read_like_a_short_one(rt: HostRuntime) -> Result<(), Fail> {
    let alloc = rt.alloc();
    let million = 1_000_000;
    let texts: [(&[u8], &[u8], u64, &[u8], &[i32]); 6] = [
        (b"c", b"x", 100_000_000, b"\np cnf 2 0\n", &[]),
        (b"p cnf 2 0\nc p show 1 2 0", b" ", million, b"", &[]),
        (b"p cnf ", b"0", million, b"2 00\n", &[]),
        (b"p cnf 2 1\n-", b"0", million, b"2 0\n", &[-2, 0]),
        (b"p cnf 2 1\n1 ", b"0", million, b"", &[1, 0]),
        (b"p cnf 2 0\nc p show 1 ", b"0", million, b"2 000\n", &[]),
    ];
    for (front, piece, times, end, said) in texts {
        let input = read_made(alloc, front, piece, times, end)?;
        assert_eq!(rt; input.subject.formula.variables, 2, "at {front:?}");
        assert_eq!(rt;
            input.subject.shown.as_slice(),
            [1, 2].as_slice(),
            "at {front:?}"
        );
        assert_eq!(rt; numbers(alloc, &input)?.as_slice(), said, "at {front:?}");
    }
    Ok(())
}

#[test]
fn a_number_of_a_million_digits_is_judged_by_its_value(rt: HostRuntime) {
    let alloc = rt.alloc();
    let texts: [(&[u8], &[u8], &[u8], TextRefused); 9] = [
        (
            b"p cnf ",
            b"1",
            b" 0\n",
            TextRefused::TooManyVariables { line: 1 },
        ),
        (
            b"p cnf 1 ",
            b"9",
            b"\n",
            TextRefused::TooManyClauses { line: 1 },
        ),
        (
            b"p cnf 1 -",
            b"9",
            b"\n",
            TextRefused::BadHeader { line: 1 },
        ),
        (
            b"p cnf 2 1\n",
            b"1",
            b" 0\n",
            TextRefused::VariableTooLarge { line: 2 },
        ),
        (
            b"p cnf 2 1\n-",
            b"1",
            b" 0\n",
            TextRefused::VariableTooLarge { line: 2 },
        ),
        (
            b"p cnf 2 1\n-",
            b"0",
            b"\n",
            TextRefused::BadNumber { line: 2 },
        ),
        (
            b"p cnf 2 1\n",
            b"1",
            b"x 0\n",
            TextRefused::BadNumber { line: 2 },
        ),
        (
            b"c p show ",
            b"1",
            b" 0\n",
            TextRefused::ShowBad { line: 1 },
        ),
        (b"c p show -", b"0", b"\n", TextRefused::ShowBad { line: 1 }),
    ];
    for (front, piece, end, refusal) in texts {
        assert_eq!(rt;
            read_made(alloc, front, piece, 1_000_000, end).err(),
            Some(ReadRefused::Text(refusal)),
            "at {front:?}"
        );
    }
}

/// The first text's refused line has 1,000,002 bytes; behind the second's stand more bytes than can
/// be read.
#[test]
fn no_byte_is_taken_behind_the_piece_with_the_refused_line(rt: HostRuntime) {
    let mut source = MadeText::make(b"p cnf 1 0\nx", b" ", 1_000_000, b"\nc\n\n");
    assert_eq!(rt;
        read_subject(rt.alloc(), &mut source).err(),
        Some(ReadRefused::Text(TextRefused::BadNumber { line: 2 }))
    );
    assert!(rt; source.given() >= 1_000_012);
    let mut endless = MadeText::make(b"\n1 0\n", b"c a comment\n", u64::MAX, b"");
    assert_eq!(rt;
        read_subject(rt.alloc(), &mut endless).err(),
        Some(ReadRefused::Text(TextRefused::BadStart { line: 2 }))
    );
    assert!(rt; endless.given() <= 65_536);
}
