use super::*;
use crate::text_rows::{answer, other_row};
use fault_io::{BytesIn, Failed, Source};
use std::alloc::{AllocError, Global};
use std::test::Fail;

/// A source that gives `step` bytes at a call.
fn source_of(
    alloc: Global,
    text: &[u8],
    step: usize,
    fails: &[u64],
) -> Result<BytesIn, AllocError> {
    Ok(BytesIn::make(text.to_vec(alloc)?, step.max(1), fails.to_vec(alloc)?))
}

pub(crate) fn read(
    alloc: Global,
    text: &[u8],
    step: usize,
    fails: &[u64],
) -> Result<Result<Input, ReadRefused>, AllocError> {
    let mut source = source_of(alloc, text, step, fails)?;
    Ok(read_subject(alloc, &mut source))
}

/// The literals of each clause, and a 0 behind each.
pub(crate) fn numbers(alloc: Global, input: &Input) -> Result<Vec<i32>, AllocError> {
    let mut numbers = Vec::new(alloc);
    for clause in input.subject.formula.clauses.as_slice() {
        numbers.extend_from_slice(clause.lits())?;
        numbers.push(0)?;
    }
    Ok(numbers)
}

#[test]
fn an_accepted_text_gives_its_formula_and_shown_variables(rt: HostRuntime) -> Result<(), Fail> {
    let rows = "\
p cnf 2 1|1 2 0| => 2 1 2 clauses 1 2 0
p cnf 0 0| => 0
p cnf 2 2|c p show 1 0|1 2 0|-1 -2 0| => 2 1 clauses 1 2 0 -1 -2 0
p cnf 1 1|c p show 0|1 0| => 1 clauses 1 0
c from a page|p cnf 3  3 | 1|-2|0|2 3 0 -1 0|%|0| => 3 1 2 3 clauses 1 -2 0 2 3 0 -1 0
p cnf 4 2|c p show 1 2 0|1 3 0|c a|-2 4 0|c p show 2 0| => 4 1 2 clauses 1 3 0 -2 4 0
p cnf 4097 0|c p show 4097 0| => 4097 4097
p cnf 1 1|1 0|%|junk| => 1 1 clauses 1 0
p cnf 2 0|c p open 2 1 0| => 2 1 2
c p show 3 1 0|p cnf 4 0|c p show 2 3 0| => 4 1 2 3
|c allsat saved 1|p cnf 1 0| => 1 1
c allsat|p cnf 1 0| => 1 1
\t\x0bp\x0ccnf\r2 1|comment|1|c x|-2 0 => 2 1 2 clauses 1 -2 0";
    assert_eq!(rt; other_row(rt.alloc(), rows)?, None);
    Ok(())
}

#[test]
fn a_line_that_is_wrong_is_named(rt: HostRuntime) -> Result<(), Fail> {
    let rows = "\
1 0| => BadStart 1
%| => BadStart 1
p cnf 2| => BadHeader 1
p cnf -1 0| => BadHeader 1
p dnf 1 0| => BadHeader 1
p cnf 1 0 0| => BadHeader 1
p cnf 1 0|p cnf 1 0| => HeaderTwice 2
p cnf 1 1|1x 0| => BadNumber 2
p cnf 1 1|-0| => BadNumber 2
p cnf 1 1|+1 0| => BadNumber 2
p cnf 1 1|x 1 0| => BadNumber 2
p cnf 1 1|2 y 0| => VariableTooLarge 2
p cnf 2 1|1 3 0| => VariableTooLarge 2
p cnf 1000001 0| => TooManyVariables 1
p cnf 1000001 4000001| => TooManyVariables 1
p cnf 1 4000001| => TooManyClauses 1
p cnf 2 0|c p show 1 -2 0| => ShowBad 2
p cnf 2 0|c p show 1 0 2| => ShowBad 2
p cnf 2 0|c p show 1| => ShowUnended 2
p cnf 2 0|c p show| => ShowUnended 2
p cnf 1 1|x|y => BadNumber 2
p| => BadHeader 1
c||problem cnf 1 1| => BadHeader 3
p cnf 1|0| => BadHeader 1
p cnf 1 0x| => BadHeader 1
p cnf 1 -0| => BadHeader 1
c|%|p cnf 1 0| => BadStart 2
| xc| => BadStart 2
p cnf 1 1|1 0| problem| => HeaderTwice 3
p cnf 1 1|1 0 -| => BadNumber 2
p cnf 1 1|1 c 0| => BadNumber 2
p cnf 1 1|1 %|0| => BadNumber 2
p cnf 1 1|1 0||0 -1 --1 2| => BadNumber 4
p cnf 0 1|-1 0| => VariableTooLarge 2
p cnf 2 1|1 0|2 -3 x => VariableTooLarge 3
c p show x 0|1 0| => ShowBad 1
c p show 1 x| => ShowBad 1
c p show 1 0 0| => ShowBad 1
c p show -0| => ShowBad 1
c p show 1|c 0| => ShowUnended 1
c p show 1|p cnf x| => ShowUnended 1
p cnf 2 0|c p under 1| => UnderUnended 2
p cnf 2 0|c p under| => UnderUnended 2
p cnf 2 0|c p under 1 x 0| => UnderBad 2
c p under 1 0 2|1 0| => UnderBad 1
c p under -0| => UnderBad 1
c p under 1000001 0| => UnderBad 1
c p under -1000001 x| => UnderBad 1";
    assert_eq!(rt; other_row(rt.alloc(), rows)?, None);
    Ok(())
}

#[test]
fn a_text_whose_end_is_wrong_is_refused(rt: HostRuntime) -> Result<(), Fail> {
    let rows = "\
c only a comment| => NoHeader 1
 => NoHeader 1
p cnf 1 1|1|%|0| => Unfinished 4
p cnf 2 2|1 0|2| => Unfinished 3
p cnf 1 0|1 0| => ClauseCount 2 said 0 found 1
p cnf 2 2|1 0| => ClauseCount 2 said 2 found 1
c p show 3 0|p cnf 2 0| => ShowBad 1
p cnf 2 0|c p show 1 0|c p show 3 1 0|c p show 4 3 0| => ShowBad 3
  => NoHeader 1
|| => NoHeader 2
||c => NoHeader 3
c p show 1 0| => NoHeader 1
p cnf 1 1|1 => Unfinished 2
p cnf 1 1|1|| | => Unfinished 4
p cnf 5000 9|c p show 6000 0|1| => Unfinished 3
p cnf 5000 9|c p show 6000 0| => ClauseCount 2 said 9 found 0
p cnf 5 0|c p show 5 0|c p show 6 0|c p show 7 0| => ShowBad 3
p cnf 8193 0| => TooManyShown 1
p cnf 2 0|c p show 1 0|c p under 2 0| => UnderBad 3
p cnf 2 0|c p under 1 0|c p under -1 0| => UnderBad 3
p cnf 2 0|c p under 2 0|c p under 1 2 -1 0| => UnderBad 3
c p under 3 0|p cnf 2 0| => UnderBad 1
c p under 3 0|p cnf 2 0|c p show 4 0| => ShowBad 3
c p under 3 0|p cnf 8193 0| => TooManyShown 2
c p under 3 0|p cnf 2 1| => ClauseCount 2 said 1 found 0";
    assert_eq!(rt; other_row(rt.alloc(), rows)?, None);
    Ok(())
}

/// A header, and show lines below it that name variable 2 a thousand times each.
fn repeating(alloc: Global, header: &[u8]) -> Result<Vec<u8>, AllocError> {
    let mut text = header.to_vec(alloc)?;
    for _ in 0..3 {
        text.extend_from_slice(b"c p show")?;
        for _ in 0..1000 {
            text.extend_from_slice(b" 2")?;
        }
        text.extend_from_slice(b" 0\n")?;
    }
    Ok(text)
}

#[test]
fn a_variable_that_is_named_again_counts_once(rt: HostRuntime) -> Result<(), Fail> {
    let alloc = rt.alloc();
    for step in [1, 1000] {
        let input = read(alloc, &repeating(alloc, b"p cnf 3 0\n")?, step, &[])??;
        assert_eq!(rt; input.subject.shown.as_slice(), [2].as_slice());
        assert_eq!(rt;
            read(alloc, &repeating(alloc, b"p cnf 1 0\n")?, step, &[])?.err(),
            Some(ReadRefused::Text(TextRefused::ShowBad { line: 2 }))
        );
    }
    Ok(())
}

#[test]
fn a_saved_text_is_refused_by_its_lowest_wrong_line(rt: HostRuntime) -> Result<(), Fail> {
    let rows = "\
c allsat saved 1|p cnf 2 0|c p show 1 0|c p open 2 0|c p end| => SavedBad 4
c allsat saved 1|p cnf 2 0|c p open 2 1 0|c p end| => SavedBad 3
c allsat saved 1|p cnf 2 0|c p end|c p open 0| => SavedBad 4
c allsat saved 1|p cnf 2 1|c p open 0| => SavedUnended 3
c allsat saved => SavedBad 1
c allsat saved 3|x| => SavedBad 1
c allsat saved 1x| => SavedBad 1
c allsat saved 01| => SavedBad 1
c allsat saved 1 1| => SavedBad 1
c allsat saved 2 x| => SavedBad 1
\tc\x0ballsat\x0csaved\rx 1| => SavedBad 1
c allsat saved 1|p cnf 1 0|c p end x| => SavedBad 3
c allsat saved 1|p cnf 1 0|c p cube 1| => SavedBad 3
c allsat saved 1|p cnf 1 0|c p cube| => SavedBad 3
c allsat saved 1|p cnf 1 0|c p cube 1 0 0| => SavedBad 3
c allsat saved 1|p cnf 1 0|c p cube 1 x 0| => SavedBad 3
c allsat saved 1|p cnf 3 0|c p cube 1 -3 3 0|c p end| => SavedBad 3
c allsat saved 1|c p cube 1000001 0|p cnf 3 0|c p end| => SavedBad 2
c allsat saved 2|c p end|c p end|p cnf 3 0| => SavedBad 3
c allsat saved 2|c p end|c p cube 0|p cnf 3 0| => SavedBad 3
c allsat saved 2|p cnf 1 0|%|c p end| => SavedUnended 4
c allsat saved 2|p cnf 1 2|1 => Unfinished 3
c allsat saved 2|c p end|p cnf 1 2|1 0 => ClauseCount 4 said 2 found 1
c allsat saved 2|c p open 3 0|c p cube 2 0|p cnf 3 0|c p show 1 0|c p end| => SavedBad 2
c allsat saved 2|c p cube 3 0|c p open 2 0|p cnf 3 0|c p show 1 0|c p end| => SavedBad 2
c allsat saved 2|c p cube 1 0|c p open -1 0|p cnf 3 0|c p under -1 0|c p end| => SavedBad 2
c allsat saved 2|c p cube -1 0|c p open 3 0|p cnf 3 0|c p under -1 0|c p end| => SavedBad 3
c allsat saved 2|c p cube 2 0|p cnf 1 0|c p under 2 0|c p end| => UnderBad 4
c allsat saved 2|c p cube 2 0|p cnf 8193 0|c p show 8194 0|c p end| => ShowBad 4";
    assert_eq!(rt; other_row(rt.alloc(), rows)?, None);
    Ok(())
}

#[test]
fn a_met_text_is_refused_by_its_lowest_wrong_line(rt: HostRuntime) -> Result<(), Fail> {
    let rows = "\
c allsat met 2|x| => SavedBad 1
 c  allsat met|x| => SavedBad 1
c allsat met 01| => SavedBad 1
c allsat met 1 1| => SavedBad 1
c allsat met 1|p cnf 2 1|c p show 1 0|2 -2 0|c p met 0 1 0|c p end| => SavedBad 5
c allsat met 1|p cnf 1 0|c p met 1 0|c p end| => SavedBad 3
c allsat met 1|p cnf 1 0|c p met 1|c p end| => SavedBad 3
c allsat met 1|p cnf 1 0|c p met| => SavedBad 3
c allsat met 1|p cnf 1 0|c p met 0 0 0| => SavedBad 3
c allsat met 1|p cnf 1 0|c p met 0 0 x| => SavedBad 3
c allsat met 1|p cnf 1 0|c p met x 0 0| => SavedBad 3
c allsat met 1|p cnf 3 0|c p met 2 1 0 0|c p end| => SavedBad 3
c allsat met 1|p cnf 3 0|c p met 0 -3 3 0|c p end| => SavedBad 3
c allsat met 1|c p met 1000001 0 0|p cnf 3 0|c p end| => SavedBad 2
c allsat met 1|c p met 0 4 0|p cnf 3 0|c p show 1 0|c p end| => SavedBad 2
c allsat met 1|c p met 0 2 0|p cnf 3 0|c p met 2 0 3 0|c p show 1 0|c p end| => SavedBad 4
c allsat met 1|c p met -1 0 0|c p met 1 0 0|p cnf 1 0|c p under -1 0|c p end| => SavedBad 3
c allsat met 1|p cnf 1 0|c p end|c p met 0 0| => SavedBad 4
c allsat met 1|p cnf 1 0|c p end|c p end| => SavedBad 4
c allsat met 1|p cnf 1 0|c p end x| => SavedBad 3
c allsat met 1|p cnf 1 0|c p met 0 0| => SavedUnended 3
c allsat met 1|p cnf 1 0|%|c p end| => SavedUnended 4
c allsat met 1|c p end|p cnf 1 2|1 0 => ClauseCount 4 said 2 found 1";
    assert_eq!(rt; other_row(rt.alloc(), rows)?, None);
    Ok(())
}

#[test]
fn a_met_text_gives_its_cubes_with_their_hidden_literals(rt: HostRuntime) -> Result<(), Fail> {
    let rows = "\
c allsat met 1|p cnf 0 0|c p end| => 0 met
c allsat met 1|p cnf 2 2|c p show 1 0|1 2 0|-1 -2 0|c p met -1 0 2 0|c p met 1 0 -2 0|c p end| \
=> 2 1 clauses 1 2 0 -1 -2 0 met -1 0 2 0 1 0 -2 0
\tc allsat  met 1|c p met 1 0 -02 3 0|c p end 3|p cnf 3 0 => SavedBad 3
c allsat met 1|c p met 1 0 -02 3 0|p cnf 3 0|c p end|c p show 1 0 => 3 1 met 1 0 -2 3 0
c allsat met 1|p cnf 2 0|c p cube 3 x|c p open|c p met 0 0|c p met -2 0 0|c p end \
=> 2 1 2 met 0 0 -2 0 0
c allsat saved 2|p cnf 1 0|c p met x|c p end| => 1 1 saved
p cnf 1 0|c p met x|c p end 1| => 1 1
p cnf 1 0|c allsat met 1| => 1 1";
    assert_eq!(rt; other_row(rt.alloc(), rows)?, None);
    Ok(())
}

#[test]
fn a_saved_text_gives_its_cubes_and_prefixes_in_order(rt: HostRuntime) -> Result<(), Fail> {
    let rows = "\
c allsat saved 2|p cnf 0 0|c p end| => 0 saved
c allsat saved 1|p cnf 2 1|1 2 0|c p cube 1 0|c p open -1 0|c p end \
=> 2 1 2 clauses 1 2 0 saved cubes 1 0 open -1 0
\tc allsat  saved 2|c p open 1 -3 0|p cnf 3 0|c p cube -1 0|c p cube 0|c p open 0|c p end \
=> 3 1 2 3 saved cubes -1 0 0 open 1 -3 0 0
c allsat saved 1|c p end|p cnf 3 0|c p ended 1|%|c p cube 1 0|c p end => 3 1 2 3 saved
c allsat saved 1|c p cube 01 -0002 0|p cnf 3 1|1|c p end|2 0 \
=> 3 1 2 3 clauses 1 2 0 saved cubes 1 -2 0
c allsat saved 2|p cnf 3 4|1 2 3 0|1 -2 -3 0|-1 2 -3 0|-1 -2 3 0|c p show 1 2 3 0|\
c p under -1 0|c p cube -1 -2 3 0|c p open -1 2 0|c p end| \
=> 3 1 2 3 under -1 0 clauses 1 2 3 0 1 -2 -3 0 -1 2 -3 0 -1 -2 3 0 \
saved cubes -1 -2 3 0 open -1 2 0
c allsat saved 2|c p cube -1 3 0|p cnf 3 0|c p end|c p under -1 0|c p show 1 3 0 \
=> 3 1 3 under -1 0 saved cubes -1 3 0";
    assert_eq!(rt; other_row(rt.alloc(), rows)?, None);
    Ok(())
}

/// A gzip header.
#[test]
fn compressed_bytes_are_no_text(rt: HostRuntime) -> Result<(), Fail> {
    for step in [1, 4, 1000] {
        assert_eq!(rt;
            read(rt.alloc(), b"\x1f\x8b\x08\x00", step, &[])?.err(),
            Some(ReadRefused::Text(TextRefused::BadStart { line: 1 }))
        );
    }
    Ok(())
}

#[test]
fn the_literals_of_all_under_lines_are_one_cube(rt: HostRuntime) -> Result<(), Fail> {
    let rows = "\
p cnf 2 1|c p under -1 0|1 2 0| => 2 1 2 under -1 0 clauses 1 2 0
c p under 3 0|p cnf 3 0|c p under -1 3 0|c p under 0 => 3 1 2 3 under -1 3 0
c p show 2 0|c p under -2 -02 0|p cnf 2 0| => 2 2 under -2 0
p cnf 1 0|c p unders 1 0|c p under1 0|c under 1 0| => 1 1
p cnf 1 0|%|c p under 1| => 1 1";
    assert_eq!(rt; other_row(rt.alloc(), rows)?, None);
    Ok(())
}

#[test]
fn a_comment_line_of_other_words_is_passed_over(rt: HostRuntime) -> Result<(), Fail> {
    let rows = "\
cc allsat saved 1|p cnf 1 0| => 1 1
c allsat saved1|p cnf 1 0| => 1 1
c allsats saved 1|p cnf 1 0| => 1 1
c allsat|c saved 1|p cnf 1 0| => 1 1
c|c allsat met 1|p cnf 1 0| => 1 1
p cnf 1 0|c allsat saved 1| => 1 1
p cnf 1 0|c p cube x|c p open 0 0|c p end 1| => 1 1
p cnf 1 0|c p shows 2 0|c p sho 2 0|c p show2 0| => 1 1
p cnf 1 0|cp show 2 0|c pshow 2 0|c show 2 0| => 1 1
p cnf 1 0|c\tp weight 2 0.4 0|c p|c| => 1 1
p cnf 1 0|c c p show 2 0|cp cnf 1 0|c % | => 1 1
c\x00\u{ff} \u{fe}\r|p cnf 1 0| => 1 1
p cnf 1 0|%|c p show 2 0|p cnf|x => 1 1
p cnf 1 0| %x 1|1 0| => 1 1
| \t||\x0c| p cnf 1 0 || => 1 1";
    assert_eq!(rt; other_row(rt.alloc(), rows)?, None);
    Ok(())
}

const SAVED: &[u8] = b"c allsat saved 2\np cnf 3 2\n1 2 0\n-3 0\nc p show 1 2 0\n\
    c p under -1 0\nc p cube -1 2 0\nc p open -1 -2 0\nc p end\n";

/// The answers to the fronts of the saved text, each from this many bytes on.
const FRONTS: [(usize, &str); 26] = [
    (0, "NoHeader 1"),
    (14, "SavedBad 1"),
    (16, "NoHeader 1"),
    (18, "BadHeader 2"),
    (26, "SavedUnended 2"),
    (28, "Unfinished 3"),
    (32, "SavedUnended 3"),
    (34, "BadNumber 4"),
    (35, "Unfinished 4"),
    (37, "SavedUnended 4"),
    (39, "SavedUnended 5"),
    (46, "ShowUnended 5"),
    (52, "SavedUnended 5"),
    (54, "SavedUnended 6"),
    (62, "UnderUnended 6"),
    (64, "UnderBad 6"),
    (65, "UnderUnended 6"),
    (67, "SavedUnended 6"),
    (69, "SavedUnended 7"),
    (76, "SavedBad 7"),
    (83, "SavedUnended 7"),
    (85, "SavedUnended 8"),
    (92, "SavedBad 8"),
    (100, "SavedUnended 8"),
    (102, "SavedUnended 9"),
    (
        108,
        "3 1 2 under -1 0 clauses 1 2 0 -3 0 saved cubes -1 2 0 open -1 -2 0",
    ),
];

/// The answer to the front of so many bytes.
fn front_answer(count: usize) -> &'static str {
    let mut answer = "";
    for (first, said) in FRONTS {
        if first <= count {
            answer = said;
        }
    }
    answer
}

/// A last line needs no byte 10, so the front without it is accepted; each shorter one is refused
/// by name and line.
#[test]
fn no_front_of_a_saved_text_is_accepted(rt: HostRuntime) -> Result<(), Fail> {
    let alloc = rt.alloc();
    for count in 0..SAVED.len() {
        assert_eq!(rt;
            answer(alloc, &SAVED[..count], 7)?.as_str(),
            front_answer(count),
            "at {count}"
        );
    }
    assert_eq!(rt;
        answer(alloc, SAVED, 7)?.as_str(),
        front_answer(SAVED.len())
    );
    Ok(())
}

/// How many lines are complete.
fn line_ends(text: &[u8]) -> u64 {
    let mut count: u64 = 0;
    for byte in text {
        if *byte == b'\n' {
            count = count.saturating_add(1);
        }
    }
    count
}

/// What is taken in calls before this one.
fn taken(text: &[u8], step: usize, call: u64) -> &[u8] {
    let mut count: usize = 0;
    for _ in 1..call {
        count = count.saturating_add(step);
    }
    &text[..count.min(text.len())]
}

#[test]
fn each_failing_call_names_the_line_behind_the_complete_ones(rt: HostRuntime) -> Result<(), Fail> {
    let alloc = rt.alloc();
    let text = b"c\n\np cnf 2 1\n 1\n2 0\nc x";
    for step in [1, 2, 3, 7, 100] {
        let mut at_end = false;
        for call in 1..30 {
            let front = taken(text, step, call);
            let line = line_ends(front).saturating_add(1);
            let fault = if at_end {
                None
            } else {
                Some(ReadRefused::ReadFault(line))
            };
            assert_eq!(rt;
                read(alloc, text, step, &[call])?.err(),
                fault,
                "at call {call}"
            );
            at_end = front.len() == text.len();
        }
    }
    Ok(())
}

#[test]
fn a_refused_line_counts_before_a_later_fault(rt: HostRuntime) -> Result<(), Fail> {
    let alloc = rt.alloc();
    let text = b"c\np cnf 1 1\nx 1\ny 0\nc p show";
    for step in [1, 2, 3, 7, 100] {
        for call in 1..30 {
            let lines = line_ends(taken(text, step, call));
            let refusal = if lines < 3 {
                ReadRefused::ReadFault(lines + 1)
            } else {
                ReadRefused::Text(TextRefused::BadNumber { line: 3 })
            };
            assert_eq!(rt;
                read(alloc, text, step, &[call])?.err(),
                Some(refusal),
                "at call {call}"
            );
        }
    }
    Ok(())
}

#[test]
fn a_fault_names_the_line_unless_one_is_refused(rt: HostRuntime) -> Result<(), Fail> {
    let alloc = rt.alloc();
    let text = b"p cnf 2 1\n1 2 0\n";
    for (step, call, line) in [(4, 1, 1), (4, 2, 1), (10, 2, 2), (1, 11, 2), (1, 17, 3)] {
        assert_eq!(rt;
            read(alloc, text, step, &[call])?.err(),
            Some(ReadRefused::ReadFault(line)),
            "at call {call}"
        );
    }
    assert_eq!(rt;
        read(alloc, b"1 0\n2 0\n", 5, &[2])?.err(),
        Some(ReadRefused::Text(TextRefused::BadStart { line: 1 }))
    );
    Ok(())
}

/// How many bytes are left, where there are at most 100.
fn left(source: &mut BytesIn) -> Result<usize, Failed> {
    let mut buffer = [0u8; 100];
    let mut count: usize = 0;
    for _ in 0..100 {
        count = count.saturating_add(source.take(&mut buffer)?);
    }
    Ok(count)
}

/// The refused line ends with byte 15.
#[test]
fn no_byte_is_taken_behind_a_refused_line(rt: HostRuntime) -> Result<(), Fail> {
    let alloc = rt.alloc();
    let text = b"c\np cnf 1 1\nx \n1 0\ny\np cnf 0 0\n";
    for (step, count) in [
        (1, 15),
        (2, 16),
        (4, 16),
        (7, 21),
        (14, 28),
        (15, 15),
        (16, 16),
        (100, 31),
    ] {
        let mut source = source_of(alloc, text, step, &[])?;
        assert_eq!(rt;
            read_subject(alloc, &mut source).err(),
            Some(ReadRefused::Text(TextRefused::BadNumber { line: 3 }))
        );
        assert_eq!(rt;
            left(&mut source)?.saturating_add(count),
            text.len(),
            "at step {step}"
        );
    }
    Ok(())
}

#[test]
fn a_refusal_keeps_its_number_and_line(rt: HostRuntime) {
    let line = 7;
    let refusals = [
        (TextRefused::BadStart { line }, 1),
        (TextRefused::BadHeader { line }, 2),
        (TextRefused::HeaderTwice { line }, 3),
        (TextRefused::NoHeader { line }, 4),
        (TextRefused::BadNumber { line }, 5),
        (TextRefused::VariableTooLarge { line }, 6),
        (TextRefused::Unfinished { line }, 7),
        (
            TextRefused::ClauseCount {
                line,
                said: 2,
                found: 1,
            },
            8,
        ),
        (TextRefused::ShowBad { line }, 9),
        (TextRefused::ShowUnended { line }, 10),
        (TextRefused::TooManyVariables { line }, 11),
        (TextRefused::TooManyClauses { line }, 12),
        (TextRefused::TooManyLiterals { line }, 13),
        (TextRefused::TooManyShown { line }, 14),
        (TextRefused::TextTooLong { line }, 15),
        (TextRefused::SavedBad { line }, 16),
        (TextRefused::SavedUnended { line }, 17),
        (TextRefused::NoMetText { line }, 19),
        (TextRefused::UnderBad { line }, 21),
        (TextRefused::UnderUnended { line }, 22),
    ];
    for (refusal, number) in refusals {
        assert_eq!(rt; refusal.number(), number);
        assert_eq!(rt; refusal.line(), line);
    }
}
