//! Whole runs over memory: the listings of worked examples byte for byte, and refused texts.
use crate::{Ended, OpenGate, Status, TextRefused, Words, run};
use fault_io::{BytesIn, BytesOut};
use std::alloc::{AllocError, Global};
use std::sync::Wait;
use std::test::Fail;
use std::thread::Threads;

/// How a run over memory ended, with the bytes that it wrote.
#[derive(Drop)]
struct Ran {
    ended: Ended,
    out: BytesOut,
    notes: BytesOut,
}

/// The words of the one command.
fn enumerate(alloc: Global) -> Result<Words, AllocError> {
    let mut words = Words::make(alloc);
    words.push("enumerate")?;
    Ok(words)
}

/// Runs `enumerate` on a text, with streams that move a few bytes a call.
fn run_on<R: Threads + Wait + Sync + AllocGlobal>(rt: &R, text: &[u8]) -> Result<Ran, AllocError> {
    let alloc = rt.alloc();
    let words = enumerate(alloc)?;
    let mut input = BytesIn::make(text.to_vec(alloc)?, 4, Vec::new(alloc));
    let mut out = BytesOut::make(alloc, 1000, 4, Vec::new(alloc))?;
    let mut notes = BytesOut::make(alloc, 200, 7, Vec::new(alloc))?;
    let ended = run(
        rt, alloc, &words, &mut input, &mut out, &mut notes, &OpenGate,
    );
    Ok(Ran { ended, out, notes })
}

/// Whether the run finished with just this listing and no note.
fn lists(ran: &Ran, listing: &[u8]) -> bool {
    ran.ended.status == Status::Finished
        && ran.out.bytes() == listing
        && ran.notes.bytes().is_empty()
}

#[test]
fn one_clause_gives_two_cubes(rt: HostRuntime) -> Result<(), Fail> {
    assert!(rt;
        lists(
            &run_on(&rt, b"p cnf 2 1\n1 2 0\n")?,
            b"v -1 2 0\nv 1 0\ns ALL\n"
        )
    );
    Ok(())
}

#[test]
fn a_contradiction_gives_no_cube(rt: HostRuntime) -> Result<(), Fail> {
    assert!(rt; lists(&run_on(&rt, b"p cnf 1 2\n1 0\n-1 0\n")?, b"s ALL\n"));
    Ok(())
}

#[test]
fn no_variables_and_no_clauses_give_the_empty_cube(rt: HostRuntime) -> Result<(), Fail> {
    assert!(rt; lists(&run_on(&rt, b"p cnf 0 0\n")?, b"v 0\ns ALL\n"));
    Ok(())
}

#[test]
fn variables_that_do_not_matter_cost_nothing(rt: HostRuntime) -> Result<(), Fail> {
    assert!(rt; lists(&run_on(&rt, b"p cnf 40 1\n1 0\n")?, b"v 1 0\ns ALL\n"));
    Ok(())
}

#[test]
fn the_empty_clause_gives_no_cube(rt: HostRuntime) -> Result<(), Fail> {
    assert!(rt; lists(&run_on(&rt, b"p cnf 1 1\n0\n")?, b"s ALL\n"));
    Ok(())
}

#[test]
fn pairs_and_repeated_literals_are_read_as_written(rt: HostRuntime) -> Result<(), Fail> {
    assert!(rt;
        lists(
            &run_on(&rt, b"p cnf 2 2\n1 -1 0\n2 2 0\n")?,
            b"v 2 0\ns ALL\n"
        )
    );
    Ok(())
}

#[test]
fn assignments_two_variables_apart_are_listed_one_by_one(rt: HostRuntime) -> Result<(), Fail> {
    let text = b"p cnf 3 4\n1 2 3 0\n1 -2 -3 0\n-1 2 -3 0\n-1 -2 3 0\n";
    assert!(rt;
        lists(
            &run_on(&rt, text)?,
            b"v -1 -2 3 0\nv -1 2 -3 0\nv 1 -2 -3 0\nv 1 2 3 0\ns ALL\n"
        )
    );
    Ok(())
}

#[test]
fn a_hidden_variable_takes_what_value_it_can(rt: HostRuntime) -> Result<(), Fail> {
    let text = b"p cnf 2 2\nc p show 1 0\n1 2 0\n-1 -2 0\n";
    assert!(rt; lists(&run_on(&rt, text)?, b"v -1 0\nv 1 0\ns ALL\n"));
    Ok(())
}

#[test]
fn with_nothing_shown_a_formula_with_a_solution_gives_the_empty_cube(
    rt: HostRuntime,
) -> Result<(), Fail> {
    assert!(rt;
        lists(
            &run_on(&rt, b"p cnf 1 1\nc p show 0\n1 0\n")?,
            b"v 0\ns ALL\n"
        )
    );
    Ok(())
}

#[test]
fn with_nothing_shown_a_contradiction_gives_no_cube(rt: HostRuntime) -> Result<(), Fail> {
    assert!(rt;
        lists(
            &run_on(&rt, b"p cnf 1 2\nc p show 0\n1 0\n-1 0\n")?,
            b"s ALL\n"
        )
    );
    Ok(())
}

/// With 1 and 2 false the hidden variable 4 has no value. That teaches the clause `2`, which stands
/// by no decision, so that one cube without 1 holds both solutions.
#[test]
fn what_a_conflict_teaches_makes_the_next_cube_short(rt: HostRuntime) -> Result<(), Fail> {
    let text = b"p cnf 4 2\nc p show 1 2 0\n2 4 0\n2 -4 0\n";
    assert!(rt; lists(&run_on(&rt, text)?, b"v 2 0\ns ALL\n"));
    Ok(())
}

#[test]
fn show_lines_add_up_and_weight_lines_are_passed_over(rt: HostRuntime) -> Result<(), Fail> {
    let text = b"c t pmc\np cnf 4 2\nc p show 1 2 0\n1 3 0\nc p weight 1 0.4 0\n\
        c a comment between clauses\n-2 4 0\nc p show 2 0\n";
    let listing = b"v -1 -2 0\nv -1 2 0\nv 1 -2 0\nv 1 2 0\ns ALL\n";
    assert!(rt; lists(&run_on(&rt, text)?, listing));
    Ok(())
}

#[test]
fn clauses_span_and_share_lines_and_a_percent_line_ends_them(rt: HostRuntime) -> Result<(), Fail> {
    let text = b"c from a benchmark page\np cnf 3  3 \n 1\n-2\n0\n2 3 0 -1 0\n%\n0\n";
    assert!(rt; lists(&run_on(&rt, text)?, b"v -1 -2 3 0\ns ALL\n"));
    Ok(())
}

#[test]
fn nothing_behind_a_percent_line_is_judged(rt: HostRuntime) -> Result<(), Fail> {
    assert!(rt;
        lists(
            &run_on(&rt, b"p cnf 1 1\n1 0\n%\njunk\n")?,
            b"v 1 0\ns ALL\n"
        )
    );
    Ok(())
}

#[test]
fn one_shown_variable_of_many_is_listed_alone(rt: HostRuntime) -> Result<(), Fail> {
    assert!(rt;
        lists(
            &run_on(&rt, b"p cnf 4097 0\nc p show 4097 0\n")?,
            b"v 0\ns ALL\n"
        )
    );
    Ok(())
}

#[test]
fn a_comment_of_another_kind_of_text_is_a_comment(rt: HostRuntime) -> Result<(), Fail> {
    assert!(rt;
        lists(
            &run_on(&rt, b"p cnf 2 0\nc p open 2 1 0\n")?,
            b"v 0\ns ALL\n"
        )
    );
    Ok(())
}

#[test]
fn a_refused_text_is_named_with_its_line(rt: HostRuntime) -> Result<(), Fail> {
    let texts: [(&[u8], TextRefused, &[u8]); 8] = [
        (
            b"",
            TextRefused::NoHeader { line: 1 },
            b"allsat: input refused: 4 NoHeader line 1\n",
        ),
        (
            b"p cnf 2 1\n1 3 0\n",
            TextRefused::VariableTooLarge { line: 2 },
            b"allsat: input refused: 6 VariableTooLarge line 2\n",
        ),
        (
            b"p cnf 1 1\n1\n%\n0\n",
            TextRefused::Unfinished { line: 4 },
            b"allsat: input refused: 7 Unfinished line 4\n",
        ),
        (
            b"p cnf 2 2\n1 0\n2\n",
            TextRefused::Unfinished { line: 3 },
            b"allsat: input refused: 7 Unfinished line 3\n",
        ),
        (
            b"p cnf 2 2\n1 0\n",
            TextRefused::ClauseCount {
                line: 2,
                said: 2,
                found: 1,
            },
            b"allsat: input refused: 8 ClauseCount line 2 said 2 found 1\n",
        ),
        (
            b"p cnf 1 0\n1 0\n",
            TextRefused::ClauseCount {
                line: 2,
                said: 0,
                found: 1,
            },
            b"allsat: input refused: 8 ClauseCount line 2 said 0 found 1\n",
        ),
        (
            b"c p show 3 0\np cnf 2 0\n",
            TextRefused::ShowBad { line: 1 },
            b"allsat: input refused: 9 ShowBad line 1\n",
        ),
        (
            b"c allsat met 1\np cnf 0 0\n",
            TextRefused::SavedUnended { line: 2 },
            b"allsat: input refused: 17 SavedUnended line 2\n",
        ),
    ];
    for (text, refused, note) in texts {
        let ran = run_on(&rt, text)?;
        assert_eq!(rt; ran.ended.status, Status::InputRefused(refused));
        assert_eq!(rt; ran.ended.status.code(), 2);
        assert_eq!(rt; ran.out.bytes().len(), 0);
        assert_eq!(rt; ran.notes.bytes(), note);
    }
    Ok(())
}

#[test]
fn words_that_are_no_command_are_refused(rt: HostRuntime) -> Result<(), Fail> {
    let alloc = rt.alloc();
    let mut other = Words::make(alloc);
    other.push("list")?;
    let mut twice = enumerate(alloc)?;
    twice.push("enumerate")?;
    for words in [Words::make(alloc), other, twice] {
        let mut input = BytesIn::make(b"p cnf 0 0\n".to_vec(alloc)?, 4, Vec::new(alloc));
        let mut out = BytesOut::make(alloc, 100, 4, Vec::new(alloc))?;
        let mut notes = BytesOut::make(alloc, 100, 4, Vec::new(alloc))?;
        let ended = run(
            &rt, alloc, &words, &mut input, &mut out, &mut notes, &OpenGate,
        );
        assert_eq!(rt; ended.status, Status::WordsRefused);
        assert_eq!(rt; ended.status.code(), 1);
        assert_eq!(rt; out.bytes().len(), 0);
        assert_eq!(rt; notes.bytes(), b"allsat: words refused\n".as_slice());
    }
    Ok(())
}
