//! For tests: tables of texts and their answers, one row a line.
use crate::tests::read;
use crate::{Input, ReadRefused, TextRefused};
use cube_check::Met;
use sat_terms::{Cube, Items};
use std::alloc::{AllocError, Global};

/// Puts the literals of a list behind the text, and a 0.
fn put_list(alloc: Global, text: &mut String, lits: &[i32]) -> Result<(), AllocError> {
    for lit in lits {
        text.push_str(format!(in alloc; " {lit}")?.as_str())?;
    }
    text.push_str(" 0")
}

/// Puts a word and the literals of cubes behind the text, where there are cubes.
fn put_cubes(
    alloc: Global,
    text: &mut String,
    word: &str,
    cubes: &Items<Cube>,
) -> Result<(), AllocError> {
    if !cubes.as_slice().is_empty() {
        text.push_str(word)?;
    }
    for cube in cubes.as_slice() {
        put_list(alloc, text, cube.lits())?;
    }
    Ok(())
}

/// Puts a word behind the text, and then each cube with its hidden literals.
fn put_met(alloc: Global, text: &mut String, met: &Items<Met>) -> Result<(), AllocError> {
    text.push_str(" met")?;
    for line in met.as_slice() {
        put_list(alloc, text, line.cube.lits())?;
        put_list(alloc, text, line.hidden.lits())?;
    }
    Ok(())
}

/// The number of variables, and behind a word each what there is of shown variables, given
/// literals, clauses, cubes and prefixes, and of cubes with their hidden literals.
fn accepted(alloc: Global, input: &Input) -> Result<String, AllocError> {
    let subject = &input.subject;
    let mut text = format!(in alloc; "{}", subject.formula.variables)?;
    for variable in subject.shown.as_slice() {
        text.push_str(format!(in alloc; " {variable}")?.as_str())?;
    }
    if !subject.under.lits().is_empty() {
        text.push_str(" under")?;
        put_list(alloc, &mut text, subject.under.lits())?;
    }
    if !subject.formula.clauses.as_slice().is_empty() {
        text.push_str(" clauses")?;
    }
    for clause in subject.formula.clauses.as_slice() {
        put_list(alloc, &mut text, clause.lits())?;
    }
    if let Some(saved) = &input.saved {
        text.push_str(" saved")?;
        put_cubes(alloc, &mut text, " cubes", &saved.cubes)?;
        put_cubes(alloc, &mut text, " open", &saved.pending)?;
    }
    if let Some(met) = &input.met {
        put_met(alloc, &mut text, met)?;
    }
    Ok(text)
}

/// What the text gives, read by so many bytes at a call: the name and the line of its refusal, for
/// a number of clauses that is not the header's both numbers, or its input.
pub(crate) fn answer(alloc: Global, text: &[u8], step: usize) -> Result<String, AllocError> {
    match read(alloc, text, step, &[])? {
        Ok(input) => accepted(alloc, &input),
        Err(ReadRefused::Text(TextRefused::ClauseCount { line, said, found })) => {
            format!(in alloc; "ClauseCount {line} said {said} found {found}")
        }
        Err(ReadRefused::Text(refusal)) => {
            format!(in alloc; "{} {}", refusal.name(), refusal.line())
        }
        Err(failed) => format!(in alloc; "{failed}"),
    }
}

/// The first row that is answered otherwise. A row is a text, in which `|` stands for byte 10, then
/// ` => ` and the answer.
pub(crate) fn other_row(alloc: Global, rows: &str) -> Result<Option<String>, AllocError> {
    for row in rows.lines() {
        let (text, said) = row.split_once(" => ").unwrap_or((row, ""));
        let text = text.replace(alloc, '|', "\n")?;
        for step in [1, 4, 1000] {
            let found = answer(alloc, text.as_bytes(), step)?;
            if found.as_str() != said {
                return Ok(Some(format!(in alloc; "{row}, not {found}")?));
            }
        }
    }
    Ok(None)
}
