//! Where the prefixes stand.
ghost use Rattle.std.specs.Prelude.{◌≡◌, ◌++◌, true, [], map, slice_index_or, IfOk};
ghost use Rattle.std.specs.List.{All};
ghost use Rattle.std.specs.Option.{option_to_list};
ghost use Rattle.sat_terms.specs.Cubes.{rises_above};
ghost use Rattle.sat_terms.specs.Literals.{IsLiteral};
ghost use Rattle.region_book.specs.Prefixes.{first_prefixes, left_by, prefix_at};

use crate::event::Event;
use checkpoint::Saved;
use prefix_jobs::{Number, Outcome};
use sat_terms::{Cube, Subject};
use std::alloc::{AllocError, Global};

/// The literals of the prefix of a number; none where no prefix has it. Constant time.
pub(crate) fn prefix_at<'a>(
    subject: &'a Subject,
    saved: &'a Option<Saved>,
    journal: &'a [Event],
    number: Number,
) -> &'a [i32]
    ensures same { result.now ≡ prefix_at subject.now saved.now journal.now number }
    ensures rising { rises_above 0 result.now ≡ true }
    ensures literals { All IsLiteral result.now }
{
    let index = number.index as usize;
    if number.place == 0 {
        first_prefix(subject, saved, index)
    } else {
        left_prefix(journal, (number.place - 1) as usize, index)
    }
}

/// A copy of the prefix of a number.
pub(crate) fn copy_prefix(
    alloc: Global,
    subject: &Subject,
    saved: &Option<Saved>,
    journal: &[Event],
    number: Number,
) -> Result<Cube, AllocError>
    ensures { IfOk result
        (λ prefix. prefix ≡ prefix_at subject.now saved.now journal.now number) }
{
    let lits = prefix_at(subject, saved, journal, number);
    Ok(Cube::from_vec(lits.to_vec(alloc)?))
}

/// The prefix of this index of those with which a book begins.
fn first_prefix<'a>(subject: &'a Subject, saved: &'a Option<Saved>, index: usize) -> &'a [i32]
    ensures same { result.now ≡ slice_index_or (first_prefixes subject.now saved.now) index [] }
    ensures rising { rises_above 0 result.now ≡ true }
    ensures literals { All IsLiteral result.now }
{
    match saved {
        Some(saved) => lits_of(saved.pending.as_slice(), index),
        None if index == 0 => subject.under.lits(),
        None => &[],
    }
}

/// The prefix of this index of those that the event of a place leaves.
fn left_prefix(journal: &[Event], place: usize, index: usize) -> &[i32]
    ensures same { result.now
        ≡ slice_index_or (slice_index_or (map left_by journal.now) place []) index [] }
    ensures rising { rises_above 0 result.now ≡ true }
    ensures literals { All IsLiteral result.now }
{
    if place < journal.len() {
        event_prefix(&journal[place], index)
    } else {
        &[]
    }
}

/// The prefix of this index of those that an event leaves.
fn event_prefix(event: &Event, index: usize) -> &[i32]
    ensures same { result.now ≡ slice_index_or (left_by event.now) index [] }
    ensures rising { rises_above 0 result.now ≡ true }
    ensures literals { All IsLiteral result.now }
{
    match event {
        Event::Report { outcome, .. } => outcome_prefix(outcome, index),
        Event::Take { .. } | Event::Release { .. } => &[],
    }
}

/// The prefix of this index of those that an outcome leaves: its rest, and then what it keeps.
fn outcome_prefix(outcome: &Outcome, index: usize) -> &[i32]
    ensures same { result.now ≡ slice_index_or
        (outcome.now.rest ++ option_to_list outcome.now.kept) index [] }
    ensures rising { rises_above 0 result.now ≡ true }
    ensures literals { All IsLiteral result.now }
{
    let rest = outcome.rest.as_slice();
    match &outcome.kept {
        Some(kept) if index == rest.len() => kept.lits(),
        _ => lits_of(rest, index),
    }
}

/// The literals of the cube of this index; none where there is none.
fn lits_of(cubes: &[Cube], index: usize) -> &[i32]
    ensures same { result.now ≡ slice_index_or cubes.now index [] }
    ensures rising { rises_above 0 result.now ≡ true }
    ensures literals { All IsLiteral result.now }
{
    if index < cubes.len() {
        cubes[index].lits()
    } else {
        &[]
    }
}
