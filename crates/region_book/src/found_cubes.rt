//! Where the published cubes stand.
ghost use Rattle.std.specs.Prelude.{◌≡◌, [], map, slice_index_or};
ghost use Rattle.region_book.specs.Found.{saved_cubes, brought_by, cubes_at, cube_at};

use crate::event::Event;
use checkpoint::Saved;
use cube_merge::CubeName;
use sat_terms::Cube;

/// The literals of the cube of a name; none where no cube has it. The cubes that were saved stand
/// at the place 0, those that an event brought at the event's place. Constant time.
pub(crate) fn cube_at<'a>(
    saved: &'a Option<Saved>,
    journal: &'a [Event],
    name: CubeName,
) -> &'a [i32]
    ensures { result.now ≡ cube_at saved.now journal.now name }
{
    lits_of(cubes_at(saved, journal, name.place), name.index)
}

/// The literals of the cube of this index.
fn lits_of(cubes: &[Cube], index: usize) -> &[i32]
    ensures { result.now ≡ slice_index_or cubes.now index [] }
{
    if index < cubes.len() {
        cubes[index].lits()
    } else {
        &[]
    }
}

/// The cubes of a place.
fn cubes_at<'a>(saved: &'a Option<Saved>, journal: &'a [Event], place: usize) -> &'a [Cube]
    ensures { result.now ≡ cubes_at saved.now journal.now place }
{
    if place == 0 {
        saved_cubes(saved)
    } else {
        event_cubes(journal, place - 1)
    }
}

/// The cubes that were saved.
fn saved_cubes(saved: &Option<Saved>) -> &[Cube]
    ensures { result.now ≡ saved_cubes saved.now }
{
    match saved {
        Some(saved) => saved.cubes.as_slice(),
        None => &[],
    }
}

/// The cubes of the event of this index.
fn event_cubes(journal: &[Event], index: usize) -> &[Cube]
    ensures { result.now ≡ slice_index_or (map brought_by journal.now) index [] }
{
    if index < journal.len() {
        brought_by(&journal[index])
    } else {
        &[]
    }
}

/// The cubes that an event brought.
fn brought_by(event: &Event) -> &[Cube]
    ensures { result.now ≡ brought_by event.now }
{
    match event {
        Event::Report { outcome, .. } => outcome.cubes.as_slice(),
        Event::Take { .. } | Event::Release { .. } => &[],
    }
}
