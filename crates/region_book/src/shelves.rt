//! The literals of what a book names by its place.
use crate::event::Event;
use crate::found_cubes::cube_at;
use crate::left_prefixes::prefix_at;
use crate::slot::Slot;
use checkpoint::Saved;
use cube_merge::{CubeName, Shelf};
use sat_terms::Subject;

/// Where the cubes and the prefixes of a book stand: with what it began with, and in its journal.
#[derive(Clone, Copy, Drop)]
pub(crate) struct Shelves<'a> {
    pub(crate) subject: &'a Subject,
    pub(crate) saved: &'a Option<Saved>,
    pub(crate) journal: &'a [Event],
}

impl Shelf<CubeName> for Shelves<'_> {
    ghost use Rattle.region_book.specs.Found.{cube_at};

    ghost cube_of = { λ x name. cube_at x.saved.now x.journal.now name };

    fn lits_of(&self, name: CubeName) -> &[i32] {
        cube_at(self.saved, self.journal, name)
    }
}

impl Shelf<Slot> for Shelves<'_> {
    ghost use Rattle.region_book.specs.Prefixes.{prefix_at};

    ghost cube_of = { λ x slot. prefix_at x.subject.now x.saved.now x.journal.now slot.number };

    fn lits_of(&self, name: Slot) -> &[i32] {
        prefix_at(self.subject, self.saved, self.journal, name.number)
    }
}
