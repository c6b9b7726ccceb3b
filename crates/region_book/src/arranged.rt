//! A book whose lists are in order, to be written out.
ghost use Rattle.std.specs.Prelude.{◌≡◌, ◌<◌, [], length, slice_index_or};
ghost use Rattle.std.specs.Bool.{Decides};
ghost use Rattle.region_book.specs.Machine.{prefixes_of, AreLegal};
ghost use Rattle.region_book.specs.Starts.{start_of};
ghost use Rattle.region_book.specs.Books.{state_of};
ghost use Rattle.region_book.specs.Arranged.{IsArranged};

use crate::book::Book;
use crate::event::Event;
use crate::found_cubes::cube_at;
use crate::left_prefixes::prefix_at;
use crate::pages::Pages;
use crate::shelves::Shelves;
use crate::slot::Slot;
use checkpoint::{Saved, SavedView};
use cube_merge::{CubeName, put_in_order};
use sat_terms::{CubeList, Subject};
use std::marker::Model;

/// A book that takes no more events. Its published cubes and its pending prefixes are those that
/// the events made, each list in the order of cubes. As a list of cubes it is what is published.
#[derive(Drop)]
pub struct ArrangedBook {
    subject: Subject,
    saved: Option<Saved>,
    passes: u32,
    journal: Vec<Event>,
    published: Vec<CubeName>,
    pending: Vec<Slot>,
    spent: u64,
}

impl Model for ArrangedBook {
    ghost use Rattle.region_book.specs.Arranged.{ArrangedView, arranged_view, KeepsArranged};

    ghost Value = { ArrangedView };

    ghost view = { λ a. arranged_view a.subject a.saved a.passes a.journal.items a.published.items
        a.pending.items };

    ghost invariant = { λ a. KeepsArranged a.subject a.saved a.passes a.journal.items
        a.published.items a.pending.items a.spent };
}

impl Book {
    /// Brings what is published and what is pending each into the order of cubes, by their
    /// literals. It takes no memory.
    pub fn arrange(self) -> ArrangedBook
        ensures book { result.book ≡ self }
        ensures arranged { IsArranged result }
        ensures legal { AreLegal self.subject.formula.clauses self.subject.shown 1 self.journal
            (start_of self.subject self.saved) }
    {
        let Book {
            alloc: _,
            subject,
            saved,
            passes,
            pages,
        } = self;
        let Pages {
            journal,
            published,
            mut slots,
            spent,
        } = pages;
        let shelves = Shelves {
            subject: &subject,
            saved: &saved,
            journal: &journal,
        };
        let published = published.arrange(&shelves);
        slots.squeeze();
        let mut pending = slots.into_vec();
        put_in_order(&mut pending, &shelves);
        ArrangedBook {
            subject,
            saved,
            passes,
            journal,
            published,
            pending,
            spent,
        }
    }
}

impl ArrangedBook {
    /// The subject.
    pub fn subject(&self) -> &Subject
        ensures same { result.now ≡ self.now.book.subject }
        ensures arranged { IsArranged self.now }
    {
        &self.subject
    }

    /// Whether nothing is pending.
    pub fn is_finished(&self) -> bool
        ensures { Decides result (self.now.pending ≡ []) }
    {
        self.pending.is_empty()
    }

    /// The literals of the pending prefix of this place in their order. Constant time.
    pub fn prefix(&self, i: usize) -> &[i32]
        requires { i < length self.now.pending }
        ensures { result.now ≡ slice_index_or (prefixes_of self.now.pending) i [] }
    {
        let number = self.pending[i].number;
        prefix_at(&self.subject, &self.saved, &self.journal, number)
    }

    /// The events, the oldest first. Each was legal in its turn.
    pub fn journal(&self) -> &[Event]
        ensures same { result.now ≡ self.now.book.journal }
        ensures legal { AreLegal self.now.book.subject.formula.clauses self.now.book.subject.shown 1
            self.now.book.journal (start_of self.now.book.subject self.now.book.saved) }
    {
        self.journal.as_slice()
    }

    /// How many leaves were reported, up to 2^62, at which the number stands still.
    pub fn spent(&self) -> u64
        ensures { result ≡ (state_of self.now.book).spent }
    {
        self.spent
    }
}

impl CubeList for ArrangedBook {
    ghost cubes = { λ a. a.published };

    fn count(&self) -> usize {
        self.published.len()
    }

    fn at(&self, i: usize) -> &[i32] {
        cube_at(&self.saved, &self.journal, self.published[i])
    }
}

impl SavedView for ArrangedBook {
    ghost use Rattle.region_book.specs.Machine.{prefixes_of};

    ghost subject_of = { λ a. a.book.subject };

    ghost pending = { λ a. prefixes_of a.pending };

    fn subject(&self) -> &Subject {
        &self.subject
    }

    fn pending_count(&self) -> usize {
        self.pending.len()
    }

    fn pending_at(&mut self, i: usize) -> &[i32] {
        self.prefix(i)
    }
}
