//! The book, as its callers see it.
ghost use Rattle.std.specs.Prelude.{◌≡◌, ◌≢◌, ◌<◌, [], None, IfOk, IfErr};
ghost use Rattle.std.specs.List.{find};
ghost use Rattle.sat_terms.specs.Subjects.{IsSubject};
ghost use Rattle.region_book.specs.declared.event.Event.TheVariants.{Release};
ghost use Rattle.region_book.specs.Machine.{is_held_by, AreLegal, FitsFound};
ghost use Rattle.region_book.specs.Starts.{CanBegin, start_of};
ghost use Rattle.region_book.specs.Books.{state_of, with_event, Takes, TakesLowest};
ghost use Rattle.region_book.specs.Books.{MakesReport, IsProgress};

use crate::answers::{Progress, Reported, Taken};
use crate::event::Event;
use crate::pages::Pages;
use checkpoint::Saved;
use prefix_jobs::{Number, Outcome};
use sat_terms::{Cube, Subject};
use std::alloc::{AllocError, Global};
use std::marker::Model;

/// Which cubes of a subject are published, which prefixes are pending, and which pass holds each
/// of these. Contracts see what it began with and its journal; all else is what the events made of
/// that.
#[derive(Drop)]
pub struct Book {
    pub(crate) alloc: Global,
    pub(crate) subject: Subject,
    pub(crate) saved: Option<Saved>,
    pub(crate) passes: u32,
    pub(crate) pages: Pages,
}

impl Model for Book {
    ghost use Rattle.region_book.specs.Books.{BookView, book_view, IsBook};

    ghost Value = { BookView };

    ghost view = { λ b. book_view b.subject b.saved b.passes b.pages };

    ghost invariant = { λ b. IsBook b.subject b.saved b.passes b.pages };
}

impl Book {
    /// A book without events, for so many passes. Without saved lines the given literals are the
    /// one prefix that is pending.
    pub fn make(
        alloc: Global,
        subject: Subject,
        saved: Option<Saved>,
        passes: u32,
    ) -> Result<Book, AllocError>
        requires { CanBegin subject saved passes }
        ensures { IfOk result (λ book. book ≡ record {
          subject = subject;
          saved = saved;
          passes = passes;
          journal = [];
        }) }
    {
        let pages = Pages::start(alloc, &subject, &saved, passes)?;
        Ok(Book {
            alloc,
            subject,
            saved,
            passes,
            pages,
        })
    }

    /// Takes the prefix of this number for the pass, if it is pending and nobody holds it.
    pub fn take(&mut self, pass: u32, number: Number) -> Result<Taken, AllocError>
        requires { pass < self.old.passes }
        ensures takes { IfOk result (λ taken. Takes self.old self.new pass number taken) }
        ensures unchanged { IfErr result (λ _. self.new ≡ self.old) }
    {
        self.pages
            .take(self.alloc, &self.subject, &self.saved, pass, number)
    }

    /// Takes the prefix of the lowest number that nobody holds. None where there is none.
    pub fn take_any(&mut self, pass: u32) -> Result<Option<(Number, Cube)>, AllocError>
        requires { pass < self.old.passes }
        ensures takes { IfOk result (λ taken. TakesLowest self.old self.new pass taken) }
        ensures unchanged { IfErr result (λ _. self.new ≡ self.old) }
    {
        let Some(number) = self.pages.slots.lowest_free() else {
            return Ok(None);
        };
        let taken = self
            .pages
            .take(self.alloc, &self.subject, &self.saved, pass, number)?;
        match taken {
            Taken::Held(prefix) => Ok(Some((number, prefix))),
            Taken::Gone => unreachable!(),
        }
    }

    /// Reports what the search of a prefix came to, which the pass holds. The prefix goes; the
    /// outcome's cubes are published, its rest is pending, and the pass holds what it keeps.
    pub fn report(
        &mut self,
        pass: u32,
        number: Number,
        outcome: Outcome,
    ) -> Result<Reported, (Outcome, AllocError)>
        requires pass { pass < self.old.passes }
        requires fits { FitsFound self.old.subject.formula.clauses self.old.subject.shown
            (find (is_held_by pass number) (state_of self.old).pending) outcome }
        ensures reports { IfOk result
            (λ reported. MakesReport self.old self.new pass number outcome reported) }
        ensures unchanged { IfErr result (λ refused. self.new ≡ self.old) }
        ensures given_back { IfErr result (λ refused. refused.0 ≡ outcome) }
    {
        if let Err(error) = self.pages.prepare(&outcome) {
            return Err((outcome, error));
        }
        self.pages.report(pass, number, outcome)
    }

    /// Gives a prefix back that the pass holds. It takes no memory.
    pub fn release(&mut self, pass: u32, number: Number)
        requires pass { pass < self.old.passes }
        requires held { find (is_held_by pass number) (state_of self.old).pending ≢ None }
        ensures { self.new ≡ with_event (Release pass number) self.old }
    {
        self.pages.release(pass, number);
    }

    /// What is left to be done. Constant time where something is free, else a walk up to the first
    /// prefix that is held.
    pub fn state(&self) -> Progress
        ensures { IsProgress (state_of self.now).pending result }
    {
        if let Some(number) = self.pages.slots.lowest_free() {
            return Progress::Unheld(number);
        }
        match self.pages.slots.lowest_held() {
            Some(number) => Progress::HeldByOthers(number),
            None => Progress::Finished,
        }
    }

    /// The subject, and that the book began as it may.
    pub fn subject(&self) -> &Subject
        ensures same { result.now ≡ self.now.subject }
        ensures begins { CanBegin self.now.subject self.now.saved self.now.passes }
    {
        &self.subject
    }

    /// The events, the oldest first. Each was legal in its turn.
    pub fn journal(&self) -> &[Event]
        ensures same { result.now ≡ self.now.journal }
        ensures legal { AreLegal self.now.subject.formula.clauses self.now.subject.shown 1
            self.now.journal (start_of self.now.subject self.now.saved) }
    {
        self.pages.journal.as_slice()
    }

    /// How many leaves were reported, up to 2^62, at which the number stands still.
    pub fn spent(&self) -> u64
        ensures { result ≡ (state_of self.now).spent }
    {
        self.pages.spent
    }
}
