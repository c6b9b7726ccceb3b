//! What is done with the book in one turn: one act for each call, which does that call and nothing
//! else.
ghost use Rattle.std.specs.Prelude.{◌≡◌, ◌≢◌, ℕ, ◌<◌, None};
ghost use Rattle.std.specs.List.{find};
ghost use Rattle.region_book.specs.Machine.{is_held_by, FitsFound};
ghost use Rattle.region_book.specs.Books.{BookView, state_of, IsProgress};
ghost use Rattle.region_ledger.specs.Calls.{IsLegalBook, TakeDoes, TakeAnyDoes, ReportDoes, ReleaseDoes, LookDoes};
ghost use Rattle.region_ledger.specs.Acts.{DoesOn};

use prefix_jobs::{Number, Outcome};
use region_book::{Book, Progress, Reported, Taken};
use sat_terms::Cube;
use std::alloc::AllocError;
use turn_cell::Act;

/// A prefix is taken, by its number.
#[derive(Clone, Copy)]
pub(crate) struct TakeNumbered {
    pub(crate) number: Number,
}

impl Act<Book> for TakeNumbered {
    type Answer = Result<Taken, AllocError>;

    ghost can = { λ a b k. k < b.passes };

    ghost does = { λ a b k c answer. DoesOn b c (TakeDoes k a.number answer) };

    fn act(self, value: &mut Book, pass: u32) -> Result<Taken, AllocError> {
        is_legal(value);
        let taken = value.take(pass, self.number);
        is_legal(value);
        taken
    }
}

/// The prefix of the lowest number is taken.
#[derive(Clone, Copy)]
pub(crate) struct TakeLowest;

impl Act<Book> for TakeLowest {
    type Answer = Result<Option<(Number, Cube)>, AllocError>;

    ghost can = { λ a b k. k < b.passes };

    ghost does = { λ a b k c answer. DoesOn b c (TakeAnyDoes k answer) };

    fn act(self, value: &mut Book, pass: u32) -> Result<Option<(Number, Cube)>, AllocError> {
        is_legal(value);
        let taken = value.take_any(pass);
        is_legal(value);
        taken
    }
}

/// What the search of a prefix came to is reported.
pub(crate) struct HandIn {
    pub(crate) number: Number,
    pub(crate) outcome: Outcome,
}

impl Act<Book> for HandIn {
    type Answer = Result<Reported, (Outcome, AllocError)>;

    ghost can = { λ a b k. (k < b.passes)
        × FitsFound b.subject.formula.clauses b.subject.shown
        (find (is_held_by k a.number) (state_of b).pending) a.outcome };

    ghost does = { λ a b k c answer. DoesOn b c (ReportDoes k a.number a.outcome answer) };

    fn act(self, value: &mut Book, pass: u32) -> Result<Reported, (Outcome, AllocError)> {
        is_legal(value);
        let Self { number, outcome } = self;
        let reported = value.report(pass, number, outcome);
        is_legal(value);
        reported
    }
}

/// A prefix is given back.
#[derive(Clone, Copy)]
pub(crate) struct GiveBack {
    pub(crate) number: Number,
}

impl Act<Book> for GiveBack {
    type Answer = ();

    ghost can = { λ a b k. (k < b.passes)
        × (find (is_held_by k a.number) (state_of b).pending ≢ None) };

    ghost does = { λ a b k c answer. DoesOn b c (ReleaseDoes k a.number) };

    fn act(self, value: &mut Book, pass: u32) {
        is_legal(value);
        value.release(pass, self.number);
        is_legal(value);
    }
}

/// What is left to be done is asked.
#[derive(Clone, Copy)]
pub(crate) struct AskState;

impl Act<Book> for AskState {
    type Answer = Progress;

    ghost can = { λ a b k. Unit {0} };

    ghost does = { λ a b k c answer. DoesOn b c LookDoes
        × IsProgress (state_of c).pending answer };

    fn act(self, value: &mut Book, pass: u32) -> Progress {
        is_legal(value);
        value.state()
    }
}

/// How many leaves were reported is asked.
#[derive(Clone, Copy)]
pub(crate) struct AskSpent;

impl Act<Book> for AskSpent {
    type Answer = u64;

    ghost can = { λ a b k. Unit {0} };

    ghost does = { λ a b k c answer. DoesOn b c LookDoes × (answer ≡ (state_of c).spent) };

    fn act(self, value: &mut Book, pass: u32) -> u64 {
        is_legal(value);
        value.spent()
    }
}

/// A book began as it may, and its events were legal. Nothing is done.
pub(crate) fn is_legal(book: &Book)
    ensures { IsLegalBook book.now }
{
    let _subject = book.subject();
    let _journal = book.journal();
}
