//! A book is a value that threads use in turns, with one history.
ghost use Rattle.std.specs.Prelude.{◌≡◌, length};

use crate::book::Book;
use crate::event::Event;
use checkpoint::Saved;
use sat_terms::Subject;
use turn_cell::Journalled;

impl Journalled for Book {
    ghost use Rattle.region_book.specs.Machine.{pass_of};
    ghost use Rattle.region_book.specs.Journalled.{journal_of, basis_of};

    type Entry = Event;

    type Fixed = (Subject, Option<Saved>, u32);

    ghost journal = { journal_of };

    ghost pass_of = { pass_of };

    ghost fixed = { basis_of };

    fn journal_len(&self) -> u64 {
        self.journal().len() as u64
    }
}
