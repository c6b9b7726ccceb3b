//! What a thread takes its turns with.
ghost use Rattle.std.specs.Prelude.{◌≡◌};
ghost use Rattle.turn_cell.specs.Rule.{entries_of};

use crate::journal::Journalled;
use crate::rule::Place;
use std::marker::Model;

/// The right to take turns at one cell, one at a time. Contracts see its number, what it has seen
/// of the journal, and its own entries.
pub struct Pass<T: Journalled> {
    pub(crate) number: u32,
    pub(crate) seat: Place<T>,
}

impl<T: Journalled> Model for Pass<T> {
    ghost use Rattle.turn_cell.specs.Passes.{PassView};
    ghost use Rattle.turn_cell.specs.Idle.{pass_view, IsIdleSeat};

    ghost Value = { PassView T.Entry T.Fixed };

    ghost view = { λ p. pass_view p.number p.seat };

    ghost invariant = { λ p. IsIdleSeat T.pass_of p.number p.seat };
}

impl<T: Journalled> Pass<T> {
    ghost use Rattle.turn_cell.specs.Idle.{pass_view, IsIdleSeat};

    /// A pass keeps its number. Its own entries are those of its number in what it has seen.
    pub fn number(&self) -> u32
        ensures number { result ≡ self.now.number }
        ensures own { self.now.own ≡ entries_of T.pass_of self.now.number self.now.seen }
    {
        self.number
    }

    /// The seat that it takes its turns with.
    pub(crate) fn into_seat(self) -> Place<T>
        ensures idle { IsIdleSeat T.pass_of self.number result }
        ensures same { pass_view self.number result ≡ self }
    {
        let Self { number: _, seat } = self;
        seat
    }
}

impl<T: Journalled> Drop for Pass<T> {
    fn drop(self) {
        let Self { number: _, seat: _ } = self;
    }
}
