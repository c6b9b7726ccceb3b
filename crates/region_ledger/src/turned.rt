//! A value that is used in turns, whatever its type. The parameter is what lets threads share it:
//! that a struct with a book in it may be sent is found by way of this one.
ghost use Rattle.std.specs.Prelude.{◌≡◌};

use std::marker::Model;
use turn_cell::{Journalled, TurnCell};

/// A value that is used in turns. Contracts see its cell.
pub struct Turned<T: Journalled> {
    pub(crate) cell: TurnCell<T>,
}

impl<T: Journalled> Model for Turned<T> {
    ghost use Rattle.turn_cell.specs.Passes.{CellView};

    ghost Value = { CellView T.Fixed };

    ghost view = { λ t. t.cell };
}

impl<T: Journalled> Turned<T> {
    pub(crate) fn into_cell(self) -> TurnCell<T>
        ensures { result ≡ self }
    {
        let Self { cell } = self;
        cell
    }
}

impl<T: Journalled + Drop> Drop for Turned<T> {
    fn drop(self) {
        let Self { cell: _ } = self;
    }
}
