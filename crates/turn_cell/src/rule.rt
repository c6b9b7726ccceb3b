//! The table that the passes of one cell share: what each seat knows, and the rule that every step
//! keeps. Word 0 is the next ticket, word 1 the ticket that is served, and word 2 the journal's
//! length. Slot 0 holds the value.
use crate::journal::Journalled;
use atomic_table::{Join, Play, Seat, Shared, Split, TableRule};
use std::collections::LinkedList;
use std::snapshot::Snapshot;

/// What is known of one pass: its number, what it has seen, and its own entries. No value of it is
/// made.
pub struct Claim<E> {
    pub pass: u32,
    pub seen: LinkedList<E>,
    pub own: LinkedList<E>,
}

/// What a seat knows. No value of it is made.
pub struct View<E, F> {
    pub ticket: Option<u64>,
    pub turn: bool,
    /// The journal that was found in the turn.
    pub found: LinkedList<E>,
    /// That of the seat's pass, and after a join those that it took over. A spent view has none.
    pub claims: LinkedList<Claim<E>>,
    pub fixed: Option<F>,
    /// How many passes were made, which the first seat counts.
    pub made: u32,
}

/// What a table is told once, when it is made: the value that it begins with, and how many passes
/// it is for.
pub struct Start<T> {
    pub value: Snapshot<T>,
    pub passes: u32,
}

impl<T> Drop for Start<T> {
    fn drop(self) {
        let Self {
            value: _,
            passes: _,
        } = self;
    }
}

/// The rule itself, which each step keeps.
pub struct Turns;

impl<T: Journalled> TableRule<Option<T>, View<T::Entry, T::Fixed>, Start<T>> for Turns {
    ghost use Rattle.turn_cell.specs.Rule.{KeepsJournal, first_view};

    ghost holds = { λ key.
        KeepsJournal T.journal T.pass_of T.fixed (T.fixed key.value.value) key.passes };

    ghost first = { λ key. first_view (T.fixed key.value.value) };
}

pub(crate) type Board<T> = Shared<
    Option<T>,
    View<<T as Journalled>::Entry, <T as Journalled>::Fixed>,
    Start<T>,
    Turns,
>;

pub(crate) type Place<T> = Seat<
    Option<T>,
    View<<T as Journalled>::Entry, <T as Journalled>::Fixed>,
>;

/// A ticket is drawn.
pub(crate) struct Draw;

impl<T: Journalled> Play<Option<T>, View<T::Entry, T::Fixed>> for Draw {
    ghost use Rattle.turn_cell.specs.Steps.{DrawsTicket};

    ghost then = { DrawsTicket };
}

/// The ticket that is served is looked at, and the value is taken where it is the seat's own.
pub(crate) struct Look;

impl<T: Journalled> Play<Option<T>, View<T::Entry, T::Fixed>> for Look {
    ghost use Rattle.turn_cell.specs.Steps.{LooksForTurn};

    ghost then = { LooksForTurn T.journal T.pass_of T.fixed };
}

/// The new entry, if there is one, is counted.
pub(crate) struct Enter;

impl<T: Journalled> Play<Option<T>, View<T::Entry, T::Fixed>> for Enter {
    ghost use Rattle.turn_cell.specs.Steps.{EntersJournal};

    ghost then = { EntersJournal T.journal };
}

/// The next ticket is served, and the value is given back.
pub(crate) struct PassOn;

impl<T: Journalled> Play<Option<T>, View<T::Entry, T::Fixed>> for PassOn {
    ghost use Rattle.turn_cell.specs.Steps.{PassesOn};

    ghost then = { PassesOn };
}

/// One more pass is made.
pub(crate) struct Part;

impl<E, F> Split<View<E, F>> for Part {
    ghost use Rattle.turn_cell.specs.Steps.{with_next_number, new_view};

    ghost left = { with_next_number };

    ghost right = { new_view };
}

/// A pass's claim is taken over.
pub(crate) struct Gather;

impl<E, F> Join<View<E, F>> for Gather {
    ghost use Rattle.turn_cell.specs.Rule.{spent_view};
    ghost use Rattle.turn_cell.specs.Steps.{with_claims};

    ghost both = { with_claims };

    ghost spent = { spent_view };
}
