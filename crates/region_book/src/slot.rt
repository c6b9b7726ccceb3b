//! What is kept of a pending prefix: its number, and who holds it.
ghost use Rattle.std.specs.Prelude.{◌≡◌};
ghost use Rattle.region_book.specs.Slots.{has_slot_number, is_live, stands_free, stands_held, stands_for};

use prefix_jobs::Number;

/// Whether a prefix is free, held by a pass, or no longer pending.
#[derive(Clone, Copy, Debug)]
pub(crate) enum Standing {
    Free,
    Held(u32),
    Gone,
}

/// The number of a prefix, and how it stands. Its literals stand where its number says.
#[derive(Clone, Copy, Debug)]
pub(crate) struct Slot {
    pub(crate) number: Number,
    pub(crate) standing: Standing,
}

impl Slot {
    /// Whether it is of this number.
    pub(crate) fn has_number(&self, number: Number) -> bool
        ensures { result ≡ has_slot_number number self.now }
    {
        self.number.place == number.place && self.number.index == number.index
    }

    /// Whether the prefix is pending.
    pub(crate) fn is_live(&self) -> bool
        ensures { result ≡ is_live self.now }
    {
        !matches!(self.standing, Standing::Gone)
    }

    /// Whether it is pending and nobody holds it.
    pub(crate) fn is_free(&self) -> bool
        ensures { result ≡ stands_free self.now }
    {
        matches!(self.standing, Standing::Free)
    }

    /// Whether some pass holds it.
    pub(crate) fn is_held(&self) -> bool
        ensures { result ≡ stands_held self.now }
    {
        matches!(self.standing, Standing::Held(_))
    }

    /// Whether this pass holds it.
    pub(crate) fn is_held_by(&self, pass: u32) -> bool
        ensures { result ≡ stands_for pass self.now }
    {
        match self.standing {
            Standing::Held(holder) => holder == pass,
            Standing::Free | Standing::Gone => false,
        }
    }
}
