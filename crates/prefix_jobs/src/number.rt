//! Numbers of pending prefixes, and tokens that carry them.
ghost use Rattle.std.specs.Prelude.{◌≡◌};

/// The number of a pending prefix: the place in the journal of the event that made it pending, and
/// its index among the prefixes of that event.
#[derive(Clone, Copy, Debug, PartialEq, Eq)]
pub struct Number {
    pub place: u64,
    pub index: u32,
}

/// A claim on the pending prefix of a number. It is a hint where to look: whether the prefix is
/// still to be searched only the book of all prefixes says.
#[derive(Debug, Drop)]
pub struct Token {
    pub number: Number,
}

impl Number {
    ghost use Rattle.prefix_jobs.specs.Numbers.{is_before};

    /// Whether this number stands before the other: by place, then by index.
    pub fn before(self, other: Number) -> bool
        ensures { result ≡ is_before self other }
    {
        self.place < other.place || (self.place == other.place && self.index < other.index)
    }
}
