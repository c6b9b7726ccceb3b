//! A watch: a place in the lists.
ghost use Rattle.std.specs.Prelude.{◌≡◌, ◌/◌};

/// One of the two watches of a clause: its place, which is twice the clause's id, or one more.
#[derive(Clone, Copy, Debug, PartialEq, Eq)]
pub struct Watch {
    pub place: u32,
}

impl Watch {
    /// The id of its clause.
    pub fn clause(self) -> u32
        ensures { result ≡ self.place / 2 }
    {
        self.place / 2
    }
}
