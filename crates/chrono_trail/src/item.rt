//! One literal of a trail, and why it is there.
ghost use Rattle.std.specs.Prelude.{◌≡◌};
ghost use Rattle.chrono_trail.specs.Items.{is_decision};

/// Why a literal is on the trail. The numbers are those of clauses.
#[derive(Clone, Copy, Debug, PartialEq, Eq)]
pub enum Kind {
    /// It is of the prefix that the search began from.
    Assumed,
    /// It was decided, and opened its level.
    Decided,
    /// It is a decision turned over, without a clause for it.
    Flipped,
    /// It is a decision turned over, and this lemma implies it.
    Turned(u32),
    /// This clause implied it.
    Implied(u32),
}

impl Kind {
    /// Whether the literal was decided.
    pub fn is_decided(self) -> bool
        ensures { result ≡ is_decision self }
    {
        match self {
            Kind::Decided => true,
            Kind::Assumed | Kind::Flipped | Kind::Turned(_) | Kind::Implied(_) => false,
        }
    }
}

/// One literal of a trail.
#[derive(Clone, Copy, Debug, PartialEq, Eq)]
pub struct Item {
    /// The literal, which is true.
    pub lit: i32,
    /// The level that it stands on: it is taken back with this level, and not before.
    pub level: u32,
    /// Why it is there.
    pub kind: Kind,
}
