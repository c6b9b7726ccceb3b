//! What a cell holds, and what is done with it in a turn.
ghost use Rattle.std.specs.Prelude.{◌≡◌, ℕ, ◌+◌, ◌^◌, ◌<◌, ◌≤◌, List, length};

/// A value that keeps a journal. Contracts see three things of it: the journal, the pass of each
/// entry, and what never changes.
pub trait Journalled {
    /// One entry of the journal.
    type Entry;

    /// What never changes.
    type Fixed;

    /// The entries, the oldest first.
    ghost journal: { Self → List Self.Entry };

    /// The number of the pass that made the entry.
    ghost pass_of: { Self.Entry → ℕ };

    /// What no turn changes.
    ghost fixed: { Self → Self.Fixed };

    /// How many entries the journal has. A turn asks before and after its act, to know whether an
    /// entry was added.
    fn journal_len(&self) -> u64
        ensures { result ≡ length (journal self.now) };
}

/// What is done in one turn. `act` takes it by value, so that one turn calls it once.
pub trait Act<T> {
    /// What the turn answers.
    type Answer;

    /// At which values, and under which pass number, it may be called.
    ghost can: { Self → T → ℕ → Type 0 };

    /// What a call does: the act, the value before, the pass number, the value after, and the
    /// answer.
    ghost does: { Self → T → ℕ → T → Self.Answer → Type 0 };

    /// Does it, once.
    fn act(self, value: &mut T, pass: u32) -> Self::Answer
        requires { can self value.old pass }
        ensures { does self value.old pass value.new result };
}

/// Calls the act, and tells how many entries it added.
pub(crate) fn act_once<T: Journalled, A: Act<T>>(
    act: A,
    value: &mut T,
    pass: u32,
) -> (A::Answer, u64)
    requires can { A.can act value.old pass }
    requires grows { (y : T) (answer : A.Answer) → A.does act value.old pass y answer
        → length (T.journal value.old) ≤ length (T.journal y) }
    ensures did { A.does act value.old pass value.new result.0 }
    ensures count { length (T.journal value.new) ≡ length (T.journal value.old) + result.1 }
    ensures fits { length (T.journal value.new) < 2 ^ 64 }
{
    let before = value.journal_len();
    let answer = act.act(value, pass);
    let after = value.journal_len();
    (answer, after - before)
}
