//! The rule of a bench's deque: what was put on it is what was taken and what it holds.
use crossbeam_deque::protocol::{Lesson, Outcome, Protocol, Split};
use prefix_jobs::Token;
use std::collections::LinkedList;

/// What one pass put on a deque, and what it took. No value of it is made.
pub struct Hand {
    pub put: LinkedList<Token>,
    pub taken: LinkedList<Token>,
}

/// The rule: each token that was put is taken once or is left.
pub struct Fair;

impl Protocol<Token, Hand> for Fair {
    ghost use Rattle.steal_pool.specs.Rule.{Balanced, empty_hand};

    ghost holds = { Balanced };

    ghost first = { empty_hand };

    ghost guest = { empty_hand };
}

/// A new pass has put nothing and taken nothing.
pub(crate) struct Cut;

impl Split<Hand> for Cut {
    ghost use Rattle.steal_pool.specs.Rule.{empty_hand};

    ghost left = { λ v. v };

    ghost right = { λ _. empty_hand };
}

/// A token is put.
pub(crate) struct Putting;

impl Outcome<Token, Hand> for Putting {
    ghost use Rattle.std.specs.Prelude.{◌≡◌};
    ghost use Rattle.steal_pool.specs.Rule.{hand_with_put};

    ghost then = { λ v xs w. w ≡ hand_with_put v xs };
}

/// A token is taken.
pub(crate) struct Taking;

impl Outcome<Token, Hand> for Taking {
    ghost use Rattle.std.specs.Prelude.{◌≡◌};
    ghost use Rattle.steal_pool.specs.Rule.{hand_with_taken};

    ghost then = { λ v xs w. w ≡ hand_with_taken v xs };
}

/// The tokens are counted.
pub(crate) struct Counting;

impl Lesson<Token, Hand> for Counting {
    ghost use Rattle.std.specs.Prelude.{⊤};

    ghost fact = { λ v items. ⊤ };
}
