//! What a pass knows of a queue: what it sent to it and fetched from it itself.
use crossbeam_queue::protocol::{Lesson, Outcome, Protocol};
use prefix_jobs::Lemma;
use std::collections::LinkedList;

/// What one pass sent to a queue, and what it fetched. No value of it is made.
pub struct Mail {
    pub sent: LinkedList<Lemma>,
    pub fetched: LinkedList<Lemma>,
}

/// The rule of a queue: anything may lie in it.
pub struct Anything;

impl Protocol<Lemma, Mail> for Anything {
    ghost use Rattle.std.specs.Prelude.{⊤};
    ghost use Rattle.clause_exchange.specs.Mails.{no_mail};

    ghost holds = { λ items views. ⊤ };

    ghost first = { no_mail };
}

/// A lemma is sent.
pub(crate) struct Sending;

impl Outcome<Lemma, Mail> for Sending {
    ghost use Rattle.std.specs.Prelude.{◌≡◌};
    ghost use Rattle.clause_exchange.specs.Mails.{mail_with_sent};

    ghost then = { λ v l w. w ≡ mail_with_sent v l };
}

/// A lemma is fetched.
pub(crate) struct Fetching;

impl Outcome<Lemma, Mail> for Fetching {
    ghost use Rattle.std.specs.Prelude.{◌≡◌};
    ghost use Rattle.clause_exchange.specs.Mails.{mail_with_fetched};

    ghost then = { λ v l w. w ≡ mail_with_fetched v l };
}

impl Lesson<Lemma, Mail> for Fetching {
    ghost use Rattle.std.specs.Prelude.{⊤};

    ghost fact = { λ v items. ⊤ };
}
