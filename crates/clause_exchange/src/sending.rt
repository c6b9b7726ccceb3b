//! How a lemma is fetched and offered, under any rule.
//!
//! What `fetch_oldest` learns where it finds nothing has its force here: of a rule that is not
//! known a call learns it from the queue alone.
ghost use Rattle.std.specs.Prelude.{◌≡◌, ◌⊎◌, ℕ, IfSome, IfNone};
ghost use Rattle.crossbeam_queue.specs.Fifo.{Pushes, Pops, Learns, Held};
ghost use Rattle.crossbeam_queue.specs.Passes.{view};
ghost use Rattle.clause_exchange.specs.Posts.{address_of};

use crate::inbox::Inbox;
use crossbeam_queue::protocol::{Lesson, Outcome, Protocol};
use prefix_jobs::Lemma;
use std::sync::Wait;

/// Fetches the lemma that has lain there longest. None comes only where the queue was empty at a
/// moment of the call.
pub(crate) fn fetch_oldest<
    R: Wait,
    V,
    P: Protocol<Lemma, V>,
    M: Outcome<Lemma, V> + Lesson<Lemma, V>,
>(rt: &R, inbox: &mut Inbox<V, P>) -> Option<Lemma>
    requires pops { (port : ℕ) (v : V) → Pops P.holds port v (M.then v) }
    requires learns { (port : ℕ) (v : V) → Learns P.holds port v (M.fact v) }
    ensures queue { (address_of inbox.new).queue ≡ (address_of inbox.old).queue }
    ensures fetched { IfSome result (λ l. M.then (view inbox.old.pass) l (view inbox.new.pass)) }
    ensures kept { IfNone result (view inbox.new.pass ≡ view inbox.old.pass) }
    ensures none { IfNone result (Held 0 (M.fact (view inbox.old.pass))) }
{
    inbox.queue.pop_as::<M, R>(rt, &mut inbox.pass)
}

/// Offers the lemma to one queue, once. It is not sent where the queue is full, or where another
/// call there is in the way.
pub(crate) fn offer_once<V, P: Protocol<Lemma, V>, M: Outcome<Lemma, V>>(
    inbox: &mut Inbox<V, P>,
    lemma: Lemma,
)
    requires { (n port : ℕ) (v : V) → Pushes P.holds n port v lemma (M.then v lemma) }
    ensures queue { (address_of inbox.new).queue ≡ (address_of inbox.old).queue }
    ensures offered { (view inbox.new.pass ≡ view inbox.old.pass)
        ⊎ M.then (view inbox.old.pass) lemma (view inbox.new.pass) }
{
    let _ = inbox.queue.try_push_as::<M>(&mut inbox.pass, lemma);
}
