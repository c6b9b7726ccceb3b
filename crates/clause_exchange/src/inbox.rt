//! A queue, and a pass to it.
ghost use Rattle.std.specs.Arc.{arc_value};
ghost use Rattle.crossbeam_queue.specs.Passes.{IsPassOf};

use crossbeam_queue::protocol::Protocol;
use crossbeam_queue::{Pass, RuledArrayQueue};
use prefix_jobs::Lemma;
use std::alloc::Global;
use std::sync::Arc;

/// A queue that posts share, and one post's pass to it.
#[derive(Drop)]
pub struct Inbox<V, P: Protocol<Lemma, V>> {
    pub(crate) queue: Arc<RuledArrayQueue<Lemma, V, P>, Global>,
    pub(crate) pass: Pass<Lemma, V>,
    ghost fits: { IsPassOf (arc_value queue) pass },
}
