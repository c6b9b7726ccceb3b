//! The posts of some workers, made together.
ghost use Rattle.std.specs.Prelude.{◌≡◌, ◌<◌, ◌≤◌, ◌++◌, length, map, slice_range, IfOk, OnOk};
ghost use Rattle.std.specs.List.{All};
ghost use Rattle.clause_exchange.specs.Posts.{address_of, addresses_of, new_address, other_addresses, queue_id, queue_ids, IsPostAt, IsExchange};

use crate::inbox::Inbox;
use crate::mail::{Anything, Mail};
use crate::post::Post;
use crossbeam_queue::RuledArrayQueue;
use prefix_jobs::Lemma;
use std::alloc::{AllocError, Global};
use std::sync::Arc;

/// So many lemmas a queue has room for.
const ROOM: usize = 256;

type Queue = RuledArrayQueue<Lemma, Mail, Anything>;

/// The posts of some workers.
pub struct Exchange;

impl Exchange {
    /// A post for each worker, with a queue of 256 lemmas. Nothing was sent.
    pub fn make(alloc: Global, workers: u32) -> Result<Vec<Post>, AllocError>
        requires some { 1 ≤ workers }
        requires few { workers ≤ 16 }
        ensures count { IfOk result (λ posts. length posts.items ≡ workers) }
        ensures exchange { IfOk result (λ posts. IsExchange posts.items) }
    {
        let queues = make_queues(alloc, workers as usize)?;
        make_posts(alloc, queues.as_slice())
    }
}

/// So many queues, which are empty.
fn make_queues(alloc: Global, count: usize) -> Result<Vec<Arc<Queue, Global>>, AllocError>
    ensures count { IfOk result (λ queues. length queues.items ≡ count) }
    ensures room { IfOk result (λ queues. All (λ d. d.slots ≡ 256) (queue_ids queues.items)) }
{
    let mut queues = Vec::new(alloc);
    for _ in 0..count {
        let (queue, _) = Queue::ruled(alloc, ROOM)?;
        queues.push(Arc::new(alloc, queue)?)?;
    }
    Ok(queues)
}

/// A post at each of these queues.
fn make_posts(alloc: Global, queues: &[Arc<Queue, Global>]) -> Result<Vec<Post>, AllocError>
    requires { All (λ d. d.slots ≡ 256) (queue_ids queues.now) }
    ensures count { IfOk result (λ posts. length posts.items ≡ length queues.now) }
    ensures exchange { IfOk result (λ posts. IsExchange posts.items) }
{
    let mut posts = Vec::new(alloc);
    for place in 0..queues.len() {
        posts.push(post_at(alloc, queues, place)?)?;
    }
    Ok(posts)
}

/// The post that fetches from the queue at this place, and offers to those after it and then to
/// those before it.
fn post_at(alloc: Global, queues: &[Arc<Queue, Global>], place: usize) -> Result<Post, AllocError>
    requires { place < length queues.now }
    ensures { IfOk result (λ post. IsPostAt place (queue_ids queues.now) post) }
{
    let own = address(&queues[place])?;
    let others = address_others(alloc, queues, place)?;
    Ok(Post { own, others })
}

/// A new pass to each queue after this place, and then to each before it.
fn address_others(
    alloc: Global,
    queues: &[Arc<Queue, Global>],
    place: usize,
) -> Result<Vec<Inbox<Mail, Anything>>, AllocError>
    requires { place < length queues.now }
    ensures { IfOk result
        (λ others. addresses_of others.items ≡ other_addresses place (queue_ids queues.now)) }
{
    let mut others = Vec::new(alloc);
    address_range(queues, place + 1, queues.len(), &mut others)?;
    address_range(queues, 0, place, &mut others)?;
    Ok(others)
}

/// A new pass to the queue.
fn address(queue: &Arc<Queue, Global>) -> Result<Inbox<Mail, Anything>, AllocError>
    ensures { IfOk result (λ inbox. address_of inbox ≡ new_address (queue_id queue.now)) }
{
    let queue = Arc::try_clone(queue)?;
    let pass = queue.pass();
    Ok(Inbox { queue, pass })
}

/// Adds a pass to each queue of a range.
fn address_range(
    queues: &[Arc<Queue, Global>],
    from: usize,
    to: usize,
    others: &mut Vec<Inbox<Mail, Anything>>,
) -> Result<(), AllocError>
    requires order { from ≤ to }
    requires within { to ≤ length queues.now }
    ensures { OnOk result (addresses_of others.new.items ≡ addresses_of others.old.items
        ++ map new_address (slice_range (queue_ids queues.now) from to)) }
{
    for place in from..to {
        others.push(address(&queues[place])?)?;
    }
    Ok(())
}
