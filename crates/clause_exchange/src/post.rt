//! A post: the queue of one worker, and its passes to the queues of the others.
ghost use Rattle.std.specs.Prelude.{◌≡◌, IfSome, IfNone};
ghost use Rattle.clause_exchange.specs.Posts.{addresses_of, post_with_fetched, AreOffered, IsOffered};

use crate::inbox::Inbox;
use crate::mail::{Anything, Fetching, Mail, Sending};
use crate::sending::{fetch_oldest, offer_once};
use prefix_jobs::Lemma;
use std::marker::Model;
use std::sync::Wait;

/// The post of one worker. Contracts see its queue, what its worker fetched there, and what it sent
/// to each other queue.
#[derive(Drop)]
pub struct Post {
    pub(crate) own: Inbox<Mail, Anything>,
    pub(crate) others: Vec<Inbox<Mail, Anything>>,
}

impl Model for Post {
    ghost use Rattle.clause_exchange.specs.Posts.{PostView, post_view};

    ghost Value = { PostView };

    ghost view = { λ p. post_view p.own p.others.items };
}

impl Post {
    /// Offers the lemma to each other post, once. It waits for nobody: a post whose queue is full,
    /// or where another call is in the way, is passed over.
    pub fn offer(&mut self, lemma: Lemma)
        ensures { IsOffered lemma self.old self.new }
    {
        offer_each(self.others.as_mut_slice(), lemma);
    }

    /// The lemma that has lain in its own queue longest. None comes only where the queue was empty
    /// at a moment of the call.
    pub fn fetch<R: Wait>(&mut self, rt: &R) -> Option<Lemma>
        ensures fetched { IfSome result (λ l. self.new ≡ post_with_fetched self.old l) }
        ensures unchanged { IfNone result (self.new ≡ self.old) }
    {
        fetch_oldest::<R, Mail, Anything, Fetching>(rt, &mut self.own)
    }
}

/// Offers the lemma to each of these queues, once.
fn offer_each(others: &mut [Inbox<Mail, Anything>], lemma: Lemma)
    ensures { AreOffered lemma (addresses_of others.old) (addresses_of others.new) }
{
    for place in 0..others.len() {
        offer_once::<Mail, Anything, Sending>(&mut others[place], lemma);
    }
}
