//! Posts by which workers send each other lemmas.
//!
//! Each worker has a post: a bounded queue of its own, from which it fetches, and passes to the
//! queues of all others, to which it offers. Nothing is claimed of what arrives: who fetches a
//! lemma has to check it.
#![tactic(auto)]

mod exchange;
mod inbox;
mod mail;
mod post;
mod sending;

pub use exchange::Exchange;
pub use mail::Mail;
pub use post::Post;

#[cfg(test)]
mod tests;
