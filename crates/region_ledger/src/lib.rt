//! A book that workers share: each call of it is one turn, and all turns have one history.
//!
//! A `Ledger` holds a book, and is made with the passes of the book. Who has a pass may take,
//! report and release prefixes under its number. What a pass holds is read off what it has seen:
//! the events of others leave it, so it need not know them. A turn lasts for one call of the book.
#![tactic(auto)]

mod acts;
mod ledger;
mod turned;

pub use ledger::{Ledger, Pass};
pub use turned::Turned;

#[cfg(test)]
mod tests;
