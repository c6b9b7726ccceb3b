//! A value that threads use one after another, with one history.
//!
//! A `TurnCell` holds one journalled value, and is made with some passes. Who has a pass can take a
//! turn: it waits until the value is free, is lent it, may add one entry to its journal, and puts
//! it back. Each pass knows, in its contract, that the journal begins with all that it had seen and
//! holds exactly its own entries. It rests on `atomic_table` alone, whose three words and one slot
//! are the whole state that threads share.
#![tactic(auto)]

mod cell;
mod journal;
mod pass;
mod rule;
mod steps;
#[cfg(test)]
mod tests;

pub use cell::TurnCell;
pub use journal::{Act, Journalled};
pub use pass::Pass;
