//! Work on a book of prefixes: take one, search it by an engine, report what came of it.
//!
//! A sweep works alone on a book, until nothing is pending or an allowance of leaves is spent.
//! Workers work together on a ledger: each has an engine, a pass, a bench and a post of its own,
//! and takes prefixes by the tokens that others left, or by their numbers.
#![tactic(auto)]

mod allowance;
mod cutting;
mod ending;
mod fetching;
mod gate;
mod giving;
pub mod laws;
mod next;
mod stop;
mod sweeping;
mod worked;
mod worker;

pub use gate::{Gate, OpenGate, Point};
pub use stop::Stop;
pub use sweeping::{Swept, sweep};
pub use worked::Worked;
pub use worker::work;

#[cfg(test)]
mod examples;
#[cfg(test)]
mod tests;
#[cfg(test)]
mod worker_tests;
