//! The clauses of a formula and the lemmas learnt beside them, flat in memory: one vector of
//! literals, and one of the places at which the clauses end.
//!
//! It rests on the terms of `sat_terms` alone. A clause is known by its id, its place in the list.
#![tactic(auto)]

mod appending;
mod arena;
mod dropping;
pub mod laws;

pub use arena::Arena;

#[cfg(test)]
mod tests;
