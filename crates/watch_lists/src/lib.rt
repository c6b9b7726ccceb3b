//! The lists of watched literals: for each literal the clauses that watch it.
//!
//! A clause of two or more literals watches two of them, at first its first two. The lists are
//! linked both ways by their places in one vector, so that a watch moves in constant time and
//! without memory.
#![tactic(auto)]

pub mod laws;
mod nodes;
mod watch;
mod watches;

pub use watch::Watch;
pub use watches::Watches;

#[cfg(test)]
mod tests;
