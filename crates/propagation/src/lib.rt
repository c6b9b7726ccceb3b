//! Unit propagation: what the clauses imply under a trail, or a clause that is false.
//!
//! For each literal that became false it walks the list of the clauses that watch it. Each implied
//! literal stands on its true level, the greatest level of the other literals of its clause, so
//! that it survives where levels above that are taken back (Nadel and Ryvchin, Chronological
//! Backtracking, SAT 2018).
//!
//! It rests on `clause_arena` for the clauses, on `watch_lists` for the lists, and on
//! `chrono_trail` for the trail.
#![tactic(auto)]

pub mod laws;
mod propagator;
mod replacing;
mod short;
mod unseeing;
mod values;
mod walking;

pub use propagator::{Propagated, Propagator};

#[cfg(test)]
mod random;
#[cfg(test)]
mod table;
#[cfg(test)]
mod tests;
