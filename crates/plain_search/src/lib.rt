//! The plain lister: every cube of a formula's solutions, by the simplest search that is right.
//!
//! Depth first: propagate by scanning all clauses, decide the lowest variable that is free, shown
//! ones first, and flip the newest decision that is still to be flipped. A model is shrunk to the
//! least level that its clauses need, so that one cube stands for many assignments. It learns
//! nothing and keeps no watches; it is the measure for every faster search.
//!
//! The rules are those of chronological backtracking without blocking clauses (Spallitta,
//! Sebastiani and Biere, Disjoint Partial Enumeration without Blocking Clauses, AAAI 2024), with
//! each implied literal on the level at which it was implied. The trail is that of `chrono_trail`.
//! What a move keeps is proved in `search_region`, over lists; here the code is shown to make these
//! moves.
#![tactic(auto)]

#[cfg(test)]
mod checked;
mod decide;
mod flip;
mod pairs;
#[cfg(test)]
mod projection_tests;
mod propagate;
mod search;
mod shrink;
#[cfg(test)]
mod tests;

pub use search::enumerate_plain;
