//! The engine: one job at a time, a prefix of the shown variables, searched leaf by leaf.
//!
//! Depth first, by chronological backtracking without blocking clauses (Spallitta, Sebastiani and
//! Biere, Disjoint Partial Enumeration without Blocking Clauses, AAAI 2024). Each call for a leaf
//! goes on where the last one came to: it propagates, decides the lowest free variable, shown ones
//! first, and flips the decision of a conflict or of a model. A flip of a hidden decision is no
//! leaf. A job can be ended between two leaves; what it found and what is left open then fit its
//! prefix.
//!
//! What a move keeps is proved over lists, in `search_region` and `search_job`; here the code is
//! shown to make these moves.
#![tactic(auto)]

mod deciding;
mod engine;
mod exposing;
mod finding;
mod flipping;
mod giving;
mod importing;
mod learning;
mod search;
mod starting;

pub use engine::Engine;
pub use search::Leaf;
