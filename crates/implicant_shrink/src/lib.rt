//! Shrinking a model: the least level whose shown literals, with all hidden ones, meet each clause
//! of the formula. The shown literals up to it are the cube that is found.
//!
//! A flipped literal stays in, since the other side of it was searched before; a literal that a
//! lemma turned over may go. It rests on `clause_arena` for the clauses, on `chrono_trail` for what
//! is assigned, and on `search_region` for what a model is.
#![tactic(auto)]

mod levels;
mod pairs;
mod shrinker;
mod stateless;

pub use shrinker::Shrinker;
pub use stateless::{Shrunk, shrink};

#[cfg(test)]
mod tests;
