//! What a job of the search gives back, and the numbers and tokens by which workers hold prefixes.
//!
//! A job searches one prefix. Its outcome has the cubes that it found, and the prefixes that are
//! still to be searched.
#![tactic(auto)]

pub mod laws;
mod lemma;
mod number;
mod outcome;

pub use lemma::Lemma;
pub use number::{Number, Token};
pub use outcome::Outcome;

#[cfg(test)]
mod tests;
