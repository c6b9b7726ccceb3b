//! The check of a listing: whether each of its cubes holds good assignments alone, and whether any
//! two of them are apart.
//!
//! With each cube come literals of hidden variables that make, together with it, each clause true.
//! So no search is needed. Nothing is said of the assignments outside of the cubes.
#![tactic(auto)]

mod check;
pub mod laws;
mod marks;
mod met;
mod misses;
mod overlaps;
mod runs;
mod verdict;
mod verdict_text;

pub use check::check_listing;
pub use met::Met;
pub use verdict::Verdict;
pub use verdict_text::write_verdict;

#[cfg(test)]
mod tests;
