//! The drill: a formula of each size, made from a number, and what all cubes of a listing hold.
//!
//! Its clauses, row by row, are in `specs/Drills.antt`.
#![tactic(auto)]

pub mod laws;
mod rows;
mod summary;

pub use rows::drill_subject;
pub use summary::write_summary;

#[cfg(test)]
mod tests;
