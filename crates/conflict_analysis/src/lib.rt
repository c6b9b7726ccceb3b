//! Conflict analysis: the clause that a conflict teaches.
//!
//! Resolution goes from the false clause back through reasons, newest item first, until only
//! literals without a reason are left (Marques-Silva and Sakallah, GRASP, IEEE Transactions on
//! Computers 1999). Where levels do not rise along the trail, the order of the items is still one
//! in which each reason stands behind the items that it needs, so one walk is enough.
//!
//! It rests on `clause_arena` for the clauses and on `chrono_trail` for the trail, and changes
//! neither.
#![tactic(auto)]

mod analyser;
pub mod laws;
mod marks;
mod walk;

pub use analyser::{Analyser, Learnt};

#[cfg(test)]
mod tests;
