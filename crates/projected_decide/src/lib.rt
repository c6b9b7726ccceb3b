//! Decisions of a projected search: the lowest unassigned shown variable, false; and only once each
//! shown variable is assigned, the lowest unassigned hidden one.
//!
//! All variables stand in one list in this order. A place in it moves on past assigned variables,
//! and back where one is put back, so that a walk along the trail and back looks at each variable
//! about once.
//!
//! It rests on `chrono_trail` for what is assigned.
#![tactic(auto)]

pub mod laws;
mod making;
mod order;

pub use making::marks_of;
pub use order::Order;

#[cfg(test)]
mod tests;
