//! The terms of the subject: literals, clauses, formulas, cubes and their order.
//!
//! Every other crate speaks in these terms. A literal is an `i32` other than 0 and `i32::MIN`,
//! whose variable is `|l|`; variables are `u32` from 1 on.
#![tactic(auto)]

mod clause;
mod cube;
mod cube_list;
mod items;
pub mod laws;
mod literal;
mod pairs;
mod relations;
mod subject;

pub use clause::Clause;
pub use cube::{Cube, CubeRefused, is_shown};
pub use cube_list::CubeList;
pub use items::Items;
pub use literal::place_of;
pub use pairs::PairFinder;
pub use relations::{apart, compare, within};
pub use subject::{Formula, Subject};

#[cfg(test)]
mod tests;
