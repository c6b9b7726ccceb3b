//! Found cubes in parts, each cube named by where it stands, and the one list of them in order.
//!
//! Only here are names of cubes ordered. Parts are filled as cubes are found, and all memory is
//! taken then; at the end each part is brought into order, if it is not in order yet, and the
//! parts are merged. No cube is copied: a shelf shows the literals of a name.
#![tactic(auto)]

mod merging;
mod name;
mod ordering;
mod places;
mod runs;
mod shelf;

pub use name::CubeName;
pub use ordering::put_in_order;
pub use runs::Runs;
pub use shelf::Shelf;

#[cfg(test)]
mod tests;
