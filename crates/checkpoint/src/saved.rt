//! The state of a stopped run.
use sat_terms::{Cube, Items};

/// The cubes that were found, and the prefixes whose search is pending, each in the order in which
/// they were read or found.
#[derive(Debug, Drop)]
pub struct Saved {
    pub cubes: Items<Cube>,
    pub pending: Items<Cube>,
}
