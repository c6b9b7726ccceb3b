//! What a job gives back.
use sat_terms::{Cube, Items};

/// The outcome of a job that searched a prefix.
#[derive(Debug, Drop)]
pub struct Outcome {
    /// The cubes found. Each assignment in one of them is good.
    pub cubes: Items<Cube>,
    /// The prefixes that are still to be searched by others.
    pub rest: Items<Cube>,
    /// The prefix that the job goes on with, if it does.
    pub kept: Option<Cube>,
    /// How many leaves of the search the job counted, up to 2^62, at which it stands still. They
    /// are a budget's measure: what fits bounds them from above alone.
    pub leaves: u64,
}
