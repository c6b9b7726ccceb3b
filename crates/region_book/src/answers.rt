//! What the calls of a book answer.
use prefix_jobs::Number;
use sat_terms::Cube;

/// What `take` answers.
#[derive(Debug, Drop)]
pub enum Taken {
    /// The prefix is held from now on: this one.
    Held(Cube),
    /// No pending prefix that nobody holds has the number.
    Gone,
}

/// What `report` answers.
#[derive(Debug, Drop)]
pub struct Reported {
    /// The place of the report in the journal, counted from 1.
    pub place: u64,
    /// The number of the prefix that is kept, if one is.
    pub kept: Option<Number>,
    /// How many leaves were reported in all, up to 2^62, at which the number stands still.
    pub spent: u64,
}

/// What is left to be done.
#[derive(Debug, Drop)]
pub enum Progress {
    /// Nothing is pending.
    Finished,
    /// All that is pending is held; this is the lowest number of it.
    HeldByOthers(Number),
    /// The lowest number that nobody holds.
    Unheld(Number),
}
