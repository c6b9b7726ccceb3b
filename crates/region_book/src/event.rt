//! The events of a book.
use prefix_jobs::{Number, Outcome};

/// One entry of the journal: what the pass of this number did with the prefix of that number.
#[derive(Debug, Drop)]
pub enum Event {
    /// It took the prefix, and holds it from now on.
    Take {
        pass: u32,
        number: Number,
    },
    /// It reported what the search of the prefix came to.
    Report {
        pass: u32,
        number: Number,
        outcome: Outcome,
    },
    /// It gave the prefix back.
    Release {
        pass: u32,
        number: Number,
    },
}
