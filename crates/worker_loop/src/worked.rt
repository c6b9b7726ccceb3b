//! How a worker ends.
use std::alloc::AllocError;

/// How a worker ended.
#[derive(Clone, Copy, Debug, Drop)]
pub enum Worked {
    /// Nothing is pending.
    Finished,
    /// As many leaves are spent as the budget has.
    BudgetSpent,
    /// There was no memory. The other workers go on.
    OutOfMemory(AllocError),
}
