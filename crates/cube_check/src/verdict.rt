//! What the check of a listing answers.

/// The answer of a check. Places count from 1.
#[derive(Clone, Copy, Debug, Drop, PartialEq, Eq)]
pub enum Verdict {
    /// Each clause is met by each cube with its hidden literals, and any two cubes are apart.
    Right,
    /// The lowest cube that does not meet each clause, and the lowest clause that it does not meet.
    NotMet { cube: usize, clause: usize },
    /// The lowest cube that some later one is not apart from, and the lowest such one.
    Overlap { first: usize, second: usize },
}
