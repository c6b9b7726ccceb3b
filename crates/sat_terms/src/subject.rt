//! A formula, and the variables of it that are shown.
use crate::{Clause, Cube, Items};

/// A formula over the variables 1 to `variables`: each of its clauses has to be true.
#[derive(Debug, Drop)]
pub struct Formula {
    pub variables: u32,
    pub clauses: Items<Clause>,
}

/// What is to be enumerated: a formula, the variables on which its models are projected, rising,
/// and the given literals, a cube over these variables: models outside of it are not wanted.
#[derive(Debug, Drop)]
pub struct Subject {
    pub formula: Formula,
    pub shown: Items<u32>,
    pub under: Cube,
}
