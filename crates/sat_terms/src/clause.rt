//! A clause: a list of literals, as it was written.
ghost use Rattle.std.specs.Prelude.{◌≡◌, IfOk};
ghost use Rattle.std.specs.List.{All};
ghost use Rattle.sat_terms.specs.Literals.{IsLiteral};

use std::alloc::{AllocError, Global};
use std::marker::Model;

/// A list of literals, of which one has to be true. Repeated literals and pairs `l`, `-l` are kept
/// as written; the clause without literals is false everywhere.
#[derive(Debug, Drop)]
pub struct Clause(Vec<i32>);

impl Model for Clause {
    ghost use Rattle.std.specs.Prelude.{List, ℤ};
    ghost use Rattle.std.specs.List.{All};
    ghost use Rattle.sat_terms.specs.Literals.{IsLiteral};

    ghost Value = { List ℤ };

    ghost view = { λ clause. clause.0.items };

    ghost invariant = { λ clause. All IsLiteral clause.0.items };
}

impl Clause {
    /// A clause of just these literals.
    pub fn from_lits(alloc: Global, lits: &[i32]) -> Result<Clause, AllocError>
        requires { All IsLiteral lits.now }
        ensures { IfOk result (λ clause. clause ≡ lits.now) }
    {
        Ok(Clause(lits.to_vec(alloc)?))
    }

    /// Takes the vector over, without memory.
    pub fn from_vec(lits: Vec<i32>) -> Clause
        requires { All IsLiteral lits.items }
        ensures { result ≡ lits.items }
    {
        Clause(lits)
    }

    /// The literals, in the order in which they were written.
    pub fn lits(&self) -> &[i32]
        ensures same { result.now ≡ self.now }
        ensures literals { All IsLiteral self.now }
    {
        self.0.as_slice()
    }
}
