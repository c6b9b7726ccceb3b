//! A cube: literals of shown variables, whose variables rise.
ghost use Rattle.std.specs.Prelude.{◌≡◌, true, IfOk};
ghost use Rattle.std.specs.List.{All};
ghost use Rattle.std.specs.List.Sorted.{IsStrictlyIncreasing};
ghost use Rattle.sat_terms.specs.Literals.{IsLiteral};
ghost use Rattle.sat_terms.specs.Cubes.{is_among, rises_above};
ghost use Rattle.sat_terms.specs.Refusals.{GivesCube, JudgesCube};
ghost use Rattle.sat_terms.specs.Subjects.{IsVariableList};

use std::alloc::{AllocError, Global};
use std::marker::Model;

/// A list of literals with rising variables: the partial assignment in which just these are true.
/// The empty cube holds every assignment.
#[derive(Debug, Drop)]
pub struct Cube(Vec<i32>);

impl Model for Cube {
    ghost use Rattle.std.specs.Prelude.{◌≡◌, true, List, ℤ};
    ghost use Rattle.std.specs.List.{All};
    ghost use Rattle.sat_terms.specs.Literals.{IsLiteral};
    ghost use Rattle.sat_terms.specs.Cubes.{rises_above};

    ghost Value = { List ℤ };

    ghost view = { λ cube. cube.0.items };

    ghost invariant = { λ cube. (rises_above 0 cube.0.items ≡ true) × All IsLiteral cube.0.items };
}

/// Why a list of literals is no cube over the shown variables. The number is a place in the list,
/// counted from 0: the first at which the list fails.
#[derive(Debug, Drop)]
pub enum CubeRefused {
    /// The literal at this place is 0, or its variable isn't shown.
    NotShown(usize),
    /// The variable at this place isn't greater than the one before.
    NotRising(usize),
    /// There was no memory for the cube.
    OutOfMemory(AllocError),
}

impl Cube {
    /// The cube of these literals, which have to be literals of `shown` with rising variables.
    /// Takes one search of `shown` by halves for each literal.
    pub fn from_lits(alloc: Global, lits: &[i32], shown: &[u32]) -> Result<Cube, CubeRefused>
        requires { IsVariableList shown.now }
        ensures { GivesCube shown.now lits.now result }
    {
        if let Some(refused) = refusal(lits, shown) {
            return Err(refused);
        }
        match lits.to_vec(alloc) {
            Ok(kept) => Ok(Cube(kept)),
            Err(error) => Err(CubeRefused::OutOfMemory(error)),
        }
    }

    /// Takes over a vector that holds a cube, without memory.
    pub fn from_vec(lits: Vec<i32>) -> Cube
        requires rising { rises_above 0 lits.items ≡ true }
        requires literals { All IsLiteral lits.items }
        ensures { result ≡ lits.items }
    {
        Cube(lits)
    }

    /// The same cube once more, in memory of its own.
    pub fn copy(&self, alloc: Global) -> Result<Cube, AllocError>
        ensures { IfOk result (λ cube. cube ≡ self.now) }
    {
        Ok(Cube(self.0.as_slice().to_vec(alloc)?))
    }

    /// The literals, variables rising.
    pub fn lits(&self) -> &[i32]
        ensures same { result.now ≡ self.now }
        ensures rising { rises_above 0 self.now ≡ true }
        ensures literals { All IsLiteral self.now }
    {
        self.0.as_slice()
    }
}

/// Whether a variable is one of these, which rise. It is looked for by halves.
pub fn is_shown(shown: &[u32], variable: u32) -> bool
    requires { IsStrictlyIncreasing shown.now }
    ensures { result ≡ is_among shown.now variable }
{
    shown.binary_search(&variable).is_ok()
}

/// The refusal of the first place at which the literals are no cube over `shown`, if there is one.
fn refusal(lits: &[i32], shown: &[u32]) -> Option<CubeRefused>
    requires { IsVariableList shown.now }
    ensures { JudgesCube shown.now lits.now result }
{
    let mut previous = 0;
    for (place, lit) in lits.iter().enumerate() {
        let variable = lit.unsigned_abs();
        if !is_shown(shown, variable) {
            return Some(CubeRefused::NotShown(place));
        }
        if variable <= previous {
            return Some(CubeRefused::NotRising(place));
        }
        previous = variable;
    }
    None
}
