//! A literal's place in a table of all literals, which is also its key in the order of cubes.
ghost use Rattle.std.specs.Prelude.{◌≡◌};
ghost use Rattle.sat_terms.specs.CubeOrder.{key};

/// The place of a literal in a table that has one for each literal: 2v for -v, and 2v + 1 for v. A
/// table for the variables 0 to n has 2n + 2 places.
pub fn place_of(lit: i32) -> usize
    ensures { result ≡ key lit }
{
    let double = 2 * lit.unsigned_abs() as usize;
    if lit < 0 { double } else { double + 1 }
}
