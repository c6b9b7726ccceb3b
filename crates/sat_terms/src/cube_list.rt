//! A list of cubes, however it is kept.
ghost use Rattle.std.specs.Prelude.{◌≡◌, ℕ, ◌<◌, List, [], ℤ, length, slice_index_or};

use crate::{Cube, Items};

/// A list of cubes that can be read place by place.
pub trait CubeList {
    /// The cubes, in order.
    ghost cubes: { Self → List (List ℤ) };

    /// How many cubes there are.
    fn count(&self) -> usize
        ensures { result ≡ length (cubes self.now) };

    /// The literals of the cube at a place, counted from 0. Constant time.
    fn at(&self, i: usize) -> &[i32]
        requires { i < length (cubes self.now) }
        ensures { result.now ≡ slice_index_or (cubes self.now) i [] };
}

impl CubeList for Items<Cube> {
    ghost cubes = { λ cubes. cubes };

    fn count(&self) -> usize {
        self.as_slice().len()
    }

    fn at(&self, i: usize) -> &[i32] {
        self.as_slice()[i].lits()
    }
}
