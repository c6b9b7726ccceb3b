//! Where named cubes stand.
ghost use Rattle.std.specs.Prelude.{◌≡◌, List, ℤ};

/// A shelf has a cube for each name of the type `N`.
pub trait Shelf<N> {
    /// The cube of a name.
    ghost cube_of: { Self → N → List ℤ };

    /// The literals of the cube of a name. Constant time.
    fn lits_of(&self, name: N) -> &[i32]
        ensures { result.now ≡ cube_of self.now name };
}
