//! The name of a cube.
ghost use Rattle.std.specs.Prelude.{◌≡◌, ◌+◌, ◌≤◌, ◌++◌, length, vec_capacity};
ghost use Rattle.cube_merge.specs.Names.{names_from};

/// Which cube of those that stand at a place. What the places are is for the shelf to say.
#[derive(Clone, Copy, Debug, PartialEq, Eq)]
pub struct CubeName {
    pub place: usize,
    pub index: usize,
}

/// Adds the names of so many cubes of a place, where there is room for them.
pub(crate) fn add_names(names: &mut Vec<CubeName>, place: usize, count: usize)
    requires { length names.old.items + count ≤ vec_capacity names.old }
    ensures { names.new.items ≡ names.old.items ++ names_from place 0 count }
{
    for index in 0..count {
        names.push_reserved(CubeName { place, index });
    }
}
