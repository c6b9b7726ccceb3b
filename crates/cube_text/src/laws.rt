//! What the bytes of a listing tell: the contracts are the laws, and the bodies are empty.
ghost use Rattle.std.specs.Prelude.{List, ℤ};
ghost use Rattle.cube_text.specs.Laws.{TellsTheCubes};

/// Different lists of cubes have different listings.
pub fn a_listing_tells_its_cubes()
    ensures { (cubes others : List (List ℤ)) → TellsTheCubes cubes others }
{}
