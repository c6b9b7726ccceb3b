//! One cube of a listing, with what shows that it is right.
use sat_terms::Cube;

/// A cube over shown variables, and literals of hidden ones, variables rising in each. Where these
/// hidden literals are true together with the cube, so is each clause: that is what is checked.
#[derive(Debug, Drop)]
pub struct Met {
    pub cube: Cube,
    pub hidden: Cube,
}
