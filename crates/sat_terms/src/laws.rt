//! The laws that the definitions keep. Each function does nothing; its contract is the law, proved.
ghost use Rattle.std.specs.Prelude.{ℕ, List, ℤ};
ghost use Rattle.sat_terms.specs.Laws.{ApartIsDisjoint, WithinIsInside, OrdersCubes};
ghost use Rattle.sat_terms.specs.Laws.{HoldsEachOnce, HoldOneSet};

/// Two cubes are apart exactly if no projected assignment lies in both.
pub fn apart_cubes_share_nothing()
    ensures { (p : List ℕ) (c d : List ℤ) → ApartIsDisjoint p c d }
{}

/// A cube is within another exactly if each assignment in it is in the other.
pub fn within_is_inside()
    ensures { (p : List ℕ) (c q : List ℤ) → WithinIsInside p c q }
{}

/// The order of cubes is total, and its equality is equality of cubes.
pub fn cubes_are_ordered()
    ensures { OrdersCubes }
{}

/// A right list holds each wanted assignment in exactly one cube.
pub fn right_lists_hold_each_once()
    ensures { (f : List (List ℤ)) (p : List ℕ) (u : List ℤ) (cubes : List (List ℤ)) →
        HoldsEachOnce f p u cubes }
{}

/// Two right lists of one formula, one list of shown variables and the same given literals hold the
/// same assignments.
pub fn right_lists_hold_one_set()
    ensures { (f : List (List ℤ)) (p : List ℕ) (u : List ℤ) (cubes others : List (List ℤ)) →
        HoldOneSet f p u cubes others }
{}
