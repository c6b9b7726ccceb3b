//! Names by their places, each of which mostly has a stretch of the whole order.
ghost use Rattle.std.specs.Prelude.{◌≡◌, ◌+◌, ◌≤◌, ◌++◌, [], length, vec_capacity};
ghost use Rattle.std.specs.Bool.{OnTrue};
ghost use Rattle.std.specs.List.Sorted.{IsPermutation, IsSorted};
ghost use Rattle.cube_merge.specs.Names.{name_order};
ghost use Rattle.cube_merge.specs.Parts.{part_lists, all_names};

use crate::ordering::{are_in_order, compare_names};
use crate::{CubeName, Shelf};
use std::cmp::Ordering;

/// Copies the names of all parts into a list with room for them, and puts whole places in order
/// there, if the names are not in order yet. Answers whether they are then.
pub(crate) fn gather_in_order<S: Shelf<CubeName>>(
    parts: &[Vec<CubeName>],
    all: &mut Vec<CubeName>,
    shelf: &S,
) -> bool
    requires empty { all.old.items ≡ [] }
    requires room { length (all_names (part_lists parts.now)) ≤ vec_capacity all.old }
    ensures same { IsPermutation (all_names (part_lists parts.now)) all.new.items }
    ensures sorted { OnTrue result (IsSorted (name_order (S.cube_of shelf.now)) all.new.items) }
    ensures capacity { vec_capacity all.new ≡ vec_capacity all.old }
{
    gather(parts, all);
    if are_in_order(all, shelf) {
        return true;
    }
    put_places_in_order(all, shelf);
    are_in_order(all, shelf)
}

/// Copies the names of all parts behind those of a list with room for them.
fn gather(parts: &[Vec<CubeName>], all: &mut Vec<CubeName>)
    requires { length all.old.items + length (all_names (part_lists parts.now))
        ≤ vec_capacity all.old }
    ensures gathered { all.new.items ≡ all.old.items ++ all_names (part_lists parts.now) }
    ensures capacity { vec_capacity all.new ≡ vec_capacity all.old }
{
    for at in 0..parts.len() {
        add_copies(&parts[at], all);
    }
}

/// Copies these names behind those of a list with room for them.
fn add_copies(names: &[CubeName], all: &mut Vec<CubeName>)
    requires { length all.old.items + length names.now ≤ vec_capacity all.old }
    ensures added { all.new.items ≡ all.old.items ++ names.now }
    ensures capacity { vec_capacity all.new ≡ vec_capacity all.old }
{
    for at in 0..names.len() {
        all.push_reserved(names[at]);
    }
}

/// Brings the names of each place together, in the order of their indices, and the places into the
/// order of their first cubes. That is all there is to do where the cubes of each place are in
/// order, and none of another place is between them. Most comparisons look at no cube.
fn put_places_in_order<S: Shelf<CubeName>>(names: &mut Vec<CubeName>, shelf: &S)
    ensures same { IsPermutation names.old.items names.new.items }
    ensures capacity { vec_capacity names.new ≡ vec_capacity names.old }
{
    names.sort_unstable_by(|a, b| compare_by_place(*a, *b, shelf));
}

/// Compares names of one place by their indices, and those of two by the first cubes there.
fn compare_by_place<S: Shelf<CubeName>>(a: CubeName, b: CubeName, shelf: &S) -> Ordering {
    if a.place == b.place {
        a.index.cmp(&b.index)
    } else {
        compare_names(first_of(a), first_of(b), shelf).then(a.place.cmp(&b.place))
    }
}

/// The name of the first cube where this one stands.
fn first_of(name: CubeName) -> CubeName {
    CubeName {
        place: name.place,
        index: 0,
    }
}
