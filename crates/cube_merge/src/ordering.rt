//! Names in the order of their cubes.
ghost use Rattle.std.specs.Prelude.{◌≡◌, vec_capacity};
ghost use Rattle.std.specs.Bool.{OnTrue};
ghost use Rattle.std.specs.List.Sorted.{IsPermutation, IsSorted};
ghost use Rattle.sat_terms.specs.CubeOrder.{cube_order};
ghost use Rattle.cube_merge.specs.Names.{name_order};

use crate::Shelf;
use cube_text::shared_front;
use sat_terms::compare;
use std::cmp::Ordering;

/// Brings names into the order of their cubes, each as often as before. Names that are in order
/// already, as most are, take one look at each. It takes no memory.
pub fn put_in_order<N: Copy, S: Shelf<N>>(names: &mut Vec<N>, shelf: &S)
    ensures same { IsPermutation names.old.items names.new.items }
    ensures sorted { IsSorted (name_order (S.cube_of shelf.now)) names.new.items }
    ensures capacity { vec_capacity names.new ≡ vec_capacity names.old }
{
    if !are_in_order(names, shelf) {
        sort_names(names, shelf);
    }
}

/// Whether the names are in order. One walk, up to the first two that are not.
pub(crate) fn are_in_order<N: Copy, S: Shelf<N>>(names: &[N], shelf: &S) -> bool
    ensures { OnTrue result (IsSorted (name_order (S.cube_of shelf.now)) names.now) }
{
    names.is_sorted_by(|a, b| !compare_names(*b, *a, shelf).is_lt())
}

/// Sorts names by their cubes.
fn sort_names<N: Copy, S: Shelf<N>>(names: &mut Vec<N>, shelf: &S)
    ensures same { IsPermutation names.old.items names.new.items }
    ensures sorted { IsSorted (name_order (S.cube_of shelf.now)) names.new.items }
    ensures capacity { vec_capacity names.new ≡ vec_capacity names.old }
{
    names.sort_unstable_by(|a, b| compare_names(*a, *b, shelf));
}

/// Compares two names by their cubes.
pub(crate) fn compare_names<N, S: Shelf<N>>(a: N, b: N, shelf: &S) -> Ordering
    ensures { result ≡ name_order (S.cube_of shelf.now) a b }
{
    compare_past_front(shelf.lits_of(a), shelf.lits_of(b))
}

/// Compares two cubes as `compare` does. What both begin with, which is most of two neighbours in
/// the order, takes one look a literal.
fn compare_past_front(c: &[i32], d: &[i32]) -> Ordering
    ensures { result ≡ cube_order c.now d.now }
{
    let shared = shared_front(c, d);
    compare(&c[shared..], &d[shared..])
}
