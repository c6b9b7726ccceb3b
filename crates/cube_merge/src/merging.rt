//! Parts in order, merged from behind: the greatest of their last names comes off first.
ghost use Rattle.std.specs.Prelude.{◌≡◌, ◌≢◌, ◌+◌, ◌<◌, ◌≤◌, ◌++◌, [], ◌∷◌, List, length, vec_capacity};
ghost use Rattle.std.specs.Prelude.{slice_index_or, slice_set};
ghost use Rattle.std.specs.List.Sorted.{IsPermutation, IsSorted};
ghost use Rattle.cube_merge.specs.declared.name.CubeName.{CubeName};
ghost use Rattle.cube_merge.specs.Names.{name_order};
ghost use Rattle.cube_merge.specs.Parts.{part_lists, all_names, AreInOrder, IsGreatestLast, greater_of};
ghost use Rattle.cube_merge.specs.Parts.{falls};

use crate::ordering::{compare_names, put_in_order};
use crate::{CubeName, Shelf};

/// Brings each part into order.
pub(crate) fn put_parts_in_order<S: Shelf<CubeName>>(parts: &mut Vec<Vec<CubeName>>, shelf: &S)
    ensures same { IsPermutation (all_names (part_lists parts.old.items))
        (all_names (part_lists parts.new.items)) }
    ensures sorted { AreInOrder (S.cube_of shelf.now) (part_lists parts.new.items) }
{
    for at in 0..parts.len() {
        put_in_order(&mut parts[at], shelf);
    }
}

/// Moves all names of the parts, each of which is in order, into a list with room for them, the
/// greatest first.
pub(crate) fn merge<S: Shelf<CubeName>>(
    parts: &mut Vec<Vec<CubeName>>,
    merged: &mut Vec<CubeName>,
    shelf: &S,
)
    requires empty { merged.old.items ≡ [] }
    requires room { length (all_names (part_lists parts.old.items)) ≤ vec_capacity merged.old }
    requires sorted { AreInOrder (S.cube_of shelf.now) (part_lists parts.old.items) }
    ensures same { IsPermutation (all_names (part_lists parts.old.items)) merged.new.items }
    ensures sorted { IsSorted (falls (S.cube_of shelf.now)) merged.new.items }
{
    while let Some(at) = greatest_last(parts, shelf) {
        merged.push_reserved(take_last(parts, at));
    }
}

/// The part whose last name has the greatest cube of all last names. None where all are empty.
fn greatest_last<S: Shelf<CubeName>>(parts: &[Vec<CubeName>], shelf: &S) -> Option<usize>
    ensures { IsGreatestLast (S.cube_of shelf.now) (part_lists parts.now) result }
{
    let mut greatest = None;
    for (at, part) in parts.iter().enumerate() {
        if let Some(last) = part.last() {
            greatest = Some(greater(greatest, (at, *last), shelf));
        }
    }
    let (at, _) = greatest?;
    Some(at)
}

/// The one of two parts whose last name, beside it, has the greater cube; the second where there
/// is no first.
fn greater<S: Shelf<CubeName>>(
    one: Option<(usize, CubeName)>,
    other: (usize, CubeName),
    shelf: &S,
) -> (usize, CubeName)
    ensures { result ≡ greater_of (S.cube_of shelf.now) one other }
{
    match one {
        Some(one) => {
            if compare_names(other.1, one.1, shelf).is_lt() {
                one
            } else {
                other
            }
        }
        None => other,
    }
}

/// Takes the last name off a part.
fn take_last(parts: &mut Vec<Vec<CubeName>>, at: usize) -> CubeName
    requires inside { at < length parts.old.items }
    requires some { slice_index_or (part_lists parts.old.items) at [] ≢ [] }
    ensures { (part : List CubeName)
        × (slice_index_or (part_lists parts.old.items) at [] ≡ part ++ result ∷ [])
        × (part_lists parts.new.items ≡ slice_set (part_lists parts.old.items) at part) }
{
    match parts[at].pop() {
        Some(last) => last,
        None => unreachable!(),
    }
}
