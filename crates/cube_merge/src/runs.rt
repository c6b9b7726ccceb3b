//! Names in parts, and room for all of them in one list.
ghost use Rattle.std.specs.Prelude.{◌≡◌, ◌<◌, ◌++◌, [], IfOk, IfErr, length, replicate};
ghost use Rattle.std.specs.Prelude.{slice_index_or, slice_set};
ghost use Rattle.std.specs.List.Sorted.{IsPermutation, IsSorted};
ghost use Rattle.cube_merge.specs.Names.{name_order, names_from};
ghost use Rattle.cube_merge.specs.Parts.{all_names, part_lists};

use crate::merging::{merge, put_parts_in_order};
use crate::name::add_names;
use crate::places::gather_in_order;
use crate::{CubeName, Shelf};
use std::alloc::{AllocError, Global};
use std::marker::Model;

/// Names of cubes in parts, each in the order in which they were added. Contracts see the list of
/// the parts.
#[derive(Drop)]
pub struct Runs {
    parts: Vec<Vec<CubeName>>,
    count: usize,
    room: Vec<CubeName>,
}

impl Model for Runs {
    ghost use Rattle.std.specs.Prelude.{List};
    ghost use Rattle.cube_merge.specs.declared.name.CubeName.{CubeName};
    ghost use Rattle.cube_merge.specs.Parts.{part_lists, HasMergeRoom};

    ghost Value = { List (List CubeName) };

    ghost view = { λ r. part_lists r.parts.items };

    ghost invariant = { λ r. HasMergeRoom (part_lists r.parts.items) r.count r.room };
}

impl Runs {
    /// So many parts without names.
    pub fn make(alloc: Global, parts: usize) -> Result<Runs, AllocError>
        ensures { IfOk result (λ runs. runs ≡ replicate parts []) }
    {
        Ok(Runs {
            parts: empty_parts(alloc, parts)?,
            count: 0,
            room: Vec::new(alloc),
        })
    }

    /// Names the first so many cubes of a place, at the end of a part. All memory is taken before
    /// anything changes, also what `arrange` will need.
    pub fn add(&mut self, part: usize, place: usize, count: usize) -> Result<(), AllocError>
        requires { part < length self.old }
        ensures added { IfOk result (λ _. self.new ≡ slice_set self.old part
            (slice_index_or self.old part [] ++ names_from place 0 count)) }
        ensures unchanged { IfErr result (λ _. self.new ≡ self.old) }
    {
        self.room.reserve(self.count.saturating_add(count))?;
        let names = &mut self.parts[part];
        if let Err(error) = names.reserve(count) {
            return Err(error);
        }
        add_names(names, place, count);
        self.count += count;
        Ok(())
    }

    /// All names in the order of their cubes, each as often as it was added. Where each place has
    /// a stretch of that order, the places are sorted, and each name costs a look. Else each part
    /// is sorted, where it is not in order, and each name costs a comparison with the last one of
    /// each other part that has one. It takes no memory.
    pub fn arrange<S: Shelf<CubeName>>(self, shelf: &S) -> Vec<CubeName>
        ensures same { IsPermutation (all_names self) result.items }
        ensures sorted { IsSorted (name_order (S.cube_of shelf.now)) result.items }
    {
        let Runs {
            mut parts,
            count: _,
            mut room,
        } = self;
        if gather_in_order(&parts, &mut room, shelf) {
            return room;
        }
        room.clear();
        put_parts_in_order(&mut parts, shelf);
        merge(&mut parts, &mut room, shelf);
        room.reverse();
        room
    }
}

/// So many empty parts.
fn empty_parts(alloc: Global, count: usize) -> Result<Vec<Vec<CubeName>>, AllocError>
    ensures { IfOk result (λ parts. part_lists parts.items ≡ replicate count []) }
{
    let mut parts = Vec::with_capacity(alloc, count)?;
    for _ in 0..count {
        parts.push_reserved(Vec::new(alloc));
    }
    Ok(parts)
}
