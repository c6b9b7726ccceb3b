//! What no clause says: that the calls succeed, on rows worked by hand.
ghost use Rattle.std.specs.Prelude.{◌≡◌, ◌≤◌, true, ◌∷◌, [], IfOk, length, slice_index_or, List, ℤ};
ghost use Rattle.std.specs.List.{All};
ghost use Rattle.sat_terms.specs.Literals.{IsLiteral};
ghost use Rattle.sat_terms.specs.Cubes.{rises_above};

use crate::{CubeName, Runs, Shelf, put_in_order};
use sat_terms::Cube;
use std::alloc::{AllocError, Global};
use std::test::Fail;

/// Each place has one cube.
#[derive(Drop)]
struct Row {
    cubes: Vec<Cube>,
}

impl Row {
    fn lits_at(&self, place: usize) -> &[i32]
        ensures { result.now ≡ slice_index_or self.now.cubes.items place [] }
    {
        if place < self.cubes.len() {
            self.cubes[place].lits()
        } else {
            &[]
        }
    }
}

impl Shelf<CubeName> for Row {
    ghost use Rattle.std.specs.Prelude.{slice_index_or, []};

    ghost cube_of = { λ row name. slice_index_or row.cubes.items name.place [] };

    fn lits_of(&self, name: CubeName) -> &[i32] {
        self.lits_at(name.place)
    }
}

impl Shelf<usize> for Row {
    ghost use Rattle.std.specs.Prelude.{slice_index_or, []};

    ghost cube_of = { λ row place. slice_index_or row.cubes.items place [] };

    fn lits_of(&self, name: usize) -> &[i32] {
        self.lits_at(name)
    }
}

fn cube(alloc: Global, lits: &[i32]) -> Result<Cube, AllocError>
    requires rising { rises_above 0 lits.now ≡ true }
    requires literals { All IsLiteral lits.now }
{
    Ok(Cube::from_vec(lits.to_vec(alloc)?))
}

/// `1`, `-1 2`, `1 2`, and `1` once more.
fn four_cubes(alloc: Global) -> Result<Row, AllocError> {
    let cubes = vec![in alloc;
        cube(alloc, &[1])?,
        cube(alloc, &[-1, 2])?,
        cube(alloc, &[1, 2])?,
        cube(alloc, &[1])?,
    ]?;
    Ok(Row { cubes })
}

#[test]
fn the_cubes_of_two_parts_come_in_order(rt: HostRuntime) -> Result<(), Fail> {
    let alloc = rt.alloc();
    let row = four_cubes(alloc)?;
    let mut runs = Runs::make(alloc, 2)?;
    runs.add(0, 0, 1)?;
    runs.add(1, 1, 1)?;
    let names = runs.arrange(&row);
    assert_eq!(rt; names.len(), 2);
    assert_eq!(rt; row.lits_of(names[0]), [-1, 2].as_slice());
    assert_eq!(rt; row.lits_of(names[1]), [1].as_slice());
    Ok(())
}

#[test]
fn equal_cubes_stay_and_a_part_out_of_order_is_sorted(rt: HostRuntime) -> Result<(), Fail> {
    let alloc = rt.alloc();
    let row = four_cubes(alloc)?;
    let mut runs = Runs::make(alloc, 3)?;
    runs.add(2, 2, 1)?;
    runs.add(2, 0, 1)?;
    runs.add(0, 3, 1)?;
    runs.add(2, 1, 1)?;
    let names = runs.arrange(&row);
    assert_eq!(rt; names.len(), 4);
    assert_eq!(rt; row.lits_of(names[0]), [-1, 2].as_slice());
    assert_eq!(rt; row.lits_of(names[1]), [1].as_slice());
    assert_eq!(rt; row.lits_of(names[2]), [1].as_slice());
    assert_eq!(rt; row.lits_of(names[3]), [1, 2].as_slice());
    Ok(())
}

#[test]
fn names_of_another_type_are_put_in_order(rt: HostRuntime) -> Result<(), Fail> {
    let alloc = rt.alloc();
    let row = four_cubes(alloc)?;
    let mut places = vec![in alloc; 2_usize, 0, 1]?;
    put_in_order(&mut places, &row);
    assert_eq!(rt; places.as_slice(), [1, 0, 2].as_slice());
    Ok(())
}
