//! The drill of some sizes, and summaries of listings, written out.
ghost use Rattle.std.specs.Prelude.{◌≡◌, ◌≤◌, true};
ghost use Rattle.std.specs.List.{All};
ghost use Rattle.sat_terms.specs.Cubes.{rises_above};
ghost use Rattle.sat_terms.specs.Literals.{IsLiteral};

use crate::{drill_subject, write_summary};
use fault_io::BytesOut;
use sat_terms::{Cube, Items};
use std::alloc::{AllocError, Global};
use std::test::Fail;

/// How many clauses the drill of a size has.
fn clauses_of(alloc: Global, size: u32) -> Result<usize, AllocError>
    requires { size ≤ 48 }
{
    let subject = drill_subject(alloc, size)?;
    Ok(subject.formula.clauses.as_slice().len())
}

#[test]
fn the_drill_of_size_4_has_one_row_of_each_kind(rt: HostRuntime) -> Result<(), Fail> {
    let rows: [[i32; 2]; 6] = [[1, 2], [-2, 6], [-3, 7], [-3, -7], [4, 8], [4, -8]];
    let subject = drill_subject(rt.alloc(), 4)?;
    assert_eq!(rt; subject.formula.variables, 8);
    assert_eq!(rt; subject.formula.clauses.as_slice().len(), 6);
    for (clause, row) in subject.formula.clauses.as_slice().iter().zip(rows.iter()) {
        assert_eq!(rt; clause.lits(), row.as_slice());
    }
    assert_eq!(rt; subject.shown.as_slice(), [1, 2, 3, 4].as_slice());
    assert!(rt; subject.under.lits().is_empty());
    Ok(())
}

#[test]
fn the_last_row_has_no_variable_behind_it(rt: HostRuntime) -> Result<(), Fail> {
    assert_eq!(rt; clauses_of(rt.alloc(), 0)?, 0);
    assert_eq!(rt; clauses_of(rt.alloc(), 1)?, 0);
    assert_eq!(rt; clauses_of(rt.alloc(), 24)?, 36);
    assert_eq!(rt; clauses_of(rt.alloc(), 48)?, 72);
    Ok(())
}

/// A cube.
fn cube(alloc: Global, lits: &[i32]) -> Result<Cube, AllocError>
    requires rising { rises_above 0 lits.now ≡ true }
    requires literals { All IsLiteral lits.now }
{
    Ok(Cube::from_vec(lits.to_vec(alloc)?))
}

/// A list of two cubes.
fn two_cubes(alloc: Global) -> Result<Items<Cube>, AllocError> {
    let one = cube(alloc, &[-1, 2, -3, 4])?;
    let other = cube(alloc, &[1, -3, 4])?;
    Ok(Items::from_vec(vec![in alloc; one, other]?))
}

/// The bytes of a summary.
fn summary_of(alloc: Global, cubes: &Items<Cube>) -> Result<BytesOut, AllocError> {
    let mut out = BytesOut::make(alloc, 100, 7, Vec::new(alloc))?;
    let _ = write_summary(cubes, &mut out);
    Ok(out)
}

#[test]
fn a_summary_has_the_literals_that_each_cube_holds(rt: HostRuntime) -> Result<(), Fail> {
    let cubes = two_cubes(rt.alloc())?;
    let out = summary_of(rt.alloc(), &cubes)?;
    assert_eq!(rt; out.bytes(), b"f -3 4 0\ns ALL\n".as_slice());
    Ok(())
}

#[test]
fn without_a_cube_there_is_no_fixed_literal(rt: HostRuntime) -> Result<(), Fail> {
    let out = summary_of(rt.alloc(), &Items::from_vec(Vec::new(rt.alloc())))?;
    assert_eq!(rt; out.bytes(), b"f 0\ns ALL\n".as_slice());
    Ok(())
}
