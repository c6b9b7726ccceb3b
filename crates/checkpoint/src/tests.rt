//! The saved text on worked examples, and what is out after a fault.
ghost use Rattle.std.specs.Prelude.{◌≡◌, true};
ghost use Rattle.std.specs.List.{All};
ghost use Rattle.sat_terms.specs.Cubes.{rises_above};
ghost use Rattle.sat_terms.specs.Literals.{IsLiteral};

use super::*;
use fault_io::{BytesOut, WriteFault};
use sat_terms::{Clause, Cube, CubeList, Formula, Items, Subject};
use std::alloc::{AllocError, Global};
use std::test::Fail;

/// A subject with what was found of it, and what is pending.
#[derive(Drop)]
struct Stopped {
    subject: Subject,
    saved: Saved,
}

impl CubeList for Stopped {
    ghost cubes = { λ stopped. stopped.saved.cubes };

    fn count(&self) -> usize {
        self.saved.cubes.count()
    }

    fn at(&self, i: usize) -> &[i32] {
        self.saved.cubes.at(i)
    }
}

impl SavedView for Stopped {
    ghost subject_of = { λ stopped. stopped.subject };

    ghost pending = { λ stopped. stopped.saved.pending };

    fn subject(&self) -> &Subject {
        &self.subject
    }

    fn pending_count(&self) -> usize {
        self.saved.pending.count()
    }

    fn pending_at(&mut self, i: usize) -> &[i32] {
        self.saved.pending.as_slice()[i].lits()
    }
}

/// Two clauses, as they are written.
fn two_clauses(alloc: Global, first: &[i32], second: &[i32]) -> Result<Items<Clause>, AllocError>
    requires first { All IsLiteral first.now }
    requires second { All IsLiteral second.now }
{
    let mut clauses = Vec::new(alloc);
    clauses.push(Clause::from_lits(alloc, first)?)?;
    clauses.push(Clause::from_lits(alloc, second)?)?;
    Ok(Items::from_vec(clauses))
}

/// A list of one cube.
fn one_cube(alloc: Global, lits: &[i32]) -> Result<Items<Cube>, AllocError>
    requires rising { rises_above 0 lits.now ≡ true }
    requires literals { All IsLiteral lits.now }
{
    let mut cubes = Vec::new(alloc);
    cubes.push(Cube::from_vec(lits.to_vec(alloc)?))?;
    Ok(Items::from_vec(cubes))
}

/// Two variables, both shown, of which just one is true: `-1 2` is found, and `1` is pending.
fn half_done(alloc: Global) -> Result<Stopped, AllocError> {
    let clauses = two_clauses(alloc, &[1, 2], &[-1, -2])?;
    let formula = Formula {
        variables: 2,
        clauses,
    };
    let shown = Items::from_vec([1u32, 2].to_vec(alloc)?);
    let under = Cube::from_vec(Vec::new(alloc));
    let cubes = one_cube(alloc, &[-1, 2])?;
    let pending = one_cube(alloc, &[1])?;
    let subject = Subject {
        formula,
        shown,
        under,
    };
    Ok(Stopped {
        subject,
        saved: Saved { cubes, pending },
    })
}

/// Three variables, an empty clause, and a clause with a literal twice and a pair. Under `-2 3`
/// just this prefix is pending, and no cube is found.
fn not_begun(alloc: Global) -> Result<Stopped, AllocError> {
    let clauses = two_clauses(alloc, &[], &[1, 1, -1])?;
    let formula = Formula {
        variables: 3,
        clauses,
    };
    let shown = Items::from_vec([2u32, 3].to_vec(alloc)?);
    let under = Cube::from_vec([-2, 3].to_vec(alloc)?);
    let pending = one_cube(alloc, &[-2, 3])?;
    let subject = Subject {
        formula,
        shown,
        under,
    };
    Ok(Stopped {
        subject,
        saved: Saved {
            cubes: Items::from_vec(Vec::new(alloc)),
            pending,
        },
    })
}

const HALF_DONE: &str = "c allsat saved 2\np cnf 2 2\n1 2 0\n-1 -2 0\nc p show 1 2 0\n\
    c p under 0\nc p cube -1 2 0\nc p open 1 0\nc p end\n";

const NOT_BEGUN: &str = "c allsat saved 2\np cnf 3 2\n0\n1 1 -1 0\nc p show 2 3 0\n\
    c p under -2 3 0\nc p open -2 3 0\nc p end\n";

#[test]
fn a_saved_text_has_a_line_for_each_clause_cube_and_prefix(rt: HostRuntime) -> Result<(), Fail> {
    let alloc = rt.alloc();
    let mut stopped = half_done(alloc)?;
    let mut sink = BytesOut::make(alloc, 256, 16, Vec::new(alloc))?;
    assert_eq!(rt; write_saved(&mut stopped, &mut sink), Ok(()));
    assert_eq!(rt; sink.bytes(), HALF_DONE.as_bytes());
    Ok(())
}

#[test]
fn clauses_are_saved_as_they_were_written(rt: HostRuntime) -> Result<(), Fail> {
    let alloc = rt.alloc();
    let mut stopped = not_begun(alloc)?;
    let mut sink = BytesOut::make(alloc, 256, 16, Vec::new(alloc))?;
    assert_eq!(rt; write_saved(&mut stopped, &mut sink), Ok(()));
    assert_eq!(rt; sink.bytes(), NOT_BEGUN.as_bytes());
    Ok(())
}

#[test]
fn a_fault_leaves_a_front_of_the_saved_text(rt: HostRuntime) -> Result<(), Fail> {
    let alloc = rt.alloc();
    let mut stopped = half_done(alloc)?;
    let mut sink = BytesOut::make(alloc, 256, 16, [3].to_vec(alloc)?)?;
    assert_eq!(rt; write_saved(&mut stopped, &mut sink), Err(WriteFault));
    assert_eq!(rt; sink.bytes(), &HALF_DONE.as_bytes()[..32]);
    Ok(())
}

/// The literals of a cube line with these numbers, or `None` where it is bad.
fn cube_of(alloc: Global, numbers: &[i32]) -> Result<Option<Vec<i32>>, AllocError> {
    match read_cube_line(alloc, numbers) {
        Ok(lits) => Ok(Some(lits)),
        Err(CubeLineRefused::Bad) => Ok(None),
        Err(CubeLineRefused::OutOfMemory(error)) => Err(error),
    }
}

#[test]
fn a_cube_line_is_rising_literals_and_one_zero(rt: HostRuntime) -> Result<(), Fail> {
    let alloc = rt.alloc();
    let cube = cube_of(alloc, &[1, -2, 0])?;
    assert_eq!(rt;
        cube.unwrap_or(Vec::new(alloc)).as_slice(),
        [1, -2].as_slice()
    );
    assert_eq!(rt; cube_of(alloc, &[0])?.unwrap_or(Vec::new(alloc)).len(), 0);
    let bad: [&[i32]; 9] = [
        &[],
        &[1],
        &[0, 0],
        &[2, 1, 0],
        &[1, -1, 0],
        &[1, 0, 2],
        &[1, 0, 2, 0],
        &[1, 0, 0],
        &[i32::MIN, 0],
    ];
    for numbers in bad {
        assert_eq!(rt; cube_of(alloc, numbers)?.is_none(), true);
    }
    Ok(())
}
