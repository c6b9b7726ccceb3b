//! What the contracts do not say: that the calls succeed, and the answers on worked examples.
use crate::{
    Clause, Cube, CubeList, CubeRefused, Items, PairFinder, apart, compare, place_of, within,
};
use std::cmp::Ordering;
use std::test::Fail;

/// The place of a refusal, with the letter of its kind, or the length of the cube.
#[derive(Clone, Copy, Debug, PartialEq, Eq)]
enum Answer {
    Literals(usize),
    NotShown(usize),
    NotRising(usize),
    OutOfMemory,
}

fn what_came(made: Result<Cube, CubeRefused>) -> Answer {
    match made {
        Ok(cube) => Answer::Literals(cube.lits().len()),
        Err(CubeRefused::NotShown(place)) => Answer::NotShown(place),
        Err(CubeRefused::NotRising(place)) => Answer::NotRising(place),
        Err(CubeRefused::OutOfMemory(_)) => Answer::OutOfMemory,
    }
}

#[test]
fn a_cube_is_made_of_shown_rising_literals_alone(rt: HostRuntime) {
    let shown = [1u32, 3];
    assert_eq!(rt;
        what_came(Cube::from_lits(rt.alloc(), &[-1, 3], &shown)),
        Answer::Literals(2)
    );
    assert_eq!(rt;
        what_came(Cube::from_lits(rt.alloc(), &[], &shown)),
        Answer::Literals(0)
    );
    assert_eq!(rt;
        what_came(Cube::from_lits(rt.alloc(), &[1, 4], &shown)),
        Answer::NotShown(1)
    );
    assert_eq!(rt;
        what_came(Cube::from_lits(rt.alloc(), &[3, 1], &shown)),
        Answer::NotRising(1)
    );
    assert_eq!(rt;
        what_came(Cube::from_lits(rt.alloc(), &[0], &shown)),
        Answer::NotShown(0)
    );
}

#[test]
fn the_first_refused_place_counts(rt: HostRuntime) {
    let shown = [1u32, 2, 3];
    assert_eq!(rt;
        what_came(Cube::from_lits(rt.alloc(), &[-1, 3], &shown)),
        Answer::Literals(2)
    );
    assert_eq!(rt;
        what_came(Cube::from_lits(rt.alloc(), &[2, 1], &shown)),
        Answer::NotRising(1)
    );
    assert_eq!(rt;
        what_came(Cube::from_lits(rt.alloc(), &[2, -2, 4], &shown)),
        Answer::NotRising(1)
    );
    assert_eq!(rt;
        what_came(Cube::from_lits(rt.alloc(), &[2, 4, 1], &shown)),
        Answer::NotShown(1)
    );
}

#[test]
fn a_cube_keeps_its_literals(rt: HostRuntime) -> Result<(), Fail> {
    let made = Cube::from_lits(rt.alloc(), &[-1, 3], &[1, 3])
        .ok()
        .ok_or("no cube")?;
    assert_eq!(rt; made.lits(), [-1, 3].as_slice());
    Ok(())
}

#[test]
fn a_clause_keeps_repeated_literals_and_pairs(rt: HostRuntime) -> Result<(), Fail> {
    let clause = Clause::from_lits(rt.alloc(), &[2, -2, 2])?;
    assert_eq!(rt; clause.lits(), [2, -2, 2].as_slice());
    Ok(())
}

#[test]
fn items_keep_their_elements(rt: HostRuntime) -> Result<(), Fail> {
    let items = Items::from_vec([7u32, 5].to_vec(rt.alloc())?);
    assert_eq!(rt; items.as_slice(), [7u32, 5].as_slice());
    let back = items.into_vec();
    assert_eq!(rt; back.len(), 2);
    Ok(())
}

#[test]
fn cubes_are_apart_by_one_negated_literal(rt: HostRuntime) {
    assert!(rt; apart(&[-1, 2], &[1]));
    assert!(rt; apart(&[1, 2, -5], &[3, 5]));
    assert!(rt; !apart(&[-1, 2], &[2, 3]));
    assert!(rt; !apart(&[], &[1]));
}

#[test]
fn the_inner_cube_has_each_literal_of_the_outer(rt: HostRuntime) {
    assert!(rt; within(&[-1, 2, 4], &[-1, 4]));
    assert!(rt; within(&[-1, 2], &[]));
    assert!(rt; !within(&[-1], &[-1, 2]));
    assert!(rt; !within(&[-1, 2], &[1]));
}

#[test]
fn cubes_are_ordered_by_variable_and_then_by_sign(rt: HostRuntime) {
    assert_eq!(rt; compare(&[-1, 2], &[1]), Ordering::Less);
    assert_eq!(rt; compare(&[1], &[1, -2]), Ordering::Less);
    assert_eq!(rt; compare(&[2], &[1, 2]), Ordering::Greater);
    assert_eq!(rt; compare(&[-3, 4], &[-3, 4]), Ordering::Equal);
}

#[test]
fn a_list_of_cubes_is_read_place_by_place(rt: HostRuntime) -> Result<(), Fail> {
    let mut cubes = Vec::new(rt.alloc());
    cubes.push(Cube::from_vec([-1, 2].to_vec(rt.alloc())?))?;
    cubes.push(Cube::from_vec([1].to_vec(rt.alloc())?))?;
    let list = Items::from_vec(cubes);
    assert_eq!(rt; list.count(), 2);
    assert_eq!(rt; list.at(0), [-1, 2].as_slice());
    assert_eq!(rt; list.at(1), [1].as_slice());
    Ok(())
}

#[test]
fn a_copy_has_the_literals_of_its_cube(rt: HostRuntime) -> Result<(), Fail> {
    let lits = [-1, 3].to_vec(rt.alloc())?;
    let cube = Cube::from_vec(lits);
    assert_eq!(rt; cube.copy(rt.alloc())?.lits(), [-1, 3].as_slice());
    Ok(())
}

#[test]
fn a_pair_is_of_one_clause(rt: HostRuntime) -> Result<(), Fail> {
    let mut finder = PairFinder::make(rt.alloc(), 3)?;
    assert!(rt; finder.has_pair(&[1, 2, -1]));
    assert!(rt; !finder.has_pair(&[1, 2, 2]));
    assert!(rt; !finder.has_pair(&[-1, -2]));
    assert!(rt; finder.has_pair(&[3, -2, -3, 3]));
    assert!(rt; !finder.has_pair(&[]));
    Ok(())
}

#[test]
fn each_literal_has_a_place_of_its_own(rt: HostRuntime) {
    assert_eq!(rt;
        [place_of(-1), place_of(1), place_of(-2), place_of(2)],
        [2, 3, 4, 5]
    );
}
