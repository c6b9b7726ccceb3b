//! The listings of worked examples, and of every small formula of a kind against the definition.
ghost use Rattle.std.specs.Prelude.{pos, ◌≤ℤ◌};

use crate::checked::is_subject;
use crate::enumerate_plain;
use sat_terms::{Clause, Cube, Formula, Items, Subject};
use std::alloc::{AllocError, Global};
use std::process::Abort;
use std::test::Fail;

/// The clause of these literals; 0 is left out.
pub(crate) fn clause(alloc: Global, lits: &[i32]) -> Result<Clause, AllocError> {
    let mut kept = Vec::new(alloc);
    for lit in lits {
        let variable = lit.unsigned_abs();
        if 0 < variable && variable <= 1_000_000 {
            kept.push(*lit)?;
        }
    }
    Clause::from_lits(alloc, &kept)
}

/// The subject of these clauses.
fn subject(
    alloc: Global,
    variables: u32,
    clauses: &[&[i32]],
    shown: &[u32],
) -> Result<Subject, AllocError> {
    let mut list = Vec::new(alloc);
    for lits in clauses {
        list.push(clause(alloc, lits)?)?;
    }
    Ok(Subject {
        formula: Formula {
            variables,
            clauses: Items::from_vec(list),
        },
        shown: Items::from_vec(shown.to_vec(alloc)?),
        under: Cube::from_vec(Vec::new(alloc)),
    })
}

/// The cubes of this subject.
pub(crate) fn listed(
    rt: &impl Abort,
    alloc: Global,
    subject: &Subject,
) -> Result<Vec<Cube>, AllocError> {
    assert!(rt; is_subject(subject));
    enumerate_plain(alloc, subject)
}

/// Whether the list holds just these cubes, in this order.
fn lists(cubes: &[Cube], wanted: &[&[i32]]) -> bool {
    if cubes.len() != wanted.len() {
        return false;
    }
    for (cube, lits) in cubes.iter().zip(wanted.iter()) {
        if cube.lits() != *lits {
            return false;
        }
    }
    true
}

#[test]
fn one_clause_gives_two_cubes(rt: HostRuntime) -> Result<(), Fail> {
    let subject = subject(rt.alloc(), 2, &[&[1, 2]], &[1, 2])?;
    let cubes = listed(&rt, rt.alloc(), &subject)?;
    assert!(rt; lists(&cubes, &[&[-1, 2], &[1]]));
    Ok(())
}

#[test]
fn a_contradiction_gives_none(rt: HostRuntime) -> Result<(), Fail> {
    let subject = subject(rt.alloc(), 1, &[&[1], &[-1]], &[1])?;
    let cubes = listed(&rt, rt.alloc(), &subject)?;
    assert!(rt; lists(&cubes, &[]));
    Ok(())
}

#[test]
fn no_clauses_give_the_cube_of_all(rt: HostRuntime) -> Result<(), Fail> {
    let subject = subject(rt.alloc(), 3, &[], &[1, 3])?;
    let cubes = listed(&rt, rt.alloc(), &subject)?;
    assert!(rt; lists(&cubes, &[&[]]));
    Ok(())
}

#[test]
fn a_pair_is_met_by_all(rt: HostRuntime) -> Result<(), Fail> {
    let subject = subject(rt.alloc(), 2, &[&[2, -2]], &[1, 2])?;
    let cubes = listed(&rt, rt.alloc(), &subject)?;
    assert!(rt; lists(&cubes, &[&[]]));
    Ok(())
}

#[test]
fn a_pair_in_a_clause_of_a_million_literals_is_met_by_all(rt: HostRuntime) -> Result<(), Fail> {
    let mut lits = Vec::new(rt.alloc());
    for place in 0..999_998i32 {
        lits.push(place % 999 + 1)?;
    }
    lits.push(1000)?;
    lits.push(-1000)?;
    let subject = subject(rt.alloc(), 1000, &[&[1], &lits], &[1, 2])?;
    let cubes = listed(&rt, rt.alloc(), &subject)?;
    assert!(rt; lists(&cubes, &[&[1]]));
    Ok(())
}

#[test]
fn hidden_values_need_not_be_the_same(rt: HostRuntime) -> Result<(), Fail> {
    let subject = subject(rt.alloc(), 2, &[&[1, 2], &[-1, -2]], &[1])?;
    let cubes = listed(&rt, rt.alloc(), &subject)?;
    assert!(rt; lists(&cubes, &[&[-1], &[1]]));
    Ok(())
}

#[test]
fn each_leaf_walks_a_million_hidden_variables_once(rt: HostRuntime) -> Result<(), Fail> {
    let subject = subject(rt.alloc(), 1_000_000, &[&[1, 2], &[-1, -2]], &[1])?;
    let cubes = listed(&rt, rt.alloc(), &subject)?;
    assert!(rt; lists(&cubes, &[&[-1], &[1]]));
    Ok(())
}

#[test]
fn each_leaf_walks_a_million_shown_variables_once(rt: HostRuntime) -> Result<(), Fail> {
    let mut shown = Vec::new(rt.alloc());
    for variable in 1..1_000_001u32 {
        shown.push(variable)?;
    }
    let subject = subject(rt.alloc(), 1_000_000, &[&[1, 2]], &shown)?;
    let cubes = listed(&rt, rt.alloc(), &subject)?;
    assert!(rt; lists(&cubes, &[&[-1, 2], &[1]]));
    Ok(())
}

#[test]
fn a_failed_hidden_value_closes_no_shown_branch(rt: HostRuntime) -> Result<(), Fail> {
    let subject = subject(rt.alloc(), 4, &[&[2, 4], &[2, -4]], &[1, 2])?;
    let cubes = listed(&rt, rt.alloc(), &subject)?;
    assert!(rt; lists(&cubes, &[&[-1, 2], &[1, 2]]));
    Ok(())
}

/// The variable's literal that the digit 1 or 2 stands for; 0 for none.
fn literal(variable: i32, digit: u32) -> i32
    requires low { pos 0 ≤ℤ variable }
    requires high { variable ≤ℤ pos 3 }
{
    match digit {
        0 => 0,
        1 => variable,
        _ => -variable,
    }
}

/// Whether a literal of the variables 1 to 3 is true under these values.
fn is_true(values: [bool; 3], lit: i32) -> bool {
    let value = match lit.unsigned_abs() {
        1 => values[0],
        2 => values[1],
        _ => values[2],
    };
    value == (lit > 0)
}

/// Whether some literal is true; 0 is none.
fn meets(values: [bool; 3], lits: &[i32]) -> bool {
    for lit in lits {
        if *lit != 0 && is_true(values, *lit) {
            return true;
        }
    }
    false
}

/// How many cubes hold these values.
fn holders(cubes: &[Cube], values: [bool; 3]) -> usize {
    let mut count = 0;
    for (place, cube) in cubes.iter().enumerate() {
        let mut holds = true;
        for lit in cube.lits() {
            if !is_true(values, *lit) {
                holds = false;
            }
        }
        if holds && count <= place {
            count += 1;
        }
    }
    count
}

/// Compares the listing of two clauses over three variables with the definition, with 1 to 3 shown
/// and then with 2 hidden.
fn compare_with_definition(
    rt: &impl Abort,
    alloc: Global,
    first: &[i32],
    second: &[i32],
) -> Result<(), AllocError> {
    let all = subject(alloc, 3, &[first, second], &[1, 2, 3])?;
    let some = subject(alloc, 3, &[first, second], &[1, 3])?;
    let all_cubes = listed(rt, alloc, &all)?;
    let some_cubes = listed(rt, alloc, &some)?;
    for bits in 0..8u32 {
        let values = [bits % 2 == 1, bits / 2 % 2 == 1, bits / 4 == 1];
        let other = [values[0], !values[1], values[2]];
        let good = meets(values, first) && meets(values, second);
        let other_good = meets(other, first) && meets(other, second);
        assert!(rt; holders(&all_cubes, values) == if good { 1 } else { 0 });
        assert!(rt; holders(&some_cubes, values) == if good || other_good { 1 } else { 0 });
    }
    Ok(())
}

#[test]
fn every_pair_of_clauses_over_three_variables_is_listed_right(rt: HostRuntime) -> Result<(), Fail> {
    for first in 0..27u32 {
        for second in first..27u32 {
            compare_with_definition(
                &rt,
                rt.alloc(),
                &[
                    literal(1, first % 3),
                    literal(2, first / 3 % 3),
                    literal(3, first / 9),
                ],
                &[
                    literal(1, second % 3),
                    literal(2, second / 3 % 3),
                    literal(3, second / 9),
                ],
            )?;
        }
    }
    Ok(())
}
