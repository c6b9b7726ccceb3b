//! For tests: the listings of small formulas under every choice of shown variables, against the
//! definition. The values of five variables are the bits of a number, that of variable 1 the
//! lowest; so are choices of variables.
ghost use Rattle.std.specs.Prelude.{◌<◌, ◌≤◌};

use crate::tests::{clause, listed};
use sat_terms::{Clause, Cube, Formula, Items, Subject, compare};
use std::alloc::{AllocError, Global};
use std::cmp::Ordering;
use std::process::Abort;
use std::test::Fail;

/// Numbers without a pattern, the same ones each time: linear congruences modulo 2^32.
#[derive(Drop)]
struct Draws {
    state: u32,
}

impl Draws {
    /// The next number below this one.
    fn next(&mut self, bound: u32) -> u32
        requires { 0 < bound }
        ensures { result < bound }
    {
        self.state = self
            .state
            .wrapping_mul(1_664_525)
            .wrapping_add(1_013_904_223);
        (self.state >> 16) % bound
    }

    /// A literal of the first variables, or 0.
    fn literal(&mut self, variables: u32) -> i32
        requires { variables ≤ 5 }
    {
        let variable = self.next(variables + 1) as i32;
        if self.next(2) == 0 {
            variable
        } else {
            -variable
        }
    }
}

/// So many clauses of at most three literals.
fn draw_clauses(
    alloc: Global,
    seed: u32,
    variables: u32,
    count: u32,
) -> Result<Vec<Clause>, AllocError>
    requires { variables ≤ 5 }
{
    let mut draws = Draws { state: seed };
    let mut clauses = Vec::new(alloc);
    for _ in 0..count {
        let lits = [
            draws.literal(variables),
            draws.literal(variables),
            draws.literal(variables),
        ];
        clauses.push(clause(alloc, &lits)?)?;
    }
    Ok(clauses)
}

/// Whether this variable is among these.
fn is_among(variables: u32, variable: u32) -> bool {
    0 < variable && variable <= 5 && variables >> (variable - 1) & 1 == 1
}

/// The list of these variables.
fn list_of(alloc: Global, variables: u32) -> Result<Vec<u32>, AllocError> {
    let mut list = Vec::new(alloc);
    for variable in 1..6 {
        if is_among(variables, variable) {
            list.push(variable)?;
        }
    }
    Ok(list)
}

/// Whether a literal is true under these values.
fn is_true(values: u32, lit: i32) -> bool {
    is_among(values, lit.unsigned_abs()) == (lit > 0)
}

/// Whether some literal is true.
fn meets(values: u32, lits: &[i32]) -> bool {
    for lit in lits {
        if is_true(values, *lit) {
            return true;
        }
    }
    false
}

/// Whether each clause has a true literal.
fn meets_all(values: u32, clauses: &[Clause]) -> bool {
    for clause in clauses {
        if !meets(values, clause.lits()) {
            return false;
        }
    }
    true
}

/// Whether the shown values go with some hidden ones under which all clauses are met.
fn is_good(values: u32, shown: u32, clauses: &[Clause]) -> bool {
    for other in 0..32u32 {
        if (other ^ values) & shown == 0 && meets_all(other, clauses) {
            return true;
        }
    }
    false
}

/// Whether each literal is true.
fn lies_in(values: u32, lits: &[i32]) -> bool {
    for lit in lits {
        if !is_true(values, *lit) {
            return false;
        }
    }
    true
}

/// How many cubes these values lie in.
fn holders(values: u32, cubes: &[Cube]) -> u32 {
    let mut count: u32 = 0;
    for cube in cubes {
        if lies_in(values, cube.lits()) {
            count = count.saturating_add(1);
        }
    }
    count
}

/// Whether each cube stands before the next one in the order of cubes.
fn rise(cubes: &[Cube]) -> bool {
    for place in 1..cubes.len() {
        if compare(cubes[place - 1].lits(), cubes[place].lits()) != Ordering::Less {
            return false;
        }
    }
    true
}

/// Whether all literals are of shown variables.
fn are_shown(shown: u32, lits: &[i32]) -> bool {
    for lit in lits {
        if !is_among(shown, lit.unsigned_abs()) {
            return false;
        }
    }
    true
}

/// Compares the listing with the definition.
fn compare_with_definition(
    rt: &impl Abort,
    alloc: Global,
    subject: &Subject,
    shown: u32,
) -> Result<(), AllocError> {
    let cubes = listed(rt, alloc, subject)?;
    for values in 0..32u32 {
        let good = is_good(values, shown, subject.formula.clauses.as_slice());
        assert!(rt;
            holders(values, &cubes) == if good { 1 } else { 0 },
            "in {subject:?}"
        );
    }
    assert!(rt; rise(&cubes), "in {subject:?}");
    for cube in cubes.as_slice() {
        assert!(rt; are_shown(shown, cube.lits()), "in {subject:?}");
    }
    Ok(())
}

#[test]
fn four_hundred_formulas_are_listed_right_under_all_projections(
    rt: HostRuntime,
) -> Result<(), Fail> {
    let alloc = rt.alloc();
    for seed in 0..400u32 {
        let variables = seed % 5 + 1;
        let count = (seed / 5 % 8 + 3) * variables / 4;
        for shown in 0..1u32 << variables {
            let clauses = Items::from_vec(draw_clauses(alloc, seed, variables, count)?);
            let subject = Subject {
                formula: Formula { variables, clauses },
                shown: Items::from_vec(list_of(alloc, shown)?),
                under: Cube::from_vec(Vec::new(alloc)),
            };
            compare_with_definition(&rt, alloc, &subject, shown)?;
        }
    }
    Ok(())
}
