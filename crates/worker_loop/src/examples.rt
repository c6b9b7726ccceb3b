//! For tests: small subjects. What they have to be is looked at while they are made.
ghost use Rattle.std.specs.Prelude.{◌≡◌, ◌<◌, ◌≤◌, true, length, IfOk};
ghost use Rattle.std.specs.List.{All};
ghost use Rattle.std.specs.List.Sorted.{IsStrictlyIncreasing};
ghost use Rattle.sat_terms.specs.Literals.{IsLiteralOf};
ghost use Rattle.sat_terms.specs.Subjects.{IsFormula, IsSubject};

use sat_terms::{Clause, Cube, Formula, Items, Subject};
use std::alloc::{AllocError, Global};
use std::process::Abort;

/// A formula over the variables 1 to `variables`, and those of them that are shown.
#[derive(Clone, Copy, Debug)]
pub(crate) struct Example {
    pub(crate) variables: u32,
    pub(crate) clauses: &'static [&'static [i32]],
    pub(crate) shown: &'static [u32],
}

/// The four assignments of three variables in which an odd number is true.
pub(crate) const PARITY: Example = Example {
    variables: 3,
    clauses: &[&[1, 2, 3], &[1, -2, -3], &[-1, 2, -3], &[-1, -2, 3]],
    shown: &[1, 2, 3],
};

/// The variable 2 is true, but no clause says so alone: 1 and 2 are shown.
pub(crate) const HIDDEN_UNIT: Example = Example {
    variables: 4,
    clauses: &[&[2, 4], &[2, -4]],
    shown: &[1, 2],
};

/// Whether these are literals of the variables 1 to `variables`.
fn are_literals(lits: &[i32], variables: u32) -> bool
    ensures { result ≡ true → All (IsLiteralOf variables) lits.now }
{
    for lit in lits {
        if *lit == 0 || lit.unsigned_abs() > variables {
            return false;
        }
    }
    true
}

/// Whether these are some of the variables 1 to `variables`.
fn are_variables(shown: &[u32], variables: u32) -> bool
    ensures { result ≡ true → All (λ v. (0 < v) × (v ≤ variables)) shown.now }
{
    for variable in shown {
        if *variable == 0 || *variable > variables {
            return false;
        }
    }
    true
}

/// Whether these numbers rise.
fn are_rising(numbers: &[u32]) -> bool
    ensures { result ≡ true → IsStrictlyIncreasing numbers.now }
{
    for place in 1..numbers.len() {
        if numbers[place] <= numbers[place - 1] {
            return false;
        }
    }
    true
}

/// The clause of these literals.
fn clause_of(
    rt: &impl Abort,
    alloc: Global,
    variables: u32,
    lits: &[i32],
) -> Result<Clause, AllocError>
    ensures named { IfOk result (λ clause. All (IsLiteralOf variables) clause) }
    ensures short { IfOk result (λ clause. length clause ≤ 1000) }
{
    assert!(rt; variables <= 1000);
    assert!(rt; lits.len() <= 1000);
    assert!(rt; are_literals(lits, variables));
    Clause::from_lits(alloc, lits)
}

/// The formula of these clauses.
fn formula_of(
    rt: &impl Abort,
    alloc: Global,
    variables: u32,
    clauses: &[&[i32]],
) -> Result<Formula, AllocError>
    ensures formula { IfOk result (λ formula. IsFormula formula.variables formula.clauses) }
    ensures variables { IfOk result (λ formula. formula.variables ≡ variables) }
{
    assert!(rt; variables <= 1000);
    assert!(rt; clauses.len() <= 1000);
    let mut list = Vec::new(alloc);
    for lits in clauses {
        list.push(clause_of(rt, alloc, variables, lits)?)?;
    }
    Ok(Formula {
        variables,
        clauses: Items::from_vec(list),
    })
}

/// The subject of an example.
pub(crate) fn example_subject(
    rt: &impl Abort,
    alloc: Global,
    example: &Example,
) -> Result<Subject, AllocError>
    ensures { IfOk result (λ subject. IsSubject subject.formula.variables subject.formula.clauses
        subject.shown subject.under) }
{
    assert!(rt; are_rising(example.shown));
    assert!(rt; are_variables(example.shown, example.variables));
    Ok(Subject {
        formula: formula_of(rt, alloc, example.variables, example.clauses)?,
        shown: Items::from_vec(example.shown.to_vec(alloc)?),
        under: Cube::from_vec(Vec::new(alloc)),
    })
}
