//! For tests: whether a subject that was put together is one.
ghost use Rattle.std.specs.Prelude.{◌≡◌, ◌<◌, ◌≤◌, true};
ghost use Rattle.std.specs.List.{All};
ghost use Rattle.std.specs.List.Sorted.{IsStrictlyIncreasing};
ghost use Rattle.sat_terms.specs.Literals.{IsLiteralOf};
ghost use Rattle.sat_terms.specs.Subjects.{IsSubject};
ghost use Rattle.plain_search.specs.SmallSubjects.{IsShortClause, IsShortFormula};

use sat_terms::{Clause, Subject};

/// Whether a clause has at most 1,000,000 literals, each of one of the variables 1 to `variables`.
fn is_short_clause(clause: &[i32], variables: u32) -> bool
    ensures { result ≡ true → IsShortClause variables clause.now }
{
    if clause.len() > 1_000_000 {
        return false;
    }
    for lit in clause {
        if *lit == 0 || lit.unsigned_abs() > variables {
            return false;
        }
    }
    true
}

/// Whether there are at most 1,000 clauses, each of this kind.
fn is_short_formula(clauses: &[Clause], variables: u32) -> bool
    ensures { result ≡ true → IsShortFormula variables clauses.now }
{
    if clauses.len() > 1000 {
        return false;
    }
    for clause in clauses {
        if !is_short_clause(clause.lits(), variables) {
            return false;
        }
    }
    true
}

/// Whether these numbers rise.
fn is_rising(numbers: &[u32]) -> bool
    ensures { result ≡ true → IsStrictlyIncreasing numbers.now }
{
    for place in 1..numbers.len() {
        if numbers[place] <= numbers[place - 1] {
            return false;
        }
    }
    true
}

/// Whether the shown variables are some of 1 to `variables`.
fn are_variables_of(shown: &[u32], variables: u32) -> bool
    ensures { result ≡ true → All (λ v. (0 < v) × (v ≤ variables)) shown.now }
{
    for variable in shown {
        if *variable == 0 || *variable > variables {
            return false;
        }
    }
    true
}

/// Whether this is a subject of at most 1,000,000 variables, with few clauses and no given
/// literals.
pub(crate) fn is_subject(subject: &Subject) -> bool
    ensures { result ≡ true → IsSubject subject.now.formula.variables
        subject.now.formula.clauses subject.now.shown subject.now.under }
{
    let variables = subject.formula.variables;
    let shown = subject.shown.as_slice();
    if !subject.under.lits().is_empty() {
        return false;
    }
    if variables > 1_000_000 || !is_rising(shown) || !are_variables_of(shown, variables) {
        return false;
    }
    is_short_formula(subject.formula.clauses.as_slice(), variables)
}
