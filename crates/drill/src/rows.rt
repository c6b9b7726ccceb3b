//! The rows of the drill, and the subject that they make.
ghost use Rattle.std.specs.Prelude.{◌≡◌, ◌<◌, ◌≤◌, ◌^◌, ◌∷◌, ◌++◌, [], IfOk};
ghost use Rattle.sat_terms.specs.Literals.{IsLiteral};
ghost use Rattle.drill.specs.Drills.{drill, drill_row};

use sat_terms::{Clause, Cube, Formula, Items, Subject};
use std::alloc::{AllocError, Global};

/// The clause of two literals.
fn pair(alloc: Global, one: i32, other: i32) -> Result<Clause, AllocError>
    requires one { IsLiteral one }
    requires other { IsLiteral other }
    ensures { IfOk result (λ clause. clause ≡ one ∷ other ∷ []) }
{
    Clause::from_lits(alloc, &[one, other])
}

/// Appends the clauses of a row.
fn push_row(alloc: Global, clauses: &mut Vec<Clause>, size: u32, row: u32) -> Result<(), AllocError>
    requires size { size ≤ 48 }
    requires some { 1 ≤ row }
    requires within { row ≤ size }
    ensures { IfOk result (λ _. clauses.new.items ≡ clauses.old.items ++ drill_row size row) }
{
    let shown = row as i32;
    let hidden = (size + row) as i32;
    if row % 4 == 1 {
        if row < size {
            clauses.push(pair(alloc, shown, shown + 1)?)?;
        }
    } else if row % 4 == 2 {
        clauses.push(pair(alloc, -shown, hidden)?)?;
    } else if row % 4 == 3 {
        clauses.push(pair(alloc, -shown, hidden)?)?;
        clauses.push(pair(alloc, -shown, -hidden)?)?;
    } else {
        clauses.push(pair(alloc, shown, hidden)?)?;
        clauses.push(pair(alloc, shown, -hidden)?)?;
    }
    Ok(())
}

/// The drill of a size, of which the variables 1 to the size are shown and as many are hidden.
pub fn drill_subject(alloc: Global, size: u32) -> Result<Subject, AllocError>
    requires { size ≤ 48 }
    ensures { IfOk result (λ subject. subject ≡ drill size) }
{
    let mut clauses = Vec::new(alloc);
    let mut shown = Vec::new(alloc);
    for below in 0..size {
        push_row(alloc, &mut clauses, size, below + 1)?;
        shown.push(below + 1)?;
    }
    Ok(Subject {
        formula: Formula {
            variables: size + size,
            clauses: Items::from_vec(clauses),
        },
        shown: Items::from_vec(shown),
        under: Cube::from_vec(Vec::new(alloc)),
    })
}
