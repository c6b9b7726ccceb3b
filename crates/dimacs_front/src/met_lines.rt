//! The met lines of a met text.
ghost use Rattle.std.specs.Prelude.{◌≡◌, true, nat_abs, IfOk};
ghost use Rattle.std.specs.List.{list_all};
ghost use Rattle.sat_terms.specs.Cubes.{rises_above};
ghost use Rattle.sat_terms.specs.Subjects.{IsVariableList};
ghost use Rattle.dimacs_front.specs.TextEnds.{is_hidden, is_met_line, first_unmet, mets_of};

use crate::saved_lines::is_saved_cube;
use cube_check::Met;
use sat_terms::{Items, is_shown};
use std::alloc::{AllocError, Global};

/// A met line: its number, and what it holds.
#[derive(Drop)]
pub struct MetLine {
    pub line: u64,
    pub met: Met,
}

/// The first of the lines that does not show a cube.
pub fn first_unmet(lines: &[MetLine], variables: u32, shown: &[u32], under: &[i32]) -> Option<u64>
    requires shown { IsVariableList shown.now }
    requires under { rises_above 0 under.now ≡ true }
    ensures { result ≡ first_unmet variables shown.now under.now lines.now }
{
    for line in lines {
        if !is_met_line(line, variables, shown, under) {
            return Some(line.line);
        }
    }
    None
}

/// Whether the line shows a cube: its cube can be saved, and its other literals are hidden.
fn is_met_line(line: &MetLine, variables: u32, shown: &[u32], under: &[i32]) -> bool
    requires shown { IsVariableList shown.now }
    requires under { rises_above 0 under.now ≡ true }
    ensures { result ≡ is_met_line variables shown.now under.now line.now }
{
    is_saved_cube(&line.met.cube, shown, under)
        && are_hidden(line.met.hidden.lits(), variables, shown)
}

/// Whether each of the literals is of one of the variables 1 to `variables` that is not shown.
fn are_hidden(lits: &[i32], variables: u32, shown: &[u32]) -> bool
    requires { IsVariableList shown.now }
    ensures { result ≡ list_all (is_hidden variables shown.now) lits.now }
{
    for lit in lits {
        let variable = lit.unsigned_abs();
        if variable > variables || is_shown(shown, variable) {
            return false;
        }
    }
    true
}

/// What the lines hold, without a copy of their literals.
pub fn mets_of(alloc: Global, lines: Vec<MetLine>) -> Result<Items<Met>, AllocError>
    ensures { IfOk result (λ met. met ≡ mets_of lines.items) }
{
    let mut met = Vec::new(alloc);
    for line in lines {
        met.push(line.met)?;
    }
    Ok(Items::from_vec(met))
}
