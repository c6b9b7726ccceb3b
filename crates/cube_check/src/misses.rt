//! The first cube that does not meet each clause.
ghost use Rattle.std.specs.Prelude.{◌≡◌, ◌+◌, ◌*◌, List, ℤ, length, map, IfOk};
ghost use Rattle.std.specs.List.{All, list_any};
ghost use Rattle.sat_terms.specs.Cubes.{has_literal, has_pair};
ghost use Rattle.sat_terms.specs.Subjects.{IsFormula};
ghost use Rattle.cube_check.specs.Marks.{AreMarked, FitsMarks};
ghost use Rattle.cube_check.specs.Misses.{IsNamed, MissesFirst, TellsMiss};

use crate::marks::Marks;
use crate::met::Met;
use sat_terms::{Clause, Formula, PairFinder};
use std::alloc::{AllocError, Global};

/// The places of the first cube that does not meet each clause, and of the first clause that it
/// misses, from 0. For each cube it takes one walk over the clauses, each up to its first literal
/// that is met.
pub(crate) fn first_miss(
    formula: &Formula,
    pairs: &[bool],
    met: &[Met],
    marks: &mut Marks,
) -> Option<(usize, usize)>
    requires formula { IsFormula formula.now.variables formula.now.clauses }
    requires pairs { pairs.now ≡ map has_pair formula.now.clauses }
    requires named { All (IsNamed formula.now.variables) met.now }
    requires places { length marks.old.stamps ≡ 2 * (formula.now.variables + 1) }
    ensures miss { TellsMiss formula.now.clauses met.now result }
    ensures places { length marks.new.stamps ≡ length marks.old.stamps }
{
    for (cube, line) in met.iter().enumerate() {
        marks.clear();
        marks.mark(line.cube.lits());
        marks.mark(line.hidden.lits());
        if let Some(clause) = first_missed(formula.clauses.as_slice(), pairs, marks) {
            return Some((cube, clause));
        }
    }
    None
}

/// The place of the first clause that the marked literals do not meet.
fn first_missed(clauses: &[Clause], pairs: &[bool], marks: &Marks) -> Option<usize>
    requires pairs { pairs.now ≡ map has_pair clauses.now }
    requires places { All (All (FitsMarks marks.now)) clauses.now }
    ensures { (c : List ℤ) → AreMarked marks.now c → MissesFirst c clauses.now result }
{
    for (place, clause) in clauses.iter().enumerate() {
        if !pairs[place] && !has_marked(clause.lits(), marks) {
            return Some(place);
        }
    }
    None
}

/// Whether one of these literals is marked.
fn has_marked(lits: &[i32], marks: &Marks) -> bool
    requires { All (FitsMarks marks.now) lits.now }
    ensures { (c : List ℤ) → AreMarked marks.now c → result ≡ list_any (has_literal c) lits.now }
{
    for lit in lits {
        if marks.has(*lit) {
            return true;
        }
    }
    false
}

/// For each clause, whether it holds a literal and its negation. Two walks over the formula.
pub(crate) fn find_pairs(alloc: Global, formula: &Formula) -> Result<Vec<bool>, AllocError>
    requires { IsFormula formula.now.variables formula.now.clauses }
    ensures { IfOk result (λ pairs. pairs.items ≡ map has_pair formula.now.clauses) }
{
    let mut finder = PairFinder::make(alloc, formula.variables)?;
    let mut pairs = Vec::new(alloc);
    for clause in formula.clauses.as_slice() {
        pairs.push(finder.has_pair(clause.lits()))?;
    }
    Ok(pairs)
}
