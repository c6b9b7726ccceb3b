//! The literals that a clause may watch in place of one that became false.
ghost use Rattle.std.specs.Prelude.{◌≡◌, ◌≢◌, ◌≤◌, true, length, MatchOption};
ghost use Rattle.std.specs.List.{All, list_all};
ghost use Rattle.chrono_trail.specs.Items.{are_distinct};
ghost use Rattle.chrono_trail.specs.Clauses.{is_or_false, rest_level};
ghost use Rattle.sat_terms.specs.Cubes.{has_literal};
ghost use Rattle.sat_terms.specs.Literals.{IsLiteralOf};
ghost use Rattle.propagation.specs.Walking.{MayWatch};

use crate::values::is_false;
use chrono_trail::{Trail, level_of_rest};

/// The first of these literals that is not false, and not the other watched one.
fn first_not_false(trail: &Trail, lits: &[i32], other: i32) -> Option<i32>
    requires named { All (IsLiteralOf trail.now.variables) lits.now }
    requires distinct { are_distinct trail.now.items ≡ true }
    ensures { MatchOption result
        (list_all (is_or_false trail.now.items other) lits.now ≡ true)
        (MayWatch trail.now.items lits.now other) }
{
    for lit in lits {
        if *lit != other && !is_false(trail, *lit) {
            return Some(*lit);
        }
    }
    None
}

/// A literal of the clause that is not false, other than the other watched one. None where each
/// other one is false. The search begins behind the first two literals: these are watched at first,
/// so that a clause that lost them comes to them last.
pub(crate) fn replacement(trail: &Trail, clause: &[i32], other: i32) -> Option<i32>
    requires named { All (IsLiteralOf trail.now.variables) clause.now }
    requires distinct { are_distinct trail.now.items ≡ true }
    requires long { 2 ≤ length clause.now }
    ensures { MatchOption result
        (list_all (is_or_false trail.now.items other) clause.now ≡ true)
        (MayWatch trail.now.items clause.now other) }
{
    match first_not_false(trail, &clause[2..], other) {
        Some(lit) => Some(lit),
        None => first_not_false(trail, &clause[..2], other),
    }
}

/// The level of a literal that the clause implies: the greatest one of the other literals, which
/// are false. Where `from`, one of these, is on the current level, no other is looked at.
pub(crate) fn true_level(trail: &Trail, clause: &[i32], other: i32, from: i32) -> u32
    requires named { All (IsLiteralOf trail.now.variables) clause.now }
    requires among { has_literal clause.now from ≡ true }
    requires differs { from ≢ other }
    ensures { result ≡ rest_level trail.now.items other clause.now }
{
    let top = trail.level();
    match trail.level_of(from.unsigned_abs()) {
        Some(level) if level >= top => level,
        _ => level_of_rest(trail, clause, other),
    }
}

/// A literal of the clause on this level, other than the other watched one: `from` if it is on it,
/// else the first one. Where there is none, `from`.
pub(crate) fn on_level(trail: &Trail, clause: &[i32], level: u32, other: i32, from: i32) -> i32
    requires named { All (IsLiteralOf trail.now.variables) clause.now }
    requires among { has_literal clause.now from ≡ true }
    requires differs { from ≢ other }
    ensures among { has_literal clause.now result ≡ true }
    ensures differs { result ≢ other }
{
    if trail.level_of(from.unsigned_abs()) == Some(level) {
        return from;
    }
    for lit in clause {
        if *lit != other && trail.level_of(lit.unsigned_abs()) == Some(level) {
            return *lit;
        }
    }
    from
}
