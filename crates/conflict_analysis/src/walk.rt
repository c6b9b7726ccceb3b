//! The walk along the trail, from its newest item on.
ghost use Rattle.std.specs.Prelude.{◌≡◌, ◌+◌, ◌<◌, ◌≤◌, true, [], length, vec_capacity, slice_index_or};
ghost use Rattle.std.specs.List.{All};
ghost use Rattle.chrono_trail.specs.Items.{reason_id};
ghost use Rattle.chrono_trail.specs.Trails.{IsTrail};
ghost use Rattle.chrono_trail.specs.Reasons.{AreReasoned};
ghost use Rattle.chrono_trail.specs.Clauses.{is_false_clause};
ghost use Rattle.conflict_analysis.specs.Lemmas.{IsResolvent, asserted};
ghost use Rattle.conflict_analysis.specs.Marks.{mark_count};
ghost use Rattle.conflict_analysis.specs.Walks.{IsWalkable, IsWalk, turned_round};
ghost use Rattle.sat_terms.specs.Literals.{IsLiteralOf};
ghost use Rattle.sat_terms.specs.Cubes.{has_literal};

use crate::marks::mark_others;
use chrono_trail::{Kind, Trail};
use clause_arena::Arena;

/// The number of the clause by which an item of this kind stands.
fn reason_of(kind: Kind) -> Option<u32>
    ensures { result ≡ reason_id kind }
{
    match kind {
        Kind::Turned(id) | Kind::Implied(id) => Some(id),
        Kind::Assumed | Kind::Decided | Kind::Flipped => None,
    }
}

/// Visits the item at a place. Where its variable is marked, those of the other literals of its
/// reason are marked instead, or its negation is written down.
fn visit(
    marks: &mut Vec<bool>,
    lits: &mut Vec<i32>,
    arena: &Arena,
    trail: &Trail,
    id: u32,
    at: usize,
    left: u32,
) -> u32
    requires walkable { IsWalkable arena.now.clauses trail.now.variables trail.now.items
        trail.now.level }
    requires places { length marks.old.items ≡ trail.now.variables + 1 }
    requires room { length trail.now.items ≤ vec_capacity lits.old }
    requires walk { IsWalk arena.now.clauses trail.now.variables trail.now.items id (at + 1)
        marks.old.items lits.old.items left }
    ensures places { length marks.new.items ≡ length marks.old.items }
    ensures room { vec_capacity lits.new ≡ vec_capacity lits.old }
    ensures walk { IsWalk arena.now.clauses trail.now.variables trail.now.items id at
        marks.new.items lits.new.items result }
{
    let item = trail.items()[at];
    let variable = item.lit.unsigned_abs() as usize;
    if !marks[variable] {
        return left;
    }
    marks[variable] = false;
    match reason_of(item.kind) {
        Some(reason) => mark_others(marks, arena.lits(reason), item.lit, left - 1),
        None => {
            lits.push_reserved(-item.lit);
            left - 1
        }
    }
}

/// Writes down the clause that resolution comes to from clause `id`. It ends with the last mark.
pub(crate) fn walk(
    marks: &mut Vec<bool>,
    lits: &mut Vec<i32>,
    arena: &Arena,
    trail: &Trail,
    id: u32,
)
    requires named { All (All (IsLiteralOf trail.now.variables)) arena.now.clauses }
    requires reasoned { AreReasoned arena.now.clauses trail.now.items }
    requires inside { id < length arena.now.clauses }
    requires wrong { is_false_clause trail.now.items
        (slice_index_or arena.now.clauses id []) ≡ true }
    requires clean { mark_count marks.old.items ≡ 0 }
    requires places { length marks.old.items ≡ trail.now.variables + 1 }
    requires empty { lits.old.items ≡ [] }
    requires room { trail.now.variables ≤ vec_capacity lits.old }
    ensures clean { mark_count marks.new.items ≡ 0 }
    ensures places { length marks.new.items ≡ length marks.old.items }
    ensures room { vec_capacity lits.new ≡ vec_capacity lits.old }
    ensures trail { IsTrail trail.now.variables trail.now.items trail.now.level }
    ensures resolvent { IsResolvent arena.now.clauses trail.now.variables trail.now.items id
        lits.new.items }
{
    let mut at = trail.items().len();
    let mut left = mark_others(marks, arena.lits(id), 0, 0);
    while left > 0 {
        at -= 1;
        left = visit(marks, lits, arena, trail, id, at, left);
    }
}

/// Turns the literals behind the first two round. The walk writes them down by falling level, as
/// that of an item without a reason is the one that was current where it stands. So the two highest
/// levels come first, as they are to be watched, and the others rise.
pub(crate) fn settle(lits: &mut Vec<i32>)
    ensures lits { lits.new.items ≡ turned_round lits.old.items }
    ensures capacity { vec_capacity lits.new ≡ vec_capacity lits.old }
{
    if lits.len() > 2 {
        lits[2..].reverse();
    }
}

/// Whether the clause has the literal.
fn has(clause: &[i32], lit: i32) -> bool
    ensures { result ≡ has_literal clause.now lit }
{
    for other in clause {
        if *other == lit {
            return true;
        }
    }
    false
}

/// The negation of the decision of a level, where the clause has it.
pub(crate) fn asserted(trail: &Trail, clause: &[i32], level: u32) -> Option<i32>
    requires { level ≤ trail.now.level }
    ensures { result ≡ asserted trail.now.items level clause.now }
{
    let items = trail.items();
    if level == 0 {
        return None;
    }
    let negation = -items[trail.decision(level)].lit;
    if has(clause, negation) {
        Some(negation)
    } else {
        None
    }
}
