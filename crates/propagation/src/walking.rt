//! The walk over the clauses that watch a literal, once it is false.
ghost use Rattle.std.specs.Prelude.{◌≡◌, ◌/◌, ◌<◌, true, false, length, MatchOption};
ghost use Rattle.chrono_trail.specs.Clauses.{is_false};
ghost use Rattle.sat_terms.specs.Literals.{IsLiteralOf};
ghost use Rattle.watch_lists.specs.Views.{Stands, lit_of};
ghost use Rattle.propagation.specs.Steps.{Propagates, IsFalseOf};
ghost use Rattle.propagation.specs.Walking.{IsReady, IsSameBut, IsVisited, IsPassed, IsNextFalse};

use crate::replacing::{on_level, replacement, true_level};
use crate::values::{is_false, is_true};
use chrono_trail::{Kind, Trail};
use clause_arena::Arena;
use watch_lists::{Watch, Watches};

/// Visits a clause of which one watched literal is false. Where the other one is not true, it
/// watches another literal, or else implies the other one, or is false. Where it implies it, it
/// watches a literal of the greatest level beside it, so that both go together.
fn visit(watches: &mut Watches, arena: &Arena, trail: &mut Trail, watch: Watch) -> bool
    requires ready { IsReady arena.now.clauses watches.old trail.old }
    requires stands { Stands watches.old watch.place }
    requires wrong { is_false trail.old.items (lit_of watches.old watch.place) ≡ true }
    ensures ready { IsReady arena.now.clauses watches.new trail.new }
    ensures steps { Propagates arena.now.clauses trail.old.items trail.new.items }
    ensures same { IsSameBut trail.old trail.new }
    ensures places { length watches.new.lits ≡ length watches.old.lits }
    ensures passed { result ≡ true → IsVisited watches.old watches.new trail.new.items watch.place }
    ensures conflict { result ≡ false
        → IsFalseOf arena.now.clauses trail.new.items (watch.place / 2) }
{
    let other = watches.other(watch);
    if is_true(trail, other) {
        return true;
    }
    let id = watch.clause();
    let clause = arena.lits(id);
    let from = watches.literal(watch);
    if let Some(lit) = replacement(trail, clause, other) {
        watches.move_watch(watch, lit);
        return true;
    }
    if is_false(trail, other) {
        return false;
    }
    let level = true_level(trail, clause, other, from);
    let highest = on_level(trail, clause, level, other, from);
    trail.assign(other, level, Kind::Implied(id));
    if highest != from {
        watches.move_watch(watch, highest);
    }
    true
}

/// Walks the list of a literal that became false. The clause that it stops at is false.
pub(crate) fn walk(watches: &mut Watches, arena: &Arena, trail: &mut Trail, lit: i32) -> Option<u32>
    requires ready { IsReady arena.now.clauses watches.old trail.old }
    requires named { IsLiteralOf trail.old.variables lit }
    requires wrong { is_false trail.old.items lit ≡ true }
    ensures ready { IsReady arena.now.clauses watches.new trail.new }
    ensures steps { Propagates arena.now.clauses trail.old.items trail.new.items }
    ensures same { IsSameBut trail.old trail.new }
    ensures places { length watches.new.lits ≡ length watches.old.lits }
    ensures outcome { MatchOption result (IsPassed watches.new trail.new.items lit)
        (IsFalseOf arena.now.clauses trail.new.items) }
{
    let mut at = watches.first(lit);
    while let Some(watch) = at {
        at = watches.after(watch);
        if !visit(watches, arena, trail, watch) {
            return Some(watch.clause());
        }
    }
    None
}

/// The literal that the first item without a mark makes false.
fn next_false(trail: &Trail) -> i32
    requires { trail.now.seen < length trail.now.items }
    ensures next { IsNextFalse trail.now result }
    ensures named { IsLiteralOf trail.now.variables result }
    ensures wrong { is_false trail.now.items result ≡ true }
{
    -trail.items()[trail.seen()].lit
}

/// Walks the list of the negation of each item that is not marked, and marks it then. The clause
/// that it stops at is false.
pub(crate) fn follow(watches: &mut Watches, arena: &Arena, trail: &mut Trail) -> Option<u32>
    requires ready { IsReady arena.now.clauses watches.old trail.old }
    ensures ready { IsReady arena.now.clauses watches.new trail.new }
    ensures steps { Propagates arena.now.clauses trail.old.items trail.new.items }
    ensures level { trail.new.level ≡ trail.old.level }
    ensures variables { trail.new.variables ≡ trail.old.variables }
    ensures places { length watches.new.lits ≡ length watches.old.lits }
    ensures outcome { MatchOption result (trail.new.seen ≡ length trail.new.items)
        (IsFalseOf arena.now.clauses trail.new.items) }
{
    while trail.seen() < trail.items().len() {
        let lit = next_false(trail);
        if let Some(id) = walk(watches, arena, trail, lit) {
            return Some(id);
        }
        trail.see(trail.seen() + 1);
    }
    None
}
