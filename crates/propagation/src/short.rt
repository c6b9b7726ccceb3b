//! The clauses of no or one literal, which stand in no list.
ghost use Rattle.std.specs.Prelude.{◌≡◌, ◌<◌, length, slice_index_or, []};
ghost use Rattle.std.specs.List.{All};
ghost use Rattle.chrono_trail.specs.Trails.{IsTrail};
ghost use Rattle.sat_terms.specs.Literals.{IsLiteralOf};
ghost use Rattle.propagation.specs.Settled.{AreHeld};
ghost use Rattle.propagation.specs.Steps.{Propagates};
ghost use Rattle.propagation.specs.Walking.{IsSameBut, AreShort, IsShort, marks_after};

use chrono_trail::{Kind, Trail};
use clause_arena::Arena;

/// What the clauses of no or one literal came to.
#[derive(Clone, Copy, Debug)]
pub enum Short {
    /// Each is true at level 0, and stays so.
    Held,
    /// Each is true, some of them above level 0.
    Met,
    /// This one is false.
    Wrong(u32),
}

/// Marks no item, where some clause is true above level 0 only: the next call takes it up again.
pub(crate) fn unmark(trail: &mut Trail, short: Short)
    ensures { trail.new ≡ record trail.old { seen = marks_after short trail.old.seen } }
{
    if let Short::Met = short {
        trail.see(0);
    }
}

/// Takes one of these clauses up: its literal goes on level 0, where it is unassigned.
fn take_one(arena: &Arena, trail: &mut Trail, id: u32) -> Short
    requires trail { IsTrail trail.old.variables trail.old.items trail.old.level }
    requires known { id < length arena.now.clauses }
    requires named { All (IsLiteralOf trail.old.variables)
        (slice_index_or arena.now.clauses id []) }
    requires short { length (slice_index_or arena.now.clauses id []) < 2 }
    ensures trail { IsTrail trail.new.variables trail.new.items trail.new.level }
    ensures same { IsSameBut trail.old trail.new }
    ensures steps { Propagates arena.now.clauses trail.old.items trail.new.items }
    ensures outcome { IsShort arena.now.clauses trail.new.items id result }
{
    let clause = arena.lits(id);
    if clause.is_empty() {
        return Short::Wrong(id);
    }
    let lit = clause[0];
    match trail.item(lit.unsigned_abs()) {
        None => {
            trail.assign(lit, 0, Kind::Implied(id));
            Short::Held
        }
        Some(item) if item.lit != lit => Short::Wrong(id),
        Some(item) if item.level > 0 => Short::Met,
        Some(_) => Short::Held,
    }
}

/// Takes each of them up. Where items are marked, all are held already.
pub(crate) fn take_up(arena: &Arena, trail: &mut Trail) -> Short
    requires named { All (All (IsLiteralOf trail.old.variables)) arena.now.clauses }
    requires held { 0 < trail.old.seen → AreHeld arena.now.clauses trail.old.items }
    ensures trail { IsTrail trail.new.variables trail.new.items trail.new.level }
    ensures same { IsSameBut trail.old trail.new }
    ensures steps { Propagates arena.now.clauses trail.old.items trail.new.items }
    ensures outcome { AreShort arena.now.clauses trail.new.items result }
{
    if !trail.items()[..trail.seen()].is_empty() {
        return Short::Held;
    }
    let mut held = true;
    for id in 0..arena.len() {
        if arena.lits(id).len() < 2 {
            match take_one(arena, trail, id) {
                Short::Held => {}
                Short::Met => held = false,
                Short::Wrong(wrong) => return Short::Wrong(wrong),
            }
        }
    }
    if held { Short::Held } else { Short::Met }
}
