//! Propagation over random clauses, with lemmas learnt and levels taken back at any moment, against
//! a scan of all clauses.
ghost use Rattle.std.specs.Prelude.{◌≡◌, ◌+◌, ◌<◌, ◌≤◌, length, nat_abs, take, IfOk};
ghost use Rattle.std.specs.List.{All};
ghost use Rattle.sat_terms.specs.Literals.{IsLiteralOf};
ghost use Rattle.clause_arena.specs.Clauses.{HasDistinctVariables};
ghost use Rattle.propagation.specs.Settled.{IsSettled};

use crate::tests::{arena_of, formula_of};
use crate::{Propagated, Propagator};
use chrono_trail::Trail;
use clause_arena::Arena;
use std::alloc::{AllocError, Global};
use std::test::Fail;

/// Numbers in an order that looks random.
#[derive(Debug, Drop)]
struct Random {
    state: u32,
}

impl Random {
    /// A number below the end.
    fn below(&mut self, end: u32) -> u32
        requires { 0 < end }
        ensures { result < end }
    {
        self.state = self
            .state
            .wrapping_mul(1_664_525)
            .wrapping_add(1_013_904_223);
        (self.state >> 8) % end
    }

    /// A literal of this variable or the next one.
    fn literal(&mut self, variable: u32) -> i32
        requires some { 0 < variable }
        requires few { variable ≤ 5 }
        ensures low { variable ≤ nat_abs result }
        ensures high { nat_abs result ≤ variable + 1 }
    {
        let chosen = (variable + self.below(2)) as i32;
        if self.below(2) == 0 { chosen } else { -chosen }
    }
}

/// A literal of the variables 1 to 6.
fn any_literal(random: &mut Random) -> i32
    ensures { IsLiteralOf 6 result }
{
    let variable = 1 + random.below(5);
    random.literal(variable)
}

/// Four literals, repeated ones and pairs among them.
fn four_literals(random: &mut Random) -> [i32; 4]
    ensures { All (IsLiteralOf 6) result }
{
    let first = any_literal(random);
    let second = any_literal(random);
    let third = any_literal(random);
    [first, second, third, any_literal(random)]
}

/// The values of the variables 1 to 6: 1 for true, -1 for false, 0 for unassigned.
type Values = [i8; 7];

/// The value of a literal.
fn value_of(values: &Values, lit: i32) -> i8 {
    let value = values[lit.unsigned_abs() as usize % 7];
    if lit > 0 {
        value
    } else {
        0i8.wrapping_sub(value)
    }
}

/// The values that the trail says.
fn values_of(trail: &Trail) -> Values {
    let mut values = [0; 7];
    for item in trail.items() {
        values[item.lit.unsigned_abs() as usize % 7] = if item.lit > 0 { 1 } else { -1 };
    }
    values
}

/// Whether each literal of the clause is false.
fn is_wrong(values: &Values, clause: &[i32]) -> bool {
    let mut wrong = true;
    for lit in clause {
        wrong = wrong && value_of(values, *lit) < 0;
    }
    wrong
}

/// The one literal of the clause that is unassigned, where each other one is false; else 0.
fn unit_of(values: &Values, clause: &[i32]) -> i32 {
    let mut unit = 0;
    for lit in clause {
        let value = value_of(values, *lit);
        if value > 0 || value == 0 && unit != 0 && unit != *lit {
            return 0;
        }
        if value == 0 {
            unit = *lit;
        }
    }
    unit
}

/// Whether some clause is false.
fn has_wrong(arena: &Arena, values: &Values) -> bool {
    let mut wrong = false;
    for id in 0..arena.len() {
        wrong = wrong || is_wrong(values, arena.lits(id));
    }
    wrong
}

/// Makes true what some clause implies, one after another. Each of the six variables comes in once
/// at most.
fn close(arena: &Arena, values: &mut Values) {
    for _ in 0..6 {
        for id in 0..arena.len() {
            let unit = unit_of(values, arena.lits(id));
            values[unit.unsigned_abs() as usize % 7] = match unit.signum() {
                0 => 0,
                1 => 1,
                _ => -1,
            };
        }
        values[0] = 0;
    }
}

/// Whether propagation came to what the clauses say. A conflict names a false clause. Else none is
/// false, and at level 0, or where no level was taken back and no lemma came since the trail was
/// empty, the scan finds nothing that is not on the trail.
fn is_right(arena: &Arena, trail: &Trail, came: Propagated, whole: bool) -> bool {
    let values = values_of(trail);
    match came {
        Propagated::Conflict(id) => id < arena.len() && is_wrong(&values, arena.lits(id)),
        Propagated::Quiet => {
            let mut closed = values;
            if whole || trail.level() == 0 {
                close(arena, &mut closed);
            }
            closed == values && !has_wrong(arena, &values)
        }
    }
}

/// Propagates, and tells whether it came to what the clauses say.
fn runs_right(propagator: &mut Propagator, arena: &Arena, trail: &mut Trail, whole: bool) -> bool
    requires six { trail.old.variables ≡ 6 }
    requires own { propagator.old.variables ≡ 6 }
    requires clauses { All (All (IsLiteralOf 6)) arena.now.clauses }
    requires settled { IsSettled arena.now.clauses propagator.old trail.old }
    ensures six { trail.new.variables ≡ 6 }
    ensures own { propagator.new.variables ≡ 6 }
    ensures known { propagator.new.known ≡ propagator.old.known }
    ensures settled { IsSettled arena.now.clauses propagator.new trail.new }
{
    let came = propagator.propagate(arena, trail);
    is_right(arena, trail, came, whole)
}

/// Decides a literal, if it is unassigned, and propagates.
fn decides(
    propagator: &mut Propagator,
    arena: &Arena,
    trail: &mut Trail,
    lit: i32,
    whole: bool,
) -> bool
    requires six { trail.old.variables ≡ 6 }
    requires own { propagator.old.variables ≡ 6 }
    requires clauses { All (All (IsLiteralOf 6)) arena.now.clauses }
    requires settled { IsSettled arena.now.clauses propagator.old trail.old }
    requires literal { IsLiteralOf 6 lit }
    ensures six { trail.new.variables ≡ 6 }
    ensures own { propagator.new.variables ≡ 6 }
    ensures settled { IsSettled arena.now.clauses propagator.new trail.new }
{
    if trail.value(lit).is_some() {
        return runs_right(propagator, arena, trail, whole);
    }
    trail.decide(lit);
    runs_right(propagator, arena, trail, whole)
}

/// Takes levels back, and propagates.
fn backtracks(propagator: &mut Propagator, arena: &Arena, trail: &mut Trail, level: u32) -> bool
    requires six { trail.old.variables ≡ 6 }
    requires own { propagator.old.variables ≡ 6 }
    requires clauses { All (All (IsLiteralOf 6)) arena.now.clauses }
    requires settled { IsSettled arena.now.clauses propagator.old trail.old }
    requires level { level ≤ trail.old.level }
    ensures six { trail.new.variables ≡ 6 }
    ensures own { propagator.new.variables ≡ 6 }
    ensures settled { IsSettled arena.now.clauses propagator.new trail.new }
{
    trail.backtrack(level);
    runs_right(propagator, arena, trail, false)
}

/// Takes all items off, and propagates.
fn clears(propagator: &mut Propagator, arena: &Arena, trail: &mut Trail) -> bool
    requires six { trail.old.variables ≡ 6 }
    requires own { propagator.old.variables ≡ 6 }
    requires clauses { All (All (IsLiteralOf 6)) arena.now.clauses }
    requires settled { IsSettled arena.now.clauses propagator.old trail.old }
    ensures six { trail.new.variables ≡ 6 }
    ensures own { propagator.new.variables ≡ 6 }
    ensures settled { IsSettled arena.now.clauses propagator.new trail.new }
{
    trail.clear();
    runs_right(propagator, arena, trail, true)
}

/// Learns a lemma, where there is room for it, and propagates.
fn learns(
    propagator: &mut Propagator,
    arena: &mut Arena,
    trail: &mut Trail,
    lits: &[i32],
) -> Result<bool, AllocError>
    requires six { trail.old.variables ≡ 6 }
    requires own { propagator.old.variables ≡ 6 }
    requires clauses { All (All (IsLiteralOf 6)) arena.old.clauses }
    requires settled { IsSettled arena.old.clauses propagator.old trail.old }
    requires named { All (IsLiteralOf 6) lits.now }
    requires distinct { HasDistinctVariables lits.now }
    ensures six { IfOk result (λ _. trail.new.variables ≡ 6) }
    ensures own { IfOk result (λ _. propagator.new.variables ≡ 6) }
    ensures clauses { IfOk result (λ _. All (All (IsLiteralOf 6)) arena.new.clauses) }
    ensures settled { IfOk result (λ _. IsSettled arena.new.clauses propagator.new trail.new) }
{
    if !arena.has_room(lits.len()) {
        return Ok(runs_right(propagator, arena, trail, false));
    }
    let formula = arena.base();
    let id = arena.add(lits)?;
    prove!(formula <= id);
    takes_up(propagator, arena, trail, id);
    Ok(runs_right(propagator, arena, trail, false))
}

/// Takes the last lemma up. Without memory for it the lemma goes again, and the turns go on.
fn takes_up(propagator: &mut Propagator, arena: &mut Arena, trail: &mut Trail, id: u32)
    requires six { trail.old.variables ≡ 6 }
    requires own { propagator.old.variables ≡ 6 }
    requires clauses { All (All (IsLiteralOf 6)) arena.old.clauses }
    requires last { length arena.old.clauses ≡ id + 1 }
    requires lemma { arena.old.base ≤ id }
    requires next { id ≡ propagator.old.known }
    requires settled { IsSettled (take id arena.old.clauses) propagator.old trail.old }
    ensures six { trail.new.variables ≡ 6 }
    ensures own { propagator.new.variables ≡ 6 }
    ensures clauses { All (All (IsLiteralOf 6)) arena.new.clauses }
    ensures settled { IsSettled arena.new.clauses propagator.new trail.new }
{
    if propagator.learn(arena, trail, id).is_err() {
        arena.pop();
    }
}

/// One of four turns, and what propagation came to then.
fn turn(
    propagator: &mut Propagator,
    arena: &mut Arena,
    trail: &mut Trail,
    random: &mut Random,
    whole: &mut bool,
) -> Result<bool, AllocError>
    requires six { trail.old.variables ≡ 6 }
    requires own { propagator.old.variables ≡ 6 }
    requires clauses { All (All (IsLiteralOf 6)) arena.old.clauses }
    requires settled { IsSettled arena.old.clauses propagator.old trail.old }
    ensures six { IfOk result (λ _. trail.new.variables ≡ 6) }
    ensures own { IfOk result (λ _. propagator.new.variables ≡ 6) }
    ensures clauses { IfOk result (λ _. All (All (IsLiteralOf 6)) arena.new.clauses) }
    ensures settled { IfOk result (λ _. IsSettled arena.new.clauses propagator.new trail.new) }
{
    let start = 1 + random.below(5);
    let lit = random.literal(start);
    match random.below(9) {
        0 | 1 | 2 | 3 => return Ok(decides(propagator, arena, trail, lit, *whole)),
        4 => {
            *whole = false;
            let level = random.below(trail.level().saturating_add(1));
            return Ok(backtracks(propagator, arena, trail, level));
        }
        5 => {
            *whole = true;
            return Ok(clears(propagator, arena, trail));
        }
        _ => {}
    }
    *whole = false;
    let low = random.literal(1);
    let middle = random.literal(3);
    let high = random.literal(5);
    match random.below(6) {
        0 => learns(propagator, arena, trail, &[low, middle, high]),
        1 => learns(propagator, arena, trail, &[high, low, middle]),
        2 => learns(propagator, arena, trail, &[middle, high, low]),
        3 => learns(propagator, arena, trail, &[middle, low]),
        4 => learns(propagator, arena, trail, &[low, high]),
        _ => learns(propagator, arena, trail, &[middle]),
    }
}

/// How many of fifty turns from this number on go wrong. The formula has two clauses, of at most
/// four literals, repeated ones and pairs among them.
fn wrong_turns(alloc: Global, seed: u32) -> Result<u32, AllocError> {
    let mut random = Random { state: seed };
    let first = four_literals(&mut random);
    let second = four_literals(&mut random);
    let first_count = random.below(5) as usize;
    let second_count = random.below(5) as usize;
    let formula = formula_of(alloc, 6, &first[..first_count], &second[..second_count])?;
    let mut arena = arena_of(alloc, &formula)?;
    let mut trail = Trail::make(alloc, 6)?;
    let mut propagator = Propagator::make(alloc, &arena, 6)?;
    let mut whole = true;
    let mut wrong: u32 = 0;
    for _ in 0..50 {
        let right = turn(
            &mut propagator,
            &mut arena,
            &mut trail,
            &mut random,
            &mut whole,
        )?;
        if !right {
            wrong = wrong.saturating_add(1);
        }
    }
    Ok(wrong)
}

#[test]
fn random_turns_come_to_what_a_scan_finds(rt: HostRuntime) -> Result<(), Fail> {
    for seed in 0..100_000 {
        assert_eq!(rt; wrong_turns(rt.alloc(), seed)?, 0, "seed {seed}");
    }
    Ok(())
}
