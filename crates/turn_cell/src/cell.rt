//! The cell: made with its passes, used in turns, and closed when the passes are back.
ghost use Rattle.std.specs.Prelude.{◌≡◌, ℕ, ◌<◌, ◌≤◌, List, [], ◌∷◌, length, map, All, Contains, IfOk, IfErr, Some, false, slice_get, vec_capacity};
ghost use mathlib.Core.List.{IsPrefix};
ghost use Rattle.turn_cell.specs.Rule.{IsTrueOf, entries_of, claim_count, first_view};
ghost use Rattle.turn_cell.specs.Passes.{IsPassOf, new_pass, IsDue, IsEntered, TookTurn, cell_view};
ghost use Rattle.turn_cell.specs.Steps.{IsSized};
ghost use Rattle.turn_cell.specs.declared.rule.Claim.{Claim};

use crate::journal::{Act, Journalled, act_once};
use crate::pass::Pass;
use crate::rule::{Board, Place, Start, Turns, View};
use crate::steps;
use atomic_table::{Refused, Table};
use std::alloc::{AllocError, AllocFailed, Global};
use std::marker::Model;
use std::snapshot::Snapshot;
use std::sync::Wait;

/// A value that threads use one after another. Contracts see which cell it is, for how many passes
/// it was made, and what its value never changes.
pub struct TurnCell<T: Journalled> {
    table: Top<T>,
}

type Top<T> = Table<
    Option<T>,
    View<<T as Journalled>::Entry, <T as Journalled>::Fixed>,
    Start<T>,
    Turns,
    Global,
>;

impl<T: Journalled> Model for TurnCell<T> {
    ghost use Rattle.turn_cell.specs.Passes.{CellView, cell_view, IsShared};

    ghost Value = { CellView T.Fixed };

    ghost view = { λ c. cell_view T.fixed c.table.shared.table_id c.table.shared.key };

    ghost invariant = { λ c. IsShared c.table.shared.table_id c.table.shared.key.passes };
}

impl<T: Journalled> TurnCell<T> {
    /// A cell that holds this value and has so many passes, numbered from 0. `Err` comes only for
    /// want of memory, and hands the value back.
    pub fn make(
        alloc: Global,
        value: T,
        passes: u32,
    ) -> Result<(TurnCell<T>, Vec<Pass<T>>), (T, AllocError)>
        requires some { 1 ≤ passes }
        requires few { passes ≤ 64 }
        requires empty { T.journal value ≡ [] }
        ensures size { IfOk result (λ r. r.0.passes ≡ passes) }
        ensures fixed { IfOk result (λ r. r.0.fixed ≡ T.fixed value) }
        ensures count { IfOk result (λ r. length r.1.items ≡ passes) }
        ensures passes { IfOk result (λ r. (k : ℕ) → k < passes
            → slice_get r.1.items k ≡ Some (new_pass r.0 k)) }
        ensures own { IfOk result (λ r. All (IsPassOf r.0) r.1.items) }
        ensures back { IfErr result (λ e. e.0 ≡ value) }
    {
        let list = match Vec::with_capacity(alloc, passes as usize) {
            Ok(list) => list,
            Err(_) => return Err((value, AllocError)),
        };
        let (table, seat) = open(alloc, value, passes)?;
        let list = deal(&table.shared, seat, list, passes);
        Ok((TurnCell { table }, list))
    }

    /// Waits for the pass's turn, calls `act` once on the value that is found, and passes the turn
    /// on.
    ///
    /// `act` has to be fit for every value that is due to the pass. It may add one entry to the
    /// journal, of the pass's number. Nothing says how long it waits, and it waits for ever where
    /// `act` of another pass does not return.
    pub fn turn<R: Wait, A: Act<T>>(&self, rt: &R, pass: &mut Pass<T>, act: A) -> A::Answer
        requires pass { IsPassOf self.now pass.old }
        requires can { (x : T) → IsDue T.journal T.pass_of T.fixed self.now pass.old x
            → A.can act x pass.old.number }
        requires adds { (x y : T) (answer : A.Answer)
            → IsDue T.journal T.pass_of T.fixed self.now pass.old x
            → A.does act x pass.old.number y answer
            → IsEntered T.journal T.pass_of T.fixed pass.old.number x y }
        ensures pass { IsPassOf self.now pass.new }
        ensures turn { TookTurn T.journal T.pass_of T.fixed (A.does act) self.now pass.old pass.new
            result }
    {
        let board = &self.table.shared;
        let number = pass.number;
        let seat = &mut pass.seat;
        let mut value = steps::start_turn(rt, board, seat);
        let (answer, count) = act_once(act, &mut value, number);
        steps::end_turn(board, seat, value, count);
        answer
    }

    /// The value, once all passes of the cell are back, in any order.
    pub fn close(self, mut passes: Vec<Pass<T>>) -> T
        requires own { All (IsPassOf self) passes.items }
        requires all { length passes.items ≡ self.passes }
        ensures seen { All (λ p. IsPrefix p.seen (T.journal result)) passes.items }
        ensures own { All (λ p. entries_of T.pass_of p.number (T.journal result) ≡ p.own)
            passes.items }
        ensures entries { All (λ e. Contains (map (λ p. p.number) passes.items) (T.pass_of e))
            (T.journal result) }
        ensures fixed { T.fixed result ≡ self.fixed }
    {
        let TurnCell { table } = self;
        let Some(last) = passes.pop() else {
            unreachable!()
        };
        let mut seat = last.into_seat();
        while let Some(pass) = passes.pop() {
            steps::take_over(&table.shared, &mut seat, pass.into_seat());
        }
        finish(table, seat)
    }
}

impl<T: Journalled + Drop> Drop for TurnCell<T> {
    fn drop(self) {
        let Self { table: _ } = self;
    }
}

/// The table with the value in its slot, and the first seat.
fn open<T: Journalled>(
    alloc: Global,
    value: T,
    passes: u32,
) -> Result<(Top<T>, Place<T>), (T, AllocError)>
    requires some { 1 ≤ passes }
    requires few { passes ≤ 64 }
    requires empty { T.journal value ≡ [] }
    ensures size { IfOk result (λ r. IsSized r.0.shared.table_id) }
    ensures passes { IfOk result (λ r. r.0.shared.key.passes ≡ passes) }
    ensures start { IfOk result (λ r. r.0.shared.key.value.value ≡ value) }
    ensures table { IfOk result (λ r. r.1.table_id ≡ r.0.shared.table_id) }
    ensures first { IfOk result (λ r. r.1.id ≡ 0) }
    ensures seat { IfOk result (λ r. r.1.me ≡ (first_view (T.fixed value), [])) }
    ensures back { IfErr result (λ e. e.0 ≡ value) }
{
    let start = Start {
        value: Snapshot::of(&value),
        passes,
    };
    let mut slots = Vec::new(alloc);
    if let Err(failed) = slots.push(Some(value)) {
        let AllocFailed { value } = failed;
        slots.destroy_empty();
        return Err((value.unwrap(), AllocError));
    }
    match Table::new(alloc, &[0, 0, 0], slots, &start) {
        Ok(made) => Ok(made),
        Err(refused) => Err((only(refused), AllocError)),
    }
}

/// The one value of the slots that came back.
fn only<T>(refused: Refused<Option<T>, Global>) -> T
    requires { (x : T) × (refused.slots.items ≡ Some x ∷ []) }
    ensures { refused.slots.items ≡ Some result ∷ [] }
{
    let Refused { mut slots } = refused;
    let Some(slot) = slots.pop() else {
        unreachable!()
    };
    slots.destroy_empty();
    slot.unwrap()
}

/// The passes, in the order of their numbers. The list has room for them.
fn deal<T: Journalled>(
    board: &Board<T>,
    mut seat: Place<T>,
    mut list: Vec<Pass<T>>,
    passes: u32,
) -> Vec<Pass<T>>
    requires table { seat.table_id ≡ board.now.table_id }
    requires sized { IsSized board.now.table_id }
    requires passes { board.now.key.passes ≡ passes }
    requires first { seat.id ≡ 0 }
    requires seat { seat.me ≡ (first_view (T.fixed board.now.key.value.value), []) }
    requires some { 1 ≤ passes }
    requires room { passes ≤ vec_capacity list }
    requires empty { list.items ≡ [] }
    ensures count { length result.items ≡ passes }
    ensures passes { (k : ℕ) → k < passes
        → slice_get result.items k
        ≡ Some (new_pass (cell_view T.fixed board.now.table_id board.now.key) k) }
{
    for number in 1..passes {
        let other = steps::split_off(board, &mut seat);
        let pass = Pass {
            number,
            seat: other,
        };
        if list.push(pass).is_err() {
            unreachable!()
        }
    }
    let first = Pass { number: 0, seat };
    if list.insert(0, first).is_err() {
        unreachable!()
    }
    list
}

/// Takes the value out of a table whose passes were all taken over by this seat.
fn finish<T: Journalled>(table: Top<T>, seat: Place<T>) -> T
    requires table { seat.table_id ≡ table.shared.table_id }
    requires sized { IsSized table.shared.table_id }
    requires all { length seat.me.0.claims ≡ table.shared.key.passes }
    requires no_turn { seat.me.0.turn ≡ false }
    ensures known { (c : Claim T.Entry) → Contains seat.me.0.claims c
        → IsTrueOf T.pass_of (T.journal result) c }
    ensures entries { All (λ e. 0 < claim_count (T.pass_of e) seat.me.0.claims) (T.journal result) }
    ensures fixed { T.fixed result ≡ T.fixed table.shared.key.value.value }
{
    let mut closed = table.close_with(seat);
    let slot = closed.take(0);
    closed.free();
    slot.unwrap()
}
