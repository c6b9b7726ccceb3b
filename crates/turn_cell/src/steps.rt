//! The steps of a turn, each with what it makes of the seat. What is told about the value found and
//! the value left stands in the contracts.
ghost use Rattle.std.specs.Prelude.{◌≡◌, ℕ, ◌<◌, [], ◌∷◌, length, Some, None, true, false};
ghost use Rattle.turn_cell.specs.Steps.{IsSized, IsSameSeat, first_claim, with_ticket, with_journal, without_turn, with_next_number, new_view, with_claims, Suits, TakesTurn, HasGrown, HoldsValue, HoldsGrown, HoldsKnown, HasEntered};

use crate::journal::Journalled;
use crate::rule::{Board, Draw, Enter, Gather, Look, Part, PassOn, Place};
use std::sync::Wait;
use std::thread;

/// Waits for the turn, and takes the value.
pub(crate) fn start_turn<T: Journalled, R: Wait>(rt: &R, board: &Board<T>, seat: &mut Place<T>) -> T
    requires table { seat.old.table_id ≡ board.now.table_id }
    requires sized { IsSized board.now.table_id }
    requires no_ticket { seat.old.me.0.ticket ≡ None }
    requires no_turn { seat.old.me.0.turn ≡ false }
    requires live { 0 < length seat.old.me.0.claims }
    requires holds_nothing { seat.old.me.1 ≡ [] }
    ensures seat { IsSameSeat seat.old seat.new }
    ensures turn { HasEntered T.journal result seat.old.me seat.new.me }
    ensures suits { Suits T.journal T.pass_of T.fixed seat.old.me.0 result }
{
    let ticket = draw(board, seat);
    wait_for(rt, board, seat, ticket);
    take_out(board, seat)
}

/// Puts the value back, with so many new entries, and passes the turn on.
pub(crate) fn end_turn<T: Journalled>(board: &Board<T>, seat: &mut Place<T>, value: T, count: u64)
    requires table { seat.old.table_id ≡ board.now.table_id }
    requires sized { IsSized board.now.table_id }
    requires turn { seat.old.me.0.turn ≡ true }
    requires empty { seat.old.me.1 ≡ (0, None) ∷ [] }
    requires one_claim { seat.old.me.0.claims ≡ first_claim seat.old.me.0.claims ∷ [] }
    requires value { HasGrown T.journal T.pass_of seat.old.me.0 count value }
    requires fixed { Some (T.fixed value) ≡ seat.old.me.0.fixed }
    ensures seat { IsSameSeat seat.old seat.new }
    ensures turn { seat.new.me ≡ (without_turn (with_journal (T.journal value) seat.old.me.0), []) }
{
    put_back(board, seat, value);
    enter(board, seat, count);
    pass_on(board, seat);
}

/// Draws a ticket.
fn draw<T: Journalled>(board: &Board<T>, seat: &mut Place<T>) -> u64
    requires table { seat.old.table_id ≡ board.now.table_id }
    requires sized { IsSized board.now.table_id }
    requires no_ticket { seat.old.me.0.ticket ≡ None }
    requires live { 0 < length seat.old.me.0.claims }
    ensures seat { IsSameSeat seat.old seat.new }
    ensures ticket { seat.new.me ≡ (with_ticket result seat.old.me.0, seat.old.me.1) }
{
    board.fetch_add::<Draw>(seat, 0, 1)
}

/// Waits until the ticket is served, and takes the slot.
fn wait_for<T: Journalled, R: Wait>(rt: &R, board: &Board<T>, seat: &mut Place<T>, ticket: u64)
    requires table { seat.old.table_id ≡ board.now.table_id }
    requires sized { IsSized board.now.table_id }
    requires ticket { seat.old.me.0.ticket ≡ Some ticket }
    requires no_turn { seat.old.me.0.turn ≡ false }
    ensures seat { IsSameSeat seat.old seat.new }
    ensures turn { TakesTurn T.journal T.pass_of T.fixed seat.old.me seat.new.me }
{
    for _ in rt.forever() {
        if board.load::<Look>(seat, 1) == ticket {
            return;
        }
        thread::yield_now();
    }
    unreachable!()
}

/// Takes the value out of the slot.
fn take_out<T: Journalled>(board: &Board<T>, seat: &mut Place<T>) -> T
    requires table { seat.old.table_id ≡ board.now.table_id }
    requires taken { HoldsValue seat.old.me }
    ensures seat { IsSameSeat seat.old seat.new }
    ensures value { seat.old.me.1 ≡ (0, Some result) ∷ [] }
    ensures empty { seat.new.me ≡ (seat.old.me.0, (0, None) ∷ []) }
{
    board.exchange(seat, 0, None).unwrap()
}

/// Puts a value into the slot. It comes before the entry is counted, since that step names the
/// journal by the value in the slot.
fn put_back<T: Journalled>(board: &Board<T>, seat: &mut Place<T>, value: T)
    requires table { seat.old.table_id ≡ board.now.table_id }
    requires empty { seat.old.me.1 ≡ (0, None) ∷ [] }
    ensures seat { IsSameSeat seat.old seat.new }
    ensures value { seat.new.me ≡ (seat.old.me.0, (0, Some value) ∷ []) }
{
    let slot = board.exchange(seat, 0, Some(value));
    let None = slot else { unreachable!() };
}

/// Counts the entries that were added.
fn enter<T: Journalled>(board: &Board<T>, seat: &mut Place<T>, count: u64)
    requires table { seat.old.table_id ≡ board.now.table_id }
    requires sized { IsSized board.now.table_id }
    requires turn { seat.old.me.0.turn ≡ true }
    requires one_claim { seat.old.me.0.claims ≡ first_claim seat.old.me.0.claims ∷ [] }
    requires back { HoldsGrown T.journal T.pass_of seat.old.me count }
    ensures seat { IsSameSeat seat.old seat.new }
    ensures journal { (y : T) → seat.old.me.1 ≡ (0, Some y) ∷ []
        → seat.new.me ≡ (with_journal (T.journal y) seat.old.me.0, seat.old.me.1) }
{
    board.fetch_add::<Enter>(seat, 2, count);
}

/// Gives the slot back, and lets the next ticket be served.
fn pass_on<T: Journalled>(board: &Board<T>, seat: &mut Place<T>)
    requires table { seat.old.table_id ≡ board.now.table_id }
    requires sized { IsSized board.now.table_id }
    requires turn { seat.old.me.0.turn ≡ true }
    requires live { 0 < length seat.old.me.0.claims }
    requires back { HoldsKnown T.journal T.fixed seat.old.me }
    ensures seat { IsSameSeat seat.old seat.new }
    ensures turn { seat.new.me ≡ (without_turn seat.old.me.0, []) }
{
    board.fetch_add::<PassOn>(seat, 1, 1);
}

/// Makes one more seat, for the next pass.
pub(crate) fn split_off<T: Journalled>(board: &Board<T>, seat: &mut Place<T>) -> Place<T>
    requires table { seat.old.table_id ≡ board.now.table_id }
    requires sized { IsSized board.now.table_id }
    requires first { seat.old.id ≡ 0 }
    requires live { 0 < length seat.old.me.0.claims }
    requires room { seat.old.me.0.made < board.now.key.passes }
    ensures seat { IsSameSeat seat.old seat.new }
    ensures first { seat.new.me ≡ (with_next_number seat.old.me.0, seat.old.me.1) }
    ensures table { result.table_id ≡ seat.old.table_id }
    ensures new { result.me ≡ (new_view seat.old.me.0, []) }
{
    board.split_seat::<Part>(seat)
}

/// Takes over what another seat knows, which has no ticket.
pub(crate) fn take_over<T: Journalled>(board: &Board<T>, seat: &mut Place<T>, other: Place<T>)
    requires table { seat.old.table_id ≡ board.now.table_id }
    requires other { other.table_id ≡ board.now.table_id }
    requires sized { IsSized board.now.table_id }
    requires no_ticket { other.me.0.ticket ≡ None }
    requires no_turn { other.me.0.turn ≡ false }
    requires holds_nothing { other.me.1 ≡ [] }
    requires live { 0 < length seat.old.me.0.claims }
    ensures seat { IsSameSeat seat.old seat.new }
    ensures claims { seat.new.me ≡ (with_claims seat.old.me.0 other.me.0, seat.old.me.1) }
{
    board.join_seat::<Gather>(seat, other);
}
