//! What a worker does next: the prefix of a token, or any other, or none is left.
ghost use Rattle.std.specs.Prelude.{◌≡◌, ℕ, [], IfOk, IfErr, List, Option, Some, ℤ};
ghost use Rattle.sat_terms.specs.Cubes.{IsCube};
ghost use Rattle.prefix_jobs.specs.declared.number.Number.{Number};
ghost use Rattle.region_ledger.specs.Hands.{subject_of};
ghost use Rattle.region_ledger.specs.Calls.{holding_any};
ghost use Rattle.worker_loop.specs.Workers.{HasInHand, held_next, IsNextFor};

use crate::allowance::is_spent;
use crate::stop::Stop;
use crate::worked::Worked;
use prefix_jobs::{Number, Token};
use region_book::{Progress, Taken};
use region_ledger::{Ledger, Pass};
use sat_terms::Cube;
use std::alloc::AllocError;
use std::sync::Wait;
use steal_pool::Bench;

/// What a worker does next.
#[derive(Debug, Drop)]
pub(crate) enum Next {
    /// It searches this prefix, which its pass holds under the number.
    Job(Number, Cube),
    /// It asks again: all that is pending is held by others.
    Hungry,
    /// It ends.
    Ends(Worked),
}

/// Looks for a job, where the budget is not spent.
pub(crate) fn find_next<R: Wait>(
    rt: &R,
    ledger: &Ledger,
    pass: &mut Pass,
    bench: &mut Bench,
    stop: &Stop,
) -> Next
    requires { HasInHand ledger.now pass.old.number [] pass.old }
    ensures holds { HasInHand ledger.now pass.old.number (held_next pass.old.number result)
        pass.new }
    ensures next { IsNextFor ledger.now stop.now pass.new result }
{
    if stop.asked() {
        let spent = ledger.spent(rt, pass);
        if is_spent(stop.budget(), spent) {
            return Next::Ends(Worked::BudgetSpent);
        }
    }
    match take_prefix(rt, ledger, pass, bench) {
        Ok(Some((number, prefix))) => Next::Job(number, prefix),
        Ok(None) => look_again(rt, ledger, pass),
        Err(error) => Next::Ends(Worked::OutOfMemory(error)),
    }
}

/// Where nothing could be taken: whether all is done, or others hold something.
fn look_again<R: Wait>(rt: &R, ledger: &Ledger, pass: &mut Pass) -> Next
    requires { HasInHand ledger.now pass.old.number [] pass.old }
    ensures holds { HasInHand ledger.now pass.old.number (held_next pass.old.number result)
        pass.new }
    ensures next { (budget : Option ℕ) → IsNextFor ledger.now budget pass.new result }
{
    match ledger.state(rt, pass) {
        Progress::Finished => Next::Ends(Worked::Finished),
        Progress::HeldByOthers(_) | Progress::Unheld(_) => Next::Hungry,
    }
}

/// Takes the prefix of a token, if it finds one whose prefix is still there, or else that of the
/// lowest number. None where nobody may take one.
fn take_prefix<R: Wait>(
    rt: &R,
    ledger: &Ledger,
    pass: &mut Pass,
    bench: &mut Bench,
) -> Result<Option<(Number, Cube)>, AllocError>
    requires { HasInHand ledger.now pass.old.number [] pass.old }
    ensures holds { IfOk result (λ taken.
        HasInHand ledger.now pass.old.number (holding_any pass.old.number taken) pass.new) }
    ensures cube { IfOk result (λ taken. (n : Number) (c : List ℤ) → taken ≡ Some (n, c)
        → IsCube (subject_of ledger.now).shown c) }
    ensures nothing { IfErr result (λ _. HasInHand ledger.now pass.old.number [] pass.new) }
{
    if let Some(token) = find_token(rt, bench) {
        let number = token.number;
        if let Taken::Held(prefix) = ledger.take(rt, pass, number)? {
            return Ok(Some((number, prefix)));
        }
    }
    ledger.take_any(rt, pass)
}

/// The newest token of its own bench, or else the oldest of another.
fn find_token<R: Wait>(rt: &R, bench: &mut Bench) -> Option<Token> {
    match bench.own() {
        Some(token) => Some(token),
        None => bench.steal(rt),
    }
}
