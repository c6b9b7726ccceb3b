//! A worker gives while it works: a part of its job goes back to the ledger, and its token on the
//! bench.
ghost use Rattle.std.specs.Prelude.{◌≡◌, ◌≢◌, List, ℤ, None, Some, IfOk, IfErr, length};
ghost use Rattle.region_ledger.specs.Hands.{subject_of, holding};
ghost use Rattle.worker_loop.specs.Workers.{IsAtWork, IsOffWork, LeavesToken, SharesUnder};

use crate::ending::drop_job;
use crate::gate::{Gate, Point};
use live_engine::Engine;
use prefix_jobs::{Number, Token};
use region_ledger::{Ledger, Pass};
use std::alloc::AllocError;
use std::sync::Wait;
use steal_pool::Bench;

/// Gives the lowest untried prefix away, if there is one, and tells under which number the job goes
/// on.
pub(crate) fn share<R: Wait, G: Gate>(
    rt: &R,
    engine: &mut Engine,
    ledger: &Ledger,
    pass: &mut Pass,
    bench: &mut Bench,
    gate: &G,
    number: Number,
    spent: &mut u64,
) -> Result<Number, AllocError>
    requires { IsAtWork ledger.now pass.old.number number pass.old engine.old }
    ensures kept { IfOk result
        (λ kept. IsAtWork ledger.now pass.old.number kept pass.new engine.new) }
    ensures shares { IfOk result (λ kept. SharesUnder engine.old.untried (length pass.new.seen)
        number kept bench.old bench.new) }
    ensures dropped { IfErr result
        (λ _. IsOffWork ledger.now pass.old.number pass.new engine.new) }
{
    let outcome = match engine.give() {
        Ok(Some(outcome)) => outcome,
        Ok(None) => return Ok(number),
        Err(error) => return Err(drop_job(rt, engine, ledger, pass, number, error)),
    };
    let said = match ledger.report(rt, pass, number, outcome) {
        Ok(said) => said,
        Err((_, error)) => return Err(drop_job(rt, engine, ledger, pass, number, error)),
    };
    *spent = said.spent;
    let Some(kept) = said.kept else {
        unreachable!()
    };
    leave_token(bench, kept.place);
    gate.at(pass.number(), Point::Given);
    Ok(kept)
}

/// Puts the token of the first prefix that a report gave away on the bench. Where there is no room
/// for it nothing is lost: the prefix is found by its number.
fn leave_token(bench: &mut Bench, place: u64)
    ensures { LeavesToken place bench.old bench.new }
{
    let number = Number { place, index: 0 };
    let _ = bench.put(Token { number });
}
