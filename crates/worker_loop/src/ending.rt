//! The two ends of a job: it is handed in, or it is dropped at want of memory. After each the
//! engine has no job, and the pass holds nothing.
ghost use Rattle.std.specs.Prelude.{◌≡◌, ◌≢◌, List, ℤ, None, Some};
ghost use Rattle.region_ledger.specs.Hands.{subject_of, holding};
ghost use Rattle.worker_loop.specs.Workers.{HasInHand, IsAtWork, IsOffWork, EndsOrNot};

use crate::allowance::is_spent;
use crate::stop::Stop;
use crate::worked::Worked;
use live_engine::Engine;
use prefix_jobs::Number;
use region_ledger::{Ledger, Pass};
use std::alloc::AllocError;
use std::sync::Wait;

/// Ends the job, and reports what came of it. Where the budget is spent with that, all workers are
/// asked to stop, and this one ends.
pub(crate) fn hand_in<R: Wait>(
    rt: &R,
    engine: &mut Engine,
    ledger: &Ledger,
    pass: &mut Pass,
    stop: &Stop,
    number: Number,
    spent: &mut u64,
) -> Option<Worked>
    requires { IsAtWork ledger.now pass.old.number number pass.old engine.old }
    ensures off { IsOffWork ledger.now pass.old.number pass.new engine.new }
    ensures ends { EndsOrNot ledger.now stop.now pass.new result }
{
    let outcome = match engine.expose() {
        Ok(outcome) => outcome,
        Err(error) => {
            let error = drop_job(rt, engine, ledger, pass, number, error);
            return Some(Worked::OutOfMemory(error));
        }
    };
    let said = match ledger.report(rt, pass, number, outcome) {
        Ok(said) => said,
        Err((_, error)) => {
            ledger.release(rt, pass, number);
            return Some(Worked::OutOfMemory(error));
        }
    };
    *spent = said.spent;
    if !is_spent(stop.budget(), said.spent) {
        return None;
    }
    stop.ask();
    Some(Worked::BudgetSpent)
}

/// Ends the job at want of memory, and gives its prefix back. What was found is lost. Hands the
/// error on.
pub(crate) fn drop_job<R: Wait>(
    rt: &R,
    engine: &mut Engine,
    ledger: &Ledger,
    pass: &mut Pass,
    number: Number,
    error: AllocError,
) -> AllocError
    requires holds { (c : List ℤ) × HasInHand ledger.now pass.old.number
        (holding pass.old.number number (Some c)) pass.old }
    requires runs { engine.old.job ≢ None }
    requires same { engine.old.subject ≡ subject_of ledger.now }
    ensures off { IsOffWork ledger.now pass.old.number pass.new engine.new }
{
    engine.abandon();
    ledger.release(rt, pass, number);
    error
}
