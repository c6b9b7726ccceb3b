//! A worker: it takes prefixes from the ledger and searches them, until nothing is pending, the
//! budget is spent, or there is no memory.
ghost use Rattle.std.specs.Prelude.{◌≡◌, ◌≢◌, Some, None, IfOk, IfErr};
ghost use Rattle.sat_terms.specs.Cubes.{IsCube};
ghost use Rattle.region_ledger.specs.Hands.{subject_of, holding};
ghost use Rattle.worker_loop.specs.Workers.{HasInHand, IsAtWork, IsOffWork, EndsWork, EndsOrNot};

use crate::allowance::{is_spent, spent_with};
use crate::cutting::{forget_long, has_learnt_much};
use crate::ending::{drop_job, hand_in};
use crate::fetching::{fetch_lemmas, send_lemmas};
use crate::gate::{Gate, Point};
use crate::giving::share;
use crate::next::{Next, find_next};
use crate::stop::Stop;
use crate::worked::Worked;
use clause_exchange::Post;
use live_engine::{Engine, Leaf};
use prefix_jobs::Number;
use region_ledger::{Ledger, Pass};
use sat_terms::Cube;
use std::alloc::AllocError;
use std::sync::Wait;
use std::thread;
use steal_pool::Bench;

/// So often a hungry worker looks for a token before it asks the ledger again.
const MOST_LOOKS: u32 = 32;

/// Works with the others that share the ledger, the pool, the exchange, the gate and the stop.
///
/// It searches one prefix after another. Where another worker is hungry it gives a part of its own
/// away. It stops early where all are asked to: a job that it is in is handed in as far as it came.
/// Nothing says how long it waits, and which jobs it gets; it waits for ever where a worker that
/// holds a prefix does not go on.
pub fn work<R: Wait, G: Gate>(
    rt: &R,
    engine: &mut Engine,
    ledger: &Ledger,
    pass: &mut Pass,
    bench: &mut Bench,
    post: &mut Post,
    gate: &G,
    stop: &Stop,
) -> Worked
    requires { IsOffWork ledger.now pass.old.number pass.old engine.old }
    ensures off { IsOffWork ledger.now pass.old.number pass.new engine.new }
    ensures ends { EndsWork ledger.now stop.now pass.new result }
{
    let worker = pass.number();
    gate.at(worker, Point::Begun);
    let worked = do_jobs(rt, engine, ledger, pass, bench, post, gate, stop);
    bench.hungry(false);
    gate.at(worker, Point::Ended);
    worked
}

/// One job after another.
fn do_jobs<R: Wait, G: Gate>(
    rt: &R,
    engine: &mut Engine,
    ledger: &Ledger,
    pass: &mut Pass,
    bench: &mut Bench,
    post: &mut Post,
    gate: &G,
    stop: &Stop,
) -> Worked
    requires { IsOffWork ledger.now pass.old.number pass.old engine.old }
    ensures off { IsOffWork ledger.now pass.old.number pass.new engine.new }
    ensures ends { EndsWork ledger.now stop.now pass.new result }
{
    let mut spent = 0;
    for _ in rt.forever() {
        match find_next(rt, ledger, pass, bench, stop) {
            Next::Job(number, prefix) => {
                bench.hungry(false);
                if let Err(error) = begin_job(rt, engine, post, &prefix) {
                    ledger.release(rt, pass, number);
                    return Worked::OutOfMemory(error);
                }
                if let Some(worked) = do_job(
                    rt, engine, ledger, pass, bench, post, gate, stop, number, &mut spent,
                ) {
                    return worked;
                }
            }
            Next::Hungry => {
                bench.hungry(true);
                await_token(rt, bench);
            }
            Next::Ends(worked) => return worked,
        }
    }
    unreachable!()
}

/// Lets the others go on until one of them has left a token, for a while at most. The token lies on
/// its own bench then; where that has no room it is lost, and its prefix is found by its number.
fn await_token<R: Wait>(rt: &R, bench: &mut Bench) {
    for _ in 0..MOST_LOOKS {
        thread::yield_now();
        if let Some(token) = bench.steal(rt) {
            let _ = bench.put(token);
            return;
        }
    }
}

/// Starts a job, with what the others sent.
fn begin_job<R: Wait>(
    rt: &R,
    engine: &mut Engine,
    post: &mut Post,
    prefix: &Cube,
) -> Result<(), AllocError>
    requires idle { engine.old.job ≡ None }
    requires cube { IsCube engine.old.subject.shown prefix.now }
    ensures started { IfOk result (λ _. engine.new.job ≡ Some prefix.now) }
    ensures idle { IfErr result (λ _. engine.new.job ≡ None) }
    ensures same { engine.new.subject ≡ engine.old.subject }
{
    forget_long(engine);
    fetch_lemmas(rt, engine, post)?;
    engine.start(prefix)
}

/// Goes on with the job from leaf to leaf, until it is handed in or there is no memory. Where it
/// has learnt much it is handed in with what it left open. `spent` is what the last report of this
/// worker answered.
fn do_job<R: Wait, G: Gate>(
    rt: &R,
    engine: &mut Engine,
    ledger: &Ledger,
    pass: &mut Pass,
    bench: &mut Bench,
    post: &mut Post,
    gate: &G,
    stop: &Stop,
    mut number: Number,
    spent: &mut u64,
) -> Option<Worked>
    requires { IsAtWork ledger.now pass.old.number number pass.old engine.old }
    ensures off { IsOffWork ledger.now pass.old.number pass.new engine.new }
    ensures ends { EndsOrNot ledger.now stop.now pass.new result }
{
    let before = engine.lemmas();
    for _ in rt.forever() {
        let leaf = match engine.leaf() {
            Ok(leaf) => leaf,
            Err(error) => {
                let error = drop_job(rt, engine, ledger, pass, number, error);
                return Some(Worked::OutOfMemory(error));
            }
        };
        if leaf == Leaf::Ended {
            return hand_in(rt, engine, ledger, pass, stop, number, spent);
        }
        match leave_leaf(rt, engine, ledger, pass, bench, post, gate, number, spent) {
            Ok(kept) => number = kept,
            Err(error) => return Some(Worked::OutOfMemory(error)),
        }
        let is_over = stop.asked() || is_spent(stop.budget(), spent_with(*spent, engine.leaves()));
        if is_over || has_learnt_much(engine, before) {
            return hand_in(rt, engine, ledger, pass, stop, number, spent);
        }
    }
    unreachable!()
}

/// What a worker does for the others at a leaf: it sends its lemmas, and gives where one is hungry
/// and what it gave before is taken. Tells under which number the job goes on.
fn leave_leaf<R: Wait, G: Gate>(
    rt: &R,
    engine: &mut Engine,
    ledger: &Ledger,
    pass: &mut Pass,
    bench: &mut Bench,
    post: &mut Post,
    gate: &G,
    number: Number,
    spent: &mut u64,
) -> Result<Number, AllocError>
    requires { IsAtWork ledger.now pass.old.number number pass.old engine.old }
    ensures kept { IfOk result
        (λ kept. IsAtWork ledger.now pass.old.number kept pass.new engine.new) }
    ensures dropped { IfErr result
        (λ _. IsOffWork ledger.now pass.old.number pass.new engine.new) }
{
    gate.at(pass.number(), Point::Leaf);
    send_lemmas(engine, post);
    if !bench.anyone_hungry() || !bench.is_empty() {
        return Ok(number);
    }
    share(rt, engine, ledger, pass, bench, gate, number, spent)
}
