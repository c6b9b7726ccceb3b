//! The sweep: one pass takes the prefixes of a book in turn, the lowest number first, and searches
//! each of them by one engine.
ghost use Rattle.std.specs.Prelude.{◌≡◌, ◌≢◌, ◌<◌, ◌≤◌, ◌↔◌, true, false, None, [], IfOk, IfErr};
ghost use Rattle.std.specs.List.{All};
ghost use Rattle.sat_terms.specs.Cubes.{IsCube};
ghost use Rattle.region_book.specs.Books.{state_of};
ghost use Rattle.worker_loop.specs.Sweeps.{AreUnheld, IsBetweenJobs, GrowsFrom, EndsSweep};
ghost use Rattle.worker_loop.specs.Sweeps.{IsAllowed, is_spent};
ghost use Rattle.worker_loop.specs.Jobs.{spent_with, HoldsOnly, IsInJob, TakesOne, HandsOver};
ghost use Rattle.worker_loop.specs.Jobs.{HasCome, pending_weight};

use crate::allowance::{is_spent, spent_with};
use crate::cutting::{forget_long, has_learnt_much};
use live_engine::{Engine, Leaf};
use prefix_jobs::Number;
use region_book::{Book, Progress};
use sat_terms::Cube;
use std::alloc::AllocError;

/// The number of the pass that sweeps.
const SWEEPER: u32 = 0;

/// How a sweep ended.
#[derive(Clone, Copy, Debug, PartialEq, Eq)]
pub enum Swept {
    /// Nothing is pending.
    Finished,
    /// The allowance is spent, and something is pending.
    BudgetSpent,
}

/// Searches what is pending, one prefix after another, until nothing is, or until as many leaves
/// are spent in all as the allowance says; the search that comes to it is cut off, and what it has
/// left open is pending. So is a search that has learnt much, whose rest is searched later. So it
/// is at want of memory; where there is none left for that either, what the last search found is
/// lost, and its prefix is pending as before.
pub fn sweep(
    book: &mut Book,
    engine: &mut Engine,
    allowance: Option<u64>,
) -> Result<Swept, AllocError>
    requires { IsBetweenJobs book.old engine.old }
    ensures ends { IfOk result (EndsSweep allowance book.new) }
    ensures allowed { IsAllowed allowance (state_of book.old).spent →
        IsAllowed allowance (state_of book.new).spent }
    ensures untouched { is_spent allowance (state_of book.old).spent ≡ true →
        book.new ≡ book.old }
    ensures rests { IsBetweenJobs book.new engine.new }
    ensures grows { GrowsFrom book.old book.new }
{
    while !is_spent(allowance, book.spent()) {
        let Some((number, prefix)) = take_lowest(book)? else {
            return Ok(Swept::Finished);
        };
        forget_long(engine);
        search_taken(book, engine, allowance, number, &prefix)?;
    }
    Ok(end_spent(book))
}

/// How a sweep ends once the allowance is spent.
fn end_spent(book: &Book) -> Swept
    ensures finished { (result ≡ Swept.Finished) ↔ ((state_of book.now).pending ≡ []) }
{
    match book.state() {
        Progress::Finished => Swept::Finished,
        Progress::HeldByOthers(_) | Progress::Unheld(_) => Swept::BudgetSpent,
    }
}

/// Takes the pending prefix of the lowest number. None where none is pending.
fn take_lowest(book: &mut Book) -> Result<Option<(Number, Cube)>, AllocError>
    requires { AreUnheld (state_of book.old).pending }
    ensures takes { IfOk result (TakesOne book.old book.new) }
    ensures unchanged { IfErr result (λ _. book.new ≡ book.old) }
{
    has_cubes(book);
    book.take_any(SWEEPER)
}

/// A book is for some pass, and its pending prefixes are cubes over the shown variables. Nothing
/// is done.
fn has_cubes(book: &Book)
    ensures pass { 1 ≤ book.now.passes }
    ensures cubes { All (λ q. IsCube book.now.subject.shown q.prefix) (state_of book.now).pending }
{
    let _subject = book.subject();
    let _journal = book.journal();
}

/// Searches the prefix that was taken, and reports what came of it.
fn search_taken(
    book: &mut Book,
    engine: &mut Engine,
    allowance: Option<u64>,
    number: Number,
    prefix: &Cube,
) -> Result<(), AllocError>
    requires holds { HoldsOnly 0 number prefix.now (state_of book.old).pending }
    requires cube { IsCube book.old.subject.shown prefix.now }
    requires idle { engine.old.job ≡ None }
    requires same { engine.old.subject ≡ book.old.subject }
    requires pass { 1 ≤ book.old.passes }
    requires unspent { is_spent allowance (state_of book.old).spent ≡ false }
    ensures less { IfOk result (λ _. pending_weight book.new < pending_weight book.old) }
    ensures allowed { IsAllowed allowance (state_of book.new).spent }
    ensures rests { IsBetweenJobs book.new engine.new }
    ensures grows { GrowsFrom book.old book.new }
{
    if let Err(error) = engine.start(prefix) {
        book.release(SWEEPER, number);
        return Err(error);
    }
    // At want of memory what was found so far is handed in all the same, if that can be done.
    let searched = search(engine, allowance, book.spent());
    hand_in(book, engine, number)?;
    searched
}

/// Goes on with the job from leaf to leaf, until nothing is left to try, the allowance is spent, or
/// the job is to be cut up.
fn search(engine: &mut Engine, allowance: Option<u64>, spent: u64) -> Result<(), AllocError>
    requires runs { engine.old.job ≢ None }
    requires unspent { is_spent allowance (spent_with spent engine.old.leaves) ≡ false }
    ensures comes { IfOk result (λ _. HasCome engine.new) }
    ensures allowed { IsAllowed allowance (spent_with spent engine.new.leaves) }
    ensures job { engine.new.job ≡ engine.old.job }
    ensures subject { engine.new.subject ≡ engine.old.subject }
{
    let before = engine.lemmas();
    while engine.leaf()? != Leaf::Ended {
        let is_over = is_spent(allowance, spent_with(spent, engine.leaves()));
        if is_over || has_learnt_much(engine, before) {
            return Ok(());
        }
    }
    Ok(())
}

/// Ends the job, and reports what came of it.
fn hand_in(book: &mut Book, engine: &mut Engine, number: Number) -> Result<(), AllocError>
    requires job { IsInJob book.old engine.old number }
    requires pass { 1 ≤ book.old.passes }
    ensures reports { IfOk result (λ _. HandsOver book.old book.new engine.old) }
    ensures spent { IfErr result (λ _. (state_of book.new).spent ≡ (state_of book.old).spent) }
    ensures rests { IsBetweenJobs book.new engine.new }
    ensures grows { GrowsFrom book.old book.new }
{
    let outcome = match engine.expose() {
        Ok(outcome) => outcome,
        Err(error) => return Err(give_up(book, engine, number, error)),
    };
    if let Err((_, error)) = book.report(SWEEPER, number, outcome) {
        book.release(SWEEPER, number);
        return Err(error);
    }
    Ok(())
}

/// Ends the job at want of memory, and gives the prefix back. What was found is lost. Hands the
/// error on.
fn give_up(book: &mut Book, engine: &mut Engine, number: Number, error: AllocError) -> AllocError
    requires job { IsInJob book.old engine.old number }
    requires pass { 1 ≤ book.old.passes }
    ensures spent { (state_of book.new).spent ≡ (state_of book.old).spent }
    ensures rests { IsBetweenJobs book.new engine.new }
    ensures grows { GrowsFrom book.old book.new }
{
    engine.abandon();
    book.release(SWEEPER, number);
    error
}
