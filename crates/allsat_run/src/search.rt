//! The search of an input: its book is swept by one engine, or shared by several workers, and then
//! brought into order.
ghost use Rattle.std.specs.Prelude.{◌≤◌, IfOk};
ghost use Rattle.dimacs_front.specs.Answers.{IsWithinLimits, IsSavedOf};
ghost use Rattle.region_book.specs.Books.{state_of};
ghost use Rattle.worker_loop.specs.Sweeps.{IsBetweenJobs, GrowsFrom, EndsSweep, IsAllowed};
ghost use Rattle.allsat_run.specs.Run.{StaysWithin};
ghost use Rattle.allsat_run.specs.Searches.{Searches, EndsSearch};

use crate::Status;
use crate::sharing::search_shared;
use dimacs_front::Input;
use live_engine::Engine;
use region_book::{ArrangedBook, Book};
use std::alloc::{AllocError, Global};
use std::sync::Wait;
use std::thread::Threads;
use worker_loop::{Gate, Swept, sweep};

/// A book whose search has ended, and how.
#[derive(Drop)]
pub(crate) struct Searched {
    pub(crate) book: ArrangedBook,
    pub(crate) status: Status,
}

/// Searches an input by so many workers, until nothing is pending, as many leaves as the budget
/// says are searched, or there is no more memory. One worker is the calling thread alone. The
/// answer is an error where there was no memory to begin with.
pub(crate) fn search<R: Threads + Wait + Sync, G: Gate + Sync>(
    rt: &R,
    alloc: Global,
    input: Input,
    workers: u32,
    budget: Option<u64>,
    gate: &G,
) -> Result<Searched, AllocError>
    requires limits { IsWithinLimits input }
    requires saved { IsSavedOf input.subject.shown input.subject.under input.saved }
    requires some { 1 ≤ workers }
    requires few { workers ≤ 16 }
    ensures searches { IfOk result
        (λ searched. Searches input budget searched.status searched.book) }
    ensures within { IfOk result (λ searched. StaysWithin workers budget searched.book) }
{
    if workers == 1 {
        search_alone(alloc, input, budget)
    } else {
        search_shared(rt, alloc, input, workers, budget, gate)
    }
}

/// Searches an input on the calling thread, which waits for nobody.
pub(crate) fn search_alone(
    alloc: Global,
    input: Input,
    budget: Option<u64>,
) -> Result<Searched, AllocError>
    requires limits { IsWithinLimits input }
    requires saved { IsSavedOf input.subject.shown input.subject.under input.saved }
    ensures searches { IfOk result
        (λ searched. Searches input budget searched.status searched.book) }
    ensures within { IfOk result (λ searched. StaysWithin 1 budget searched.book) }
{
    let Input {
        subject,
        saved,
        met: _,
    } = input;
    let engine = Engine::make(alloc, &subject)?;
    let book = Book::make(alloc, subject, saved, 1)?;
    Ok(sweep_rest(book, engine, budget, false))
}

/// Sweeps what is pending in a book, unless some worker was refused memory before, and brings it
/// into order. Where nothing is pending the search has finished, whatever came before.
pub(crate) fn sweep_rest(
    mut book: Book,
    mut engine: Engine,
    budget: Option<u64>,
    was_refused: bool,
) -> Searched
    requires { IsBetweenJobs book engine }
    ensures { EndsSearch book budget result.status result.book }
{
    let swept = sweep_unless(was_refused, &mut book, &mut engine, budget);
    let _subject = book.subject();
    let book = book.arrange();
    let status = if book.is_finished() {
        Status::Finished
    } else if swept.is_ok() {
        Status::BudgetSpent
    } else {
        Status::OutOfMemory
    };
    Searched { book, status }
}

/// Sweeps the book, unless there was no memory before.
fn sweep_unless(
    was_refused: bool,
    book: &mut Book,
    engine: &mut Engine,
    budget: Option<u64>,
) -> Result<Swept, AllocError>
    requires { IsBetweenJobs book.old engine.old }
    ensures ends { IfOk result (EndsSweep budget book.new) }
    ensures allowed { IsAllowed budget (state_of book.old).spent →
        IsAllowed budget (state_of book.new).spent }
    ensures rests { IsBetweenJobs book.new engine.new }
    ensures grows { GrowsFrom book.old book.new }
{
    if was_refused {
        Err(AllocError)
    } else {
        sweep(book, engine, budget)
    }
}
