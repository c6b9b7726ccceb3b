//! The search of an input by several workers, which share one book.
ghost use Rattle.std.specs.Prelude.{◌≡◌, ◌<◌, ◌≤◌, [], IfOk, length, vec_capacity};
ghost use Rattle.std.specs.List.{All};
ghost use Rattle.dimacs_front.specs.Answers.{IsWithinLimits, IsSavedOf};
ghost use Rattle.region_book.specs.Books.{state_of};
ghost use Rattle.region_ledger.specs.Hands.{subject_of, IsFreeHand};
ghost use Rattle.worker_loop.specs.Sweeps.{AreUnheld};
ghost use Rattle.allsat_run.specs.Crews.{IsTool};
ghost use Rattle.allsat_run.specs.Searches.{Searches, EndsSearch, EndsShared};

use crate::crew::{Member, Toolkit, last_engine, make_tools, seat, unseat, work_all};
use crate::search::{Searched, sweep_rest};
use dimacs_front::Input;
use region_book::Book;
use region_ledger::{Ledger, Pass};
use std::alloc::{AllocError, Global};
use std::sync::Wait;
use std::thread::Threads;
use worker_loop::{Gate, Stop};

/// Searches an input by so many workers. All that they need is made before they begin; then memory
/// is refused to a worker alone, which ends, and the others go on. The answer is an error where
/// there was no memory for a book.
pub(crate) fn search_shared<R: Threads + Wait + Sync, G: Gate + Sync>(
    rt: &R,
    alloc: Global,
    input: Input,
    workers: u32,
    budget: Option<u64>,
    gate: &G,
) -> Result<Searched, AllocError>
    requires limits { IsWithinLimits input }
    requires saved { IsSavedOf input.subject.shown input.subject.under input.saved }
    requires some { 1 ≤ workers }
    requires few { workers ≤ 16 }
    ensures { IfOk result (λ searched. Searches input budget searched.status searched.book) }
{
    let Input {
        subject,
        saved,
        met: _,
    } = input;
    let tools = make_tools(alloc, &subject, workers)?;
    let members = Vec::with_capacity(alloc, workers as usize)?;
    let book = Book::make(alloc, subject, saved, workers)?;
    match Ledger::make(alloc, book, workers) {
        Ok((ledger, passes)) => Ok(share(rt, ledger, passes, tools, members, budget, gate)),
        Err((book, _)) => Ok(end_refused(book, tools, budget)),
    }
}

/// Lets the workers share the ledger, and closes it. What they leave pending is swept by the calling
/// thread, unless one of them was refused memory.
fn share<R: Threads + Wait + Sync, G: Gate + Sync>(
    rt: &R,
    ledger: Ledger,
    mut passes: Vec<Pass>,
    tools: Vec<Toolkit>,
    members: Vec<Member>,
    budget: Option<u64>,
    gate: &G,
) -> Searched
    requires free { All (IsFreeHand ledger) passes.items }
    requires all { length passes.items ≡ ledger.passes }
    requires some { 0 < length passes.items }
    requires tools { All (IsTool (subject_of ledger)) tools.items }
    requires even { length tools.items ≡ length passes.items }
    requires empty { members.items ≡ [] }
    requires room { length tools.items ≤ vec_capacity members }
    ensures { EndsShared ledger budget result.status result.book }
{
    let stop = Stop::make(budget);
    let mut members = seat(&ledger, &mut passes, tools, members);
    work_all(rt, &ledger, members.as_mut_slice(), gate, &stop);
    let (engine, was_refused) = unseat(&ledger, members, &mut passes);
    sweep_rest(ledger.close(passes), engine, budget, was_refused)
}

/// Ends a search that found no memory to share its book: what is pending stays so.
fn end_refused(book: Book, tools: Vec<Toolkit>, budget: Option<u64>) -> Searched
    requires unheld { AreUnheld (state_of book).pending }
    requires tools { All (IsTool book.subject) tools.items }
    requires some { 0 < length tools.items }
    ensures { EndsSearch book budget result.status result.book }
{
    let engine = last_engine(&book, tools);
    sweep_rest(book, engine, budget, true)
}
