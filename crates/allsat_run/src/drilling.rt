//! The run of the drill: its subject is made from a number, and what is written is a summary.
ghost use Rattle.std.specs.Prelude.{◌≡◌, ◌≢◌, ◌≤◌, Some};
ghost use Rattle.fault_io.specs.Sinks.{TakesWhole};
ghost use Rattle.allsat_run.specs.Drilling.{SaysDrill, CompletesDrill, WritesDrill, drill_text};

use crate::search::{Searched, search};
use crate::{Ended, Status};
use checkpoint::write_saved;
use dimacs_front::Input;
use drill::{drill_subject, write_summary};
use fault_io::{Sink, WriteFault};
use region_book::ArrangedBook;
use std::alloc::Global;
use std::sync::Wait;
use std::thread::Threads;
use worker_loop::Gate;

/// Lists the drill of a size by so many workers, and writes what its models have in common. It takes
/// no input.
#[tactic(auto, using(crate::proofs::DrillEnds::drill_limits, crate::proofs::DrillEnds::drill_ends, crate::proofs::DrillEnds::drill_completes, crate::proofs::DrillEnds::no_words,))]
pub(crate) fn run_drill<R: Threads + Wait + Sync, K: Sink, G: Gate + Sync>(
    rt: &R,
    alloc: Global,
    size: u32,
    workers: u32,
    out: &mut K,
    gate: &G,
) -> Ended
    requires size { size ≤ 48 }
    requires some { 1 ≤ workers }
    requires few { workers ≤ 16 }
    ensures words { result.status ≢ Status.WordsRefused }
    ensures says { SaysDrill K.shows size out.old out.new result.status result.book }
    ensures complete { CompletesDrill K.shows out.old out.new result.status }
{
    let subject = match drill_subject(alloc, size) {
        Ok(subject) => subject,
        Err(_) => return Ended::alone(Status::OutOfMemory),
    };
    let input = Input {
        subject,
        saved: None,
        met: None,
    };
    match search(rt, alloc, input, workers, None, gate) {
        Ok(searched) => write_drill(searched, out),
        Err(_) => Ended::alone(Status::OutOfMemory),
    }
}

/// Writes the summary of the book, and finishes the output.
fn write_drill<K: Sink>(searched: Searched, out: &mut K) -> Ended
    ensures book { result.book ≡ Some searched.book }
    ensures written { WritesDrill (K.shows out.old) (K.shows out.new) searched.status
        searched.book result.status }
{
    let Searched { mut book, status } = searched;
    if write_drill_text(&mut book, out).is_err() || out.finish().is_err() {
        return Ended {
            status: Status::WriteFault,
            book: Some(book),
        };
    }
    Ended {
        status,
        book: Some(book),
    }
}

/// Writes the summary of the book, or its saved text where something is pending.
#[tactic(auto, unfolding(crate::specs::Drilling::drill_text))]
fn write_drill_text<K: Sink>(book: &mut ArrangedBook, out: &mut K) -> Result<(), WriteFault>
    ensures written { TakesWhole (K.shows out.old) (K.shows out.new) (drill_text book.old) result }
    ensures same { book.new ≡ book.old }
{
    if book.is_finished() {
        write_summary(book, out)
    } else {
        write_saved(book, out)
    }
}
