//! The whole run: words, then the input, then the enumeration, then the text of the book.
ghost use Rattle.std.specs.Prelude.{◌≡◌, ◌≢◌, ◌↔◌, ◌≤◌, None, Some};
ghost use Rattle.fault_io.specs.Sinks.{TakesWhole};
ghost use Rattle.allsat_run.specs.Run.{Answers, Completes, Notes, book_text};
ghost use Rattle.allsat_run.specs.Drilling.{AnswersCommand, CompletesCommand};
ghost use Rattle.allsat_run.specs.Searches.{WritesBook};
ghost use Rattle.command_words.specs.Commands.{command_of};

use crate::checking::check_alone;
use crate::drilling::run_drill;
use crate::reading::read_input;
use crate::search::{Searched, search, search_alone};
use crate::{Ended, Status, write_note};
use checkpoint::write_saved;
use command_words::{Command, Words, WordsFault, read_words};
use cube_text::write_listing;
use fault_io::{Sink, Source, WriteFault};
use region_book::ArrangedBook;
use std::alloc::Global;
use std::sync::Wait;
use std::thread::Threads;
use worker_loop::Gate;

/// Does all that the program does: reads the words, then the input, enumerates, and writes the
/// listing, or the saved text of a run that stopped, to `out`, and the line of the status to
/// `notes`. A drill takes no input, and its summary stands in place of the listing. A check writes
/// its verdict on a met text. `words` are the words after the program's name. One worker is the
/// calling thread, which then waits for nobody; of more workers each has a thread where one can be
/// had. All of them pass the gate, which changes nothing.
#[tactic(auto, using(dimacs_front::proofs::Taking::nothing_asked))]
pub fn run<R: Threads + Wait + Sync, S: Source, K: Sink, N: Sink, G: Gate + Sync>(
    rt: &R,
    alloc: Global,
    words: &Words,
    input: &mut S,
    out: &mut K,
    notes: &mut N,
    gate: &G,
) -> Ended
    ensures words { (result.status ≡ Status.WordsRefused) ↔ (command_of words.now ≡ None) }
    ensures answers { AnswersCommand S.shows K.shows (command_of words.now) input.old input.new
        out.old out.new result.status result.book }
    ensures complete { CompletesCommand S.shows K.shows (command_of words.now) input.old input.new
        out.old out.new result.status }
    ensures notes { Notes N.shows notes.old notes.new result.status }
{
    let ended = match read_words(alloc, words) {
        Ok(Command::Enumerate { workers, budget }) => {
            enumerate(rt, alloc, input, out, workers, budget, gate)
        }
        Ok(Command::Check) => check_alone(alloc, input, out),
        Ok(Command::Drill { size, workers }) => run_drill(rt, alloc, size, workers, out, gate),
        Err(WordsFault::Refused) => Ended::alone(Status::WordsRefused),
        Err(WordsFault::OutOfMemory) => Ended::alone(Status::OutOfMemory),
    };
    write_note(&ended.status, notes);
    ended
}

/// Reads the input, enumerates by so many workers, and writes the listing, or the saved text.
#[tactic(auto, using(crate::proofs::Unread::answers_unread, crate::proofs::Unread::completes_unread, crate::proofs::Unread::no_words))]
fn enumerate<R: Threads + Wait + Sync, S: Source, K: Sink, G: Gate + Sync>(
    rt: &R,
    alloc: Global,
    input: &mut S,
    out: &mut K,
    workers: u32,
    budget: Option<u64>,
    gate: &G,
) -> Ended
    requires some { 1 ≤ workers }
    requires few { workers ≤ 16 }
    ensures words { result.status ≢ Status.WordsRefused }
    ensures answers { Answers S.shows K.shows input.old input.new workers budget out.old out.new
        result.status result.book }
    ensures complete { Completes S.shows K.shows input.old input.new budget out.old out.new
        result.status }
{
    let input = match read_input(alloc, input) {
        Ok(input) => input,
        Err(status) => return Ended::alone(status),
    };
    match search(rt, alloc, input, workers, budget, gate) {
        Ok(searched) => write_out(searched, out),
        Err(_) => Ended::alone(Status::OutOfMemory),
    }
}

/// Reads the input, enumerates and writes the listing, or the saved text, on the calling thread. It
/// waits for nobody and always returns. The budget is a number of leaves, which no run goes beyond.
#[tactic(auto, using(crate::proofs::Unread::answers_unread, crate::proofs::Unread::completes_unread, crate::proofs::Unread::no_words))]
pub fn enumerate_alone<S: Source, K: Sink>(
    alloc: Global,
    input: &mut S,
    out: &mut K,
    budget: Option<u64>,
) -> Ended
    ensures words { result.status ≢ Status.WordsRefused }
    ensures answers { Answers S.shows K.shows input.old input.new 1 budget out.old out.new
        result.status result.book }
    ensures complete { Completes S.shows K.shows input.old input.new budget out.old out.new
        result.status }
{
    let input = match read_input(alloc, input) {
        Ok(input) => input,
        Err(status) => return Ended::alone(status),
    };
    match search_alone(alloc, input, budget) {
        Ok(searched) => write_out(searched, out),
        Err(_) => Ended::alone(Status::OutOfMemory),
    }
}

/// Writes the text of the book, and finishes the output.
fn write_out<K: Sink>(searched: Searched, out: &mut K) -> Ended
    ensures book { result.book ≡ Some searched.book }
    ensures written { WritesBook (K.shows out.old) (K.shows out.new) searched.status searched.book
        result.status }
{
    let Searched { mut book, status } = searched;
    if write_text(&mut book, out).is_err() || out.finish().is_err() {
        return Ended {
            status: Status::WriteFault,
            book: Some(book),
        };
    }
    Ended {
        status,
        book: Some(book),
    }
}

/// Writes the listing of the book, or its saved text where something is pending.
fn write_text<K: Sink>(book: &mut ArrangedBook, out: &mut K) -> Result<(), WriteFault>
    ensures written { TakesWhole (K.shows out.old) (K.shows out.new) (book_text book.old) result }
    ensures same { book.new ≡ book.old }
{
    if book.is_finished() {
        write_listing(book, out)
    } else {
        write_saved(book, out)
    }
}
