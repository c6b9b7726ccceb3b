//! The run of the check: a met text is read, its cubes are checked, and the verdict is written.
ghost use Rattle.std.specs.Prelude.{◌≡◌, ◌≢◌};
ghost use Rattle.dimacs_front.specs.Answers.{IsWithinLimits, IsMetOf};
ghost use Rattle.allsat_run.specs.Checking.{AnswersCheck, CompletesCheck};
ghost use Rattle.allsat_run.specs.Checking.{ChecksInput, WritesVerdict};

use crate::reading::read_input;
use crate::{Ended, Status};
use cube_check::{Verdict, check_listing, write_verdict};
use dimacs_front::{Input, TextRefused};
use fault_io::{Sink, Source};
use std::alloc::Global;

/// Reads a met text, checks its cubes and writes the verdict, on the calling thread. Any other text
/// is refused.
#[tactic(auto, using(crate::proofs::Unread::check_unread, crate::proofs::Unread::check_completes_unread, crate::proofs::Unread::no_words))]
pub(crate) fn check_alone<S: Source, K: Sink>(alloc: Global, input: &mut S, out: &mut K) -> Ended
    ensures words { result.status ≢ Status.WordsRefused }
    ensures answers { AnswersCheck S.shows K.shows input.old input.new out.old out.new
        result.status result.book }
    ensures complete { CompletesCheck S.shows K.shows input.old input.new out.old out.new
        result.status }
{
    let input = match read_input(alloc, input) {
        Ok(input) => input,
        Err(status) => return Ended::alone(status),
    };
    Ended::alone(check_input(alloc, input, out))
}

/// Checks the cubes of the input and writes the verdict, where it is a met text.
fn check_input<K: Sink>(alloc: Global, input: Input, out: &mut K) -> Status
    requires limits { IsWithinLimits input }
    requires met { IsMetOf input.subject.formula.variables input.subject.shown
        input.subject.under input.met }
    ensures { ChecksInput K.shows input out.old out.new result }
{
    let Input {
        subject,
        saved: _,
        met,
    } = input;
    let Some(met) = met else {
        return Status::InputRefused(TextRefused::NoMetText { line: 1 });
    };
    match check_listing(alloc, &subject, met.as_slice()) {
        Ok(verdict) => write_out(verdict, out),
        Err(_) => Status::OutOfMemory,
    }
}

/// Writes the line of the verdict, and finishes the output.
fn write_out<K: Sink>(verdict: Verdict, out: &mut K) -> Status
    ensures { WritesVerdict (K.shows out.old) (K.shows out.new) verdict result }
{
    if write_verdict(verdict, out).is_err() || out.finish().is_err() {
        return Status::WriteFault;
    }
    match verdict {
        Verdict::Right => Status::Finished,
        verdict => Status::CheckedNo(verdict),
    }
}
