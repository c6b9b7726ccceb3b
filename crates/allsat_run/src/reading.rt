//! What a run reads: its input, or how it ends without one.
ghost use Rattle.std.specs.Prelude.{Ok, IfOk, IfErr};
ghost use Rattle.dimacs_front.specs.Answers.{ReadsText, TellsText, IsWithinLimits};
ghost use Rattle.dimacs_front.specs.Answers.{IsSavedOf, IsMetOf};
ghost use Rattle.allsat_run.specs.Reading.{EndsUnread};

use crate::Status;
use dimacs_front::{Input, ReadRefused, read_subject};
use fault_io::Source;
use std::alloc::Global;

/// Reads the input. Where it is refused, where it fails, and where there is no memory for it, the
/// answer is the status with which the run ends.
pub(crate) fn read_input<S: Source>(alloc: Global, input: &mut S) -> Result<Input, Status>
    ensures reads { IfOk result (λ said.
        ReadsText (S.shows input.old) (S.shows input.new) (Ok said)) }
    ensures told { IfOk result (λ said. TellsText (S.shows input.old).left (Ok said)) }
    ensures sizes { IfOk result IsWithinLimits }
    ensures saved { IfOk result (λ said.
        IsSavedOf said.subject.shown said.subject.under said.saved) }
    ensures met { IfOk result (λ said. IsMetOf said.subject.formula.variables
        said.subject.shown said.subject.under said.met) }
    ensures unread { IfErr result (EndsUnread (S.shows input.old) (S.shows input.new)) }
{
    match read_subject(alloc, input) {
        Ok(said) => Ok(said),
        Err(ReadRefused::Text(refused)) => Err(Status::InputRefused(refused)),
        Err(ReadRefused::ReadFault(line)) => Err(Status::ReadFault(line)),
        Err(ReadRefused::OutOfMemory(_)) => Err(Status::OutOfMemory),
    }
}
