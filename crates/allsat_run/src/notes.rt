//! The line that a run puts on its notes.
ghost use Rattle.allsat_run.specs.Run.{Notes};
ghost use Rattle.std.specs.Fmt.{decimal};
ghost use Rattle.allsat_run.specs.Status.{note_of, refusal_text, counts_of, number_line};
ghost use Rattle.cube_text.specs.Buffered.{HandsIn};

use crate::Status;
use cube_text::Buffered;
use dimacs_front::TextRefused;
use fault_io::Sink;

/// Puts the line of the status on the notes; a finished run leaves them alone. Where they fail, a
/// front of the line is there, and nothing else comes of it.
pub fn write_note<N: Sink>(status: &Status, notes: &mut N)
    ensures { Notes N.shows notes.old notes.new status.now }
{
    if *status == Status::Finished {
        return;
    }
    let mut buffer = Buffered::make();
    put_note(status, &mut buffer, notes);
    let _ = buffer.close(notes);
}

/// Hands the line in.
fn put_note<N: Sink>(status: &Status, buffer: &mut Buffered, notes: &mut N)
    ensures { HandsIn N.shows notes.old buffer.old notes.new buffer.new (note_of status.now) }
{
    match status {
        Status::Finished => {}
        Status::WordsRefused => buffer.put(b"allsat: words refused\n", notes),
        Status::InputRefused(refused) => {
            buffer.put(b"allsat: input refused: ", notes);
            put_refusal(refused, buffer, notes);
        }
        Status::BudgetSpent => buffer.put(b"allsat: budget spent\n", notes),
        Status::OutOfMemory => buffer.put(b"allsat: out of memory\n", notes),
        Status::ReadFault(line) => {
            buffer.put(b"allsat: read fault line ", notes);
            put_number_line(*line, buffer, notes);
        }
        Status::WriteFault => buffer.put(b"allsat: write fault\n", notes),
        Status::CheckedNo(_) => buffer.put(b"allsat: check said no\n", notes),
    }
}

/// Hands in the number, the name and the line of a refusal, and the end of the line.
fn put_refusal<N: Sink>(refused: &TextRefused, buffer: &mut Buffered, notes: &mut N)
    ensures { HandsIn N.shows notes.old buffer.old notes.new buffer.new (refusal_text refused.now) }
{
    put_number(u64::from(refused.number()), buffer, notes);
    buffer.put(b" ", notes);
    buffer.put(refused.name().as_bytes(), notes);
    buffer.put(b" line ", notes);
    put_number(refused.line(), buffer, notes);
    put_counts(refused, buffer, notes);
    buffer.put(b"\n", notes);
}

/// Hands in both numbers of a refused number of clauses.
fn put_counts<N: Sink>(refused: &TextRefused, buffer: &mut Buffered, notes: &mut N)
    ensures { HandsIn N.shows notes.old buffer.old notes.new buffer.new (counts_of refused.now) }
{
    if let TextRefused::ClauseCount { said, found, .. } = refused {
        buffer.put(b" said ", notes);
        put_number(u64::from(*said), buffer, notes);
        buffer.put(b" found ", notes);
        put_number(u64::from(*found), buffer, notes);
    }
}

/// Hands in a number and the end of the line.
fn put_number_line<N: Sink>(number: u64, buffer: &mut Buffered, notes: &mut N)
    ensures { HandsIn N.shows notes.old buffer.old notes.new buffer.new (number_line number) }
{
    put_number(number, buffer, notes);
    buffer.put(b"\n", notes);
}

/// Hands in a number.
fn put_number<N: Sink>(number: u64, buffer: &mut Buffered, notes: &mut N)
    ensures { HandsIn N.shows notes.old buffer.old notes.new buffer.new (decimal number) }
{
    let mut digits = itoa::Buffer::new();
    buffer.put(digits.format(number).as_bytes(), notes);
}
