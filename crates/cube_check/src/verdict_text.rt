//! The text of a verdict.
ghost use Rattle.std.specs.Fmt.{decimal};
ghost use Rattle.dimacs_tokens.specs.Texts.{ended};
ghost use Rattle.fault_io.specs.Sinks.{TakesWhole};
ghost use Rattle.cube_text.specs.Buffered.{HandsIn};
ghost use Rattle.cube_check.specs.VerdictTexts.{places_line, verdict_text};

use crate::verdict::Verdict;
use cube_text::Buffered;
use fault_io::{Sink, WriteFault};

/// Writes the line of the verdict. It takes no memory, and does not finish the sink.
pub fn write_verdict<K: Sink>(verdict: Verdict, out: &mut K) -> Result<(), WriteFault>
    ensures { TakesWhole (K.shows out.old) (K.shows out.new) (verdict_text verdict) result }
{
    let mut buffer = Buffered::make();
    put_verdict(verdict, &mut buffer, out);
    buffer.close(out)
}

/// Hands in the line of the verdict.
fn put_verdict<K: Sink>(verdict: Verdict, buffer: &mut Buffered, out: &mut K)
    ensures { HandsIn K.shows out.old buffer.old out.new buffer.new (verdict_text verdict) }
{
    match verdict {
        Verdict::Right => buffer.put(b"s RIGHT\n", out),
        Verdict::NotMet { cube, clause } => put_places(b"s NOTMET", cube, clause, buffer, out),
        Verdict::Overlap { first, second } => put_places(b"s OVERLAP", first, second, buffer, out),
    }
}

/// Hands in a line of a word and two places.
fn put_places<K: Sink>(word: &[u8], i: usize, j: usize, buffer: &mut Buffered, out: &mut K)
    ensures { HandsIn K.shows out.old buffer.old out.new buffer.new
        (ended (places_line word.now i j)) }
{
    buffer.put(word, out);
    buffer.put(b" ", out);
    put_place(i, buffer, out);
    buffer.put(b" ", out);
    put_place(j, buffer, out);
    buffer.put(b"\n", out);
}

/// Hands in a place.
fn put_place<K: Sink>(place: usize, buffer: &mut Buffered, out: &mut K)
    ensures { HandsIn K.shows out.old buffer.old out.new buffer.new (decimal place) }
{
    let mut digits = itoa::Buffer::new();
    buffer.put(digits.format(place as u64).as_bytes(), out);
}
