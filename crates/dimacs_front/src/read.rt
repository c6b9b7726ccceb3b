//! The loop over the source.
ghost use Rattle.std.specs.Prelude.{◌≡◌, ◌-◌, ◌<◌, ◌≤◌, length, vec_len, IfOk};
ghost use Rattle.dimacs_front.specs.Answers.{ReadsText, TellsText, IsWithinLimits};
ghost use Rattle.dimacs_front.specs.Answers.{IsSavedOf, IsMetOf};
ghost use Rattle.dimacs_front.specs.Pieces.{FeedsOn};

use crate::text_reader::TextReader;
use crate::{Input, MOST_BYTES, ReadRefused, TextRefused};
use fault_io::Source;
use std::alloc::{AllocError, Global};

/// The most bytes that are taken from the source at once.
const PIECE_SIZE: usize = 65_536;

/// Reads a text from the source, up to its end, or up to the piece in which a line is refused or
/// the text grows too long. Takes memory for the formula, for the variables of the show lines (each
/// once, and a byte for each number up to the largest), for the literals of the under lines, for
/// the cubes of a saved or a met text (each once), and for one buffer, whatever the length of the
/// lines and of the text.
pub fn read_subject<S: Source>(alloc: Global, source: &mut S) -> Result<Input, ReadRefused>
    ensures reads { ReadsText (S.shows source.old) (S.shows source.new) result }

    // What it is for all the bytes that the source had.
    ensures told { TellsText (S.shows source.old).left result }

    ensures sizes { IfOk result IsWithinLimits }

    // What a saved text has besides is over the same variables, within the given literals, and its
    // prefixes are few enough to be numbered.
    ensures saved { IfOk result (λ input.
        IsSavedOf input.subject.shown input.subject.under input.saved) }

    // What a met text has besides is a list of cubes over the same variables, within the given
    // literals, each with literals of hidden variables.
    ensures met { IfOk result (λ input. IsMetOf input.subject.formula.variables
        input.subject.shown input.subject.under input.met) }
{
    let mut buffer = zero_bytes(alloc, PIECE_SIZE)?;
    read_pieces(alloc, source, &mut buffer)
}

fn zero_bytes(alloc: Global, size: usize) -> Result<Vec<u8>, AllocError>
    ensures { IfOk result (λ v. vec_len v ≡ size) }
{
    vec![in alloc; 0u8; size]
}

/// Reads a text piece by piece.
fn read_pieces<S: Source>(
    alloc: Global,
    source: &mut S,
    buffer: &mut [u8],
) -> Result<Input, ReadRefused>
    requires some { 0 < length buffer.old }
    requires small { length buffer.old ≤ PIECE_SIZE }
    ensures { ReadsText (S.shows source.old) (S.shows source.new) result }
{
    let mut reader = TextReader::make(alloc);
    let mut count: usize = 0;
    loop {
        match source.take(buffer) {
            Err(_) => return Err(ReadRefused::ReadFault(reader.lines() + 1)),
            Ok(0) => return reader.finish(),
            Ok(taken) => match feed_next(&mut reader, count, &buffer[..taken]) {
                Ok(more) => count = more,
                Err(failed) => return Err(failed),
            },
        }
    }
}

/// Feeds the next piece, as far as the text may go on, and counts its bytes.
fn feed_next(reader: &mut TextReader, count: usize, piece: &[u8]) -> Result<usize, ReadRefused>
    requires within { count ≤ MOST_BYTES }
    requires lines { reader.old.state.lines ≤ count }
    ensures { FeedsOn reader.old count piece.now reader.new result }
{
    if piece.len() > MOST_BYTES - count {
        return feed_last(reader, count, piece);
    }
    reader.feed(piece)?;
    match reader.stopped() {
        Some(refusal) => Err(ReadRefused::Text(refusal)),
        None => Ok(count + piece.len()),
    }
}

/// Feeds what the text may still have of a piece that goes beyond.
fn feed_last(reader: &mut TextReader, count: usize, piece: &[u8]) -> Result<usize, ReadRefused>
    requires within { count ≤ MOST_BYTES }
    requires lines { reader.old.state.lines ≤ count }
    requires beyond { MOST_BYTES - count < length piece.now }
    ensures { FeedsOn reader.old count piece.now reader.new result }
{
    reader.feed(&piece[..MOST_BYTES - count])?;
    let refusal = match reader.stopped() {
        Some(refusal) => refusal,
        None => TextRefused::TextTooLong {
            line: reader.lines() + 1,
        },
    };
    Err(ReadRefused::Text(refusal))
}
