//! For tests: a source that makes its text while it is read, so that no test stores a long one.
ghost use Rattle.std.specs.Prelude.{None};
ghost use Rattle.fault_io.specs.Sources.{SourceView};

use fault_io::{Failed, Source};

/// Gives a front, then a piece so many times, then an end, as much at a call as there is room for.
/// It counts the bytes that it gave, and tells none.
#[derive(Drop)]
pub(crate) struct MadeText<'a> {
    open: &'a [u8],
    piece: &'a [u8],
    times: u64,
    end: &'a [u8],
    given: u64,
}

impl<'a> MadeText<'a> {
    /// A piece without bytes is left out.
    pub(crate) fn make(
        front: &'a [u8],
        piece: &'a [u8],
        times: u64,
        end: &'a [u8],
    ) -> MadeText<'a> {
        MadeText {
            open: front,
            piece,
            times: if piece.is_empty() { 0 } else { times },
            end,
            given: 0,
        }
    }

    /// How many bytes it gave.
    pub(crate) fn given(&self) -> u64 {
        self.given
    }

    /// Opens the next piece, or else the end.
    fn open_next(&mut self) {
        if self.times > 0 {
            self.times -= 1;
            self.open = self.piece;
        } else {
            self.open = self.end;
            self.end = &self.end[..0];
        }
    }

    /// Takes the next byte, if there is one.
    fn next_byte(&mut self) -> Option<u8> {
        if self.open.is_empty() {
            self.open_next();
        }
        if self.open.is_empty() {
            return None;
        }
        let byte = self.open[0];
        self.open = &self.open[1..];
        self.given = self.given.saturating_add(1);
        Some(byte)
    }
}

impl Source for MadeText<'_> {
    ghost shows = { λ _. record { left = None; faults = 0 } };

    fn take(&mut self, buf: &mut [u8]) -> Result<usize, Failed> {
        for at in 0..buf.len() {
            match self.next_byte() {
                Some(byte) => buf[at] = byte,
                None => return Ok(at),
            }
        }
        Ok(buf.len())
    }
}
