//! A writer of std as a sink: the trusted edge.
ghost use Rattle.std.specs.Prelude.{◌≡◌, ℕ, false};
ghost use Rattle.fault_io.specs.Sinks.{SinkView};

use crate::{Failed, MOST_TRIES, Sink};
use std::io::{ErrorKind, Write};

/// Passes bytes on to the writer, and tells what it tells, which over standard output is nothing. A
/// write of 0 bytes of a piece that has some is a fault. A call that std says was interrupted is
/// tried again, up to `MOST_TRIES` times in all.
#[derive(Drop)]
pub struct StdSink<W> {
    writer: W,
    faults: u64,
    finished: bool,
}

impl<W: Write> StdSink<W> {
    /// Takes no memory.
    pub fn make(writer: W) -> StdSink<W>
        ensures { ⟦<StdSink<W> as Sink>⟧.shows result ≡
            record { held = W.contents writer; faults = 0; finished = false } }
    {
        StdSink {
            writer,
            faults: 0,
            finished: false,
        }
    }
}

impl<W: Write> Sink for StdSink<W> {
    ghost shows = { λ s. record {
      held = W.contents s.writer;
      faults = s.faults;
      finished = s.finished;
    } };

    fn put(&mut self, piece: &[u8]) -> Result<usize, Failed> {
        if piece.is_empty() {
            return Ok(0);
        }
        for _ in 0..MOST_TRIES {
            match self.writer.write(piece) {
                Ok(taken) if taken > 0 => {
                    self.finished = false;
                    return Ok(taken);
                }
                Err(error) if error.kind() == ErrorKind::Interrupted => {}
                Ok(_) | Err(_) => break,
            }
        }
        self.faults = self.faults.saturating_add(1);
        Err(Failed)
    }

    fn finish(&mut self) -> Result<(), Failed> {
        for _ in 0..MOST_TRIES {
            match self.writer.flush() {
                Ok(()) => {
                    self.finished = true;
                    return Ok(());
                }
                Err(error) if error.kind() == ErrorKind::Interrupted => {}
                Err(_) => break,
            }
        }
        self.faults = self.faults.saturating_add(1);
        Err(Failed)
    }
}
