//! A reader of std as a source: the trusted edge.
ghost use Rattle.std.specs.Prelude.{◌≡◌, ℕ};
ghost use Rattle.fault_io.specs.Sources.{SourceView};

use crate::{Failed, MOST_TRIES, Source};
use std::io::{ErrorKind, Read};

/// Passes on what the reader gives and tells, which over standard input is nothing. A call that std
/// says was interrupted is tried again, up to `MOST_TRIES` times in all.
#[derive(Drop)]
pub struct StdSource<R> {
    reader: R,
    faults: u64,
}

impl<R: Read> StdSource<R> {
    /// Takes no memory.
    pub fn make(reader: R) -> StdSource<R>
        ensures { ⟦<StdSource<R> as Source>⟧.shows result ≡
            record { left = R.remaining reader; faults = 0 } }
    {
        StdSource { reader, faults: 0 }
    }
}

impl<R: Read> Source for StdSource<R> {
    ghost shows = { λ s. record { left = R.remaining s.reader; faults = s.faults } };

    fn take(&mut self, buf: &mut [u8]) -> Result<usize, Failed> {
        for _ in 0..MOST_TRIES {
            match self.reader.read(buf) {
                Ok(taken) => return Ok(taken),
                Err(error) if error.kind() == ErrorKind::Interrupted => {}
                Err(_) => break,
            }
        }
        self.faults = self.faults.saturating_add(1);
        Err(Failed)
    }
}
