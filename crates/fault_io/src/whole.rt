//! A whole piece into a sink.
ghost use Rattle.fault_io.specs.Sinks.{TakesWhole};

use crate::{Failed, Sink};

/// A text did not go out whole.
#[derive(Clone, Copy, Debug, PartialEq, Eq)]
pub struct WriteFault;

/// Puts the piece into the sink, in as many calls as it takes, up to the first that fails.
pub fn write_whole<K: Sink>(piece: &[u8], out: &mut K) -> Result<(), WriteFault>
    ensures { TakesWhole (K.shows out.old) (K.shows out.new) piece.now result }
{
    let mut at = 0;
    while at < piece.len() {
        match out.put(&piece[at..]) {
            Ok(taken) => at += taken,
            Err(Failed) => return Err(WriteFault),
        }
    }
    Ok(())
}
