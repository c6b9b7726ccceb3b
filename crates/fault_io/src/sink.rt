//! Where bytes go.
ghost use Rattle.fault_io.specs.Sinks.{SinkView, TakesSome, Finishes};

use crate::Failed;

/// Takes bytes, behind those that it holds.
pub trait Sink {
    /// The bytes that it holds, where the sink tells them, how often a call failed, and whether it
    /// is finished.
    ghost shows: { Self → SinkView };

    /// Takes bytes from the front of the piece, and answers how many: at least one of a piece that
    /// has some.
    fn put(&mut self, piece: &[u8]) -> Result<usize, Failed>
        ensures { TakesSome (shows self.old) (shows self.new) piece.now result };

    /// Hands on what it holds, as a flush does.
    fn finish(&mut self) -> Result<(), Failed>
        ensures { Finishes (shows self.old) (shows self.new) result };
}
