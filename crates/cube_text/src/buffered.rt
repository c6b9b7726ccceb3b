//! A writer that keeps bytes back until a buffer is full, so that a sink is called seldom.
ghost use Rattle.std.specs.Prelude.{◌≡◌, false, [], ◌++◌};
ghost use Rattle.std.specs.Bool.{OnTrue, OnFalse};
ghost use Rattle.cube_text.specs.Buffered.{HandsIn, PutsOut};

use arrayvec::ArrayVec;
use fault_io::{Sink, WriteFault, write_whole};
use std::marker::Model;

/// How many bytes are kept back at most.
const KEPT_BYTES: usize = 4096;

/// Hands pieces to a sink in order. Once the sink has failed nothing more is put, and `close` tells
/// it.
#[derive(Drop)]
pub struct Buffered {
    bytes: ArrayVec<u8, KEPT_BYTES>,
    failed: bool,
}

impl Model for Buffered {
    ghost use Rattle.cube_text.specs.Buffered.{BufferedView};

    ghost Value = { BufferedView };

    ghost view = { λ b. record { kept = b.bytes.items; failed = b.failed } };
}

impl Buffered {
    /// Nothing is kept back, and nothing failed.
    pub fn make() -> Buffered
        ensures { result ≡ record { kept = []; failed = false } }
    {
        Buffered {
            bytes: ArrayVec::new(),
            failed: false,
        }
    }

    /// Whether the sink failed.
    pub fn failed(&self) -> bool
        ensures { result ≡ self.now.failed }
    {
        self.failed
    }

    /// Keeps the piece back where it has room.
    fn keep(&mut self, piece: &[u8]) -> bool
        ensures kept { OnTrue result
            (self.new ≡ record self.old { kept = self.old.kept ++ piece.now }) }
        ensures full { OnFalse result (self.new ≡ self.old) }
    {
        self.bytes.try_extend_from_slice(piece).is_ok()
    }

    /// Puts out what is kept back.
    fn flush<K: Sink>(&mut self, out: &mut K)
        ensures empty { self.new.kept ≡ [] }
        ensures out { HandsIn K.shows out.old self.old out.new self.new [] }
    {
        if self.failed {
            self.bytes.clear();
            return;
        }
        self.failed = write_whole(self.bytes.as_slice(), out).is_err();
        self.bytes.clear();
    }

    /// Puts out a piece that the buffer has no room for.
    fn pass_on<K: Sink>(&mut self, piece: &[u8], out: &mut K)
        requires { self.old.kept ≡ [] }
        ensures { HandsIn K.shows out.old self.old out.new self.new piece.now }
    {
        if !self.failed {
            self.failed = write_whole(piece, out).is_err();
        }
    }

    /// Takes the piece behind those before it.
    pub fn put<K: Sink>(&mut self, piece: &[u8], out: &mut K)
        ensures { HandsIn K.shows out.old self.old out.new self.new piece.now }
    {
        if !self.keep(piece) {
            self.flush(out);
            if !self.keep(piece) {
                self.pass_on(piece, out);
            }
        }
    }

    /// Puts out what is still kept back, and tells whether all of the pieces are out.
    pub fn close<K: Sink>(mut self, out: &mut K) -> Result<(), WriteFault>
        ensures { PutsOut K.shows out.old self out.new result }
    {
        self.flush(out);
        if self.failed {
            return Err(WriteFault);
        }
        Ok(())
    }
}
