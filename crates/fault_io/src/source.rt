//! Where bytes come from.
ghost use Rattle.std.specs.Prelude.{ℕ, ◌<◌, length};
ghost use Rattle.std.specs.Io.{ReadsAtMost};
ghost use Rattle.fault_io.specs.Sources.{SourceView, GivesInto};

/// A call on the outside failed: nothing moved, and the count of faults rose.
#[derive(Clone, Copy, Debug, PartialEq, Eq)]
pub struct Failed;

/// Gives bytes from the front of what it has left.
pub trait Source {
    /// The bytes that are left, where the source tells them, and how often a call failed.
    ghost shows: { Self → SourceView };

    /// Moves some bytes to the front of the buffer, and answers how many. 0 means that none are
    /// left.
    fn take(&mut self, buf: &mut [u8]) -> Result<usize, Failed>
        requires { 0 < length buf.old }
        ensures bound { ReadsAtMost result buf.new }
        ensures gives { GivesInto (shows self.old) (shows self.new) buf.new result };
}
