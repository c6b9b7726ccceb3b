//! Where a worker tells how far it is.

/// A point that a worker comes to.
#[derive(Clone, Copy, Debug, PartialEq, Eq)]
pub enum Point {
    /// It begins.
    Begun,
    /// It was at a leaf of its job.
    Leaf,
    /// It has given a prefix away.
    Given,
    /// It ends.
    Ended,
}

/// What workers call at these points. It changes nothing that a contract sees; a test may hold a
/// worker by it.
pub trait Gate {
    fn at(&self, worker: u32, point: Point);
}

/// A gate that is open: it does nothing.
#[derive(Clone, Copy, Debug)]
pub struct OpenGate;

impl Gate for OpenGate {
    fn at(&self, _worker: u32, _point: Point) {}
}
