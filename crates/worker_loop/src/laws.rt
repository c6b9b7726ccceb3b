//! The laws of sweeps, each as the contract of a function that does nothing.
ghost use Rattle.worker_loop.specs.Laws.{NewBooksHoldNothing};

/// A book without events holds nothing.
pub fn new_books_hold_nothing()
    ensures { NewBooksHoldNothing }
{}
