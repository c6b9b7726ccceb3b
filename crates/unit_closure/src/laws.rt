//! The laws of unit propagation, each as the contract of an empty function.
ghost use Rattle.unit_closure.specs.Laws.{HoldsTheStart, HoldsUnits, GrowsAlong, ClosesAlong};
ghost use Rattle.unit_closure.specs.Laws.{DerivesWhatFollows, ClosesWhereNoneIsLeft};

/// The closure holds the literals that it starts from.
pub fn holds_the_start()
    ensures { HoldsTheStart }
{}

/// The closure holds the literal of each clause whose other literals are negated in it.
pub fn holds_units()
    ensures { HoldsUnits }
{}

/// More clauses and more literals derive more, and close where fewer did.
pub fn grows_with_clauses_and_literals()
    ensures closure { GrowsAlong }
    ensures closes { ClosesAlong }
{}

/// What is derived is true under every satisfying assignment that makes the start true.
pub fn derives_what_follows()
    ensures { DerivesWhatFollows }
{}

/// Where it closes, no satisfying assignment makes the start true.
pub fn closes_where_none_is_left()
    ensures { ClosesWhereNoneIsLeft }
{}
