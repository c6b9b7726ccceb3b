//! The laws of propagation. Each function does nothing; its contract is the law, proved.
ghost use Rattle.propagation.specs.Laws.{ImpliedItemsHaveReasons, PropagationKeepsReasons};
ghost use Rattle.propagation.specs.Derived.{PropagationDerives, FalseClauseCloses};
ghost use Rattle.propagation.specs.Derived.{RestIsClosed, RestStaysOpen};
ghost use Rattle.propagation.specs.Settled.{SettledWatches, UnseenIsSettled, ClearingStaysSettled};
ghost use Rattle.propagation.specs.Settled.{AppendingStaysSettled, BacktrackingStaysSettled};

/// The clause that an implied item names has its literal, and each other literal of it is false by
/// an older item of at most the same level: what the clause implied stays implied for as long as
/// the item stands.
pub fn implied_items_have_reasons()
    ensures { ImpliedItemsHaveReasons }
{}

/// Propagation leaves each item of a trail with its reason.
pub fn propagation_keeps_reasons()
    ensures { PropagationKeepsReasons }
{}

/// A propagator that watches its clauses is settled with a trail of which no item is marked as
/// seen, and stays settled as items are appended and levels taken back.
pub fn a_trail_stays_settled()
    ensures watches { SettledWatches }
    ensures unseen { UnseenIsSettled }
    ensures clearing { ClearingStaysSettled }
    ensures appending { AppendingStaysSettled }
    ensures backtracking { BacktrackingStaysSettled }
{}

/// What propagation appends lies in the closure of what was there, and where it names a false
/// clause the closure closes.
pub fn propagation_stays_in_the_closure()
    ensures derives { PropagationDerives }
    ensures closes { FalseClauseCloses }
{}

/// Where no clause is false or unit, as after Quiet at level 0, the literals on the trail are a
/// closed set, and the closure does not close.
pub fn rest_is_a_closed_set()
    ensures closed { RestIsClosed }
    ensures stays_open { RestStaysOpen }
{}
