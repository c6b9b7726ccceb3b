//! The laws of deciding. Each function does nothing; its contract is the law.
ghost use Rattle.projected_decide.specs.Laws.{DecisionsAreLowest, NoneMeansFull};
ghost use Rattle.projected_decide.specs.Laws.{AppendingKeepsPassed, PuttingBackKeepsPassed};

/// What is decided next is the lowest free variable, the shown ones first; nothing is only where
/// each variable is assigned.
pub fn the_lowest_free_variable_is_next()
    ensures lowest { DecisionsAreLowest }
    ensures none { NoneMeansFull }
{}

/// The variables before the place stay assigned as items are appended, and as they are taken away
/// once their variables are put back.
pub fn what_was_passed_stays_assigned()
    ensures appending { AppendingKeepsPassed }
    ensures putting_back { PuttingBackKeepsPassed }
{}
