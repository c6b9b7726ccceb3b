//! The laws of a book's events, each as the contract of an empty function.
ghost use Rattle.region_book.specs.Laws.{StartIsPartition, EventsKeepPartition, NothingPendingIsRight};
ghost use Rattle.region_book.specs.Laws.{OthersKeep, NumbersAreDistinct, PendingNumbersRise};
ghost use Rattle.region_book.specs.Laws.{ArrangedIsWhole};
ghost use Rattle.region_book.specs.Examples.{HasScript};

/// A book without saved lines begins with a partition: the given literals are its one prefix.
pub fn start_is_partition()
    ensures { StartIsPartition }
{}

/// Legal events make a partition of a partition, and what they spend is paid for by what was
/// pending.
pub fn events_keep_partition()
    ensures { EventsKeepPartition }
{}

/// Where nothing is pending, the published cubes are the right list, once they are sorted.
pub fn nothing_pending_is_right()
    ensures { NothingPendingIsRight }
{}

/// An arranged book is a partition, if what it began with was one: no projected assignment is lost
/// or doubled. Where nothing is pending, the published cubes are the right list.
pub fn arranged_is_whole()
    ensures { ArrangedIsWhole }
{}

/// Events of other passes leave what a pass holds.
pub fn others_keep()
    ensures { OthersKeep }
{}

/// Any two pending prefixes have different numbers.
pub fn numbers_are_distinct()
    ensures { NumbersAreDistinct }
{}

/// Pending prefixes stand by rising number.
pub fn numbers_rise()
    ensures { PendingNumbersRise }
{}

/// A script of two passes, each event of which is legal, and what it comes to.
pub fn script_is_legal()
    ensures { HasScript }
{}
