//! The laws of trails. Each function does nothing; its contract is the law, proved from what each
//! trail keeps (`IsTrail`).
ghost use Rattle.chrono_trail.specs.Laws.{EachLevelHasOneDecision, DecisionsRise};
ghost use Rattle.chrono_trail.specs.Laws.{NoneAboveItsPlace, NoneAboveTheCurrent, LowItemsStay};
ghost use Rattle.chrono_trail.specs.Laws.{DecisionsAreFound, DecisionsAreWithin, DecisionsSplitThePicture};
ghost use Rattle.chrono_trail.specs.Laws.{BacktrackingFreesTheDecision, BacktrackingIsPictured};
ghost use Rattle.chrono_trail.specs.Laws.{AppendedItemsAreNewer, MoreClausesKeepThePicture};
ghost use Rattle.chrono_trail.specs.Laws.{PairsAreAtRest, ReasonsStandInThePicture};
ghost use Rattle.chrono_trail.specs.Reasons.{AppendingKeepsReasons, BacktrackingKeepsReasons};
ghost use Rattle.chrono_trail.specs.Reasons.{MoreClausesKeepReasons, ReasonsAreInside};
ghost use Rattle.chrono_trail.specs.Reasons.{ReasonsArePictured};

/// Each level from 1 to the current one has one decision.
pub fn each_level_has_one_decision()
    ensures { EachLevelHasOneDecision }
{}

/// The levels of the decisions rise along the trail: 1, 2 and so on to the current one.
pub fn decisions_rise()
    ensures { DecisionsRise }
{}

/// No item is above the level that was current where it stands.
pub fn none_is_above_its_place()
    ensures { NoneAboveItsPlace }
{}

/// No item is above the current level.
pub fn none_is_above_the_current_level()
    ensures { NoneAboveTheCurrent }
{}

/// What backtracking to a level keeps, just the items up to it, is a trail at that level.
pub fn low_items_stay_a_trail()
    ensures { LowItemsStay }
{}

/// The decision of a level can be found, is of a variable of the trail, splits the picture, and is
/// unassigned once its level is taken back.
pub fn a_decision_splits_the_trail()
    ensures found { DecisionsAreFound }
    ensures within { DecisionsAreWithin }
    ensures splits { DecisionsSplitThePicture }
    ensures freed { BacktrackingFreesTheDecision }
{}

/// Items that are appended, levels that are taken back and clauses that join show in the picture as
/// they do in the items.
pub fn the_picture_follows_the_items()
    ensures appended { AppendedItemsAreNewer }
    ensures back { BacktrackingIsPictured }
    ensures grown { MoreClausesKeepThePicture }
{}

/// A clause with a literal and its negation is never false and never unit.
pub fn pairs_are_at_rest()
    ensures { PairsAreAtRest }
{}

/// A reason is one in the picture of the search too.
pub fn reasons_stand_in_the_picture()
    ensures { ReasonsStandInThePicture }
{}

/// Items keep their reasons as items are appended, levels taken back and clauses added.
pub fn items_keep_their_reasons()
    ensures appending { AppendingKeepsReasons }
    ensures backtracking { BacktrackingKeepsReasons }
    ensures growing { MoreClausesKeepReasons }
{}

/// Items with reasons name only clauses that are there, and have their reasons in the picture.
pub fn reasons_are_pictured()
    ensures inside { ReasonsAreInside }
    ensures pictured { ReasonsArePictured }
{}
