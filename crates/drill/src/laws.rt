//! The laws of the drill, each as the contract of a function that does nothing.
ghost use Rattle.drill.specs.Drills.{DrillsAreGood, DrillsAreSubjects};
ghost use Rattle.drill.specs.Summaries.{FixedIsTrueEverywhere};

/// The drill of each size has a good assignment.
pub fn drills_are_good()
    ensures { DrillsAreGood }
{}

/// The drill of each size that is taken is a formula as every search takes it.
pub fn drills_are_subjects()
    ensures { DrillsAreSubjects }
{}

/// In a right list with a cube, the fixed literals are those that are true in every wanted
/// assignment.
pub fn fixed_is_true_everywhere()
    ensures { FixedIsTrueEverywhere }
{}
