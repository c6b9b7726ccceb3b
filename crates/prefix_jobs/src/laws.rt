//! The laws of outcomes, each as the contract of an empty function.
ghost use Rattle.prefix_jobs.specs.Laws.{NumbersAreOrdered, FitsFromCounts, GiveFitsPrefix};
ghost use Rattle.prefix_jobs.specs.Laws.{ExposeFitsPrefix, NothingOpenIsRight};
ghost use Rattle.prefix_jobs.specs.Laws.{ApartCubesWeighLittle};
ghost use Rattle.prefix_jobs.specs.Examples.{HasExamples};

/// Numbers are in a strict total order.
pub fn numbers_are_ordered()
    ensures { NumbersAreOrdered }
{}

/// Where counts of what a job found and left open fit its prefix, its outcome does.
pub fn fits_from_counts()
    ensures { FitsFromCounts }
{}

/// What a job gives away, with the prefix that it keeps, is an outcome that fits.
pub fn give_fits_prefix()
    ensures { GiveFitsPrefix }
{}

/// So is what a job found and left open when it ends.
pub fn expose_fits_prefix()
    ensures { ExposeFitsPrefix }
{}

/// Where nothing is left open, the cubes are the right list of the prefix, once they are sorted.
pub fn nothing_open_is_right()
    ensures { NothingOpenIsRight }
{}

/// Cubes that are apart weigh no more than the space of all assignments.
pub fn apart_cubes_weigh_little()
    ensures { ApartCubesWeighLittle }
{}

/// An outcome that fits, and four changes of it that do not.
pub fn examples_fit_or_not()
    ensures { HasExamples }
{}
