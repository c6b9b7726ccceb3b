//! What follows of runs, each law as the contract of an empty function.
ghost use Rattle.allsat_run.specs.Laws.{StoppedRunGoesOn};

/// The saved text of a run that stopped gives the same subject, with the cubes found and the
/// prefixes pending, and these are a partition again: a run on it goes on where the other stopped.
pub fn a_stopped_run_goes_on()
    ensures { StoppedRunGoesOn }
{}
