//! The laws of the search, each as the contract of an empty function. They rest on `sat_terms`
//! alone.
//!
//! A search goes from assignment to assignment along a trail: it decides, propagates, and turns
//! decisions over at conflicts and at models (chronological backtracking, so that no clause has to
//! block a model again: Orna Grumberg, Assaf Schuster, Avi Yadgar, "Memory Efficient All-Solutions
//! SAT Solver and Its Application for Reachability Analysis", 2004).

ghost use Rattle.search_region.specs.Laws.{StartRuns, DecideKeepsRunning};
ghost use Rattle.search_region.specs.Laws.{ImplyKeepsRunning, ConflictKeepsRunning};
ghost use Rattle.search_region.specs.Laws.{ModelKeepsRunning, ConflictCloses, ModelCloses};
ghost use Rattle.search_region.specs.Laws.{MetCubeIsGood, ClosedIsExact, ClosedIsRight};
ghost use Rattle.search_region.specs.Laws.{RunningFits, ClosedFits};

/// The search of everything starts with nothing on the trail and nothing found.
pub fn start_runs()
    ensures { StartRuns }
{}

/// A decision keeps the search running.
pub fn decide_keeps_running()
    ensures { DecideKeepsRunning }
{}

/// A literal that a clause implies keeps it running.
pub fn imply_keeps_running()
    ensures { ImplyKeepsRunning }
{}

/// A conflict above the base keeps it running, whether its decision is shown or hidden.
pub fn conflict_keeps_running()
    ensures { ConflictKeepsRunning }
{}

/// A found model keeps it running.
pub fn model_keeps_running()
    ensures { ModelKeepsRunning }
{}

/// A conflict at the base closes the search.
pub fn conflict_closes()
    ensures { ConflictCloses }
{}

/// A model whose cube needs no level above the base closes it.
pub fn model_closes()
    ensures { ModelCloses }
{}

/// A cube that meets each clause holds good assignments alone.
pub fn met_cube_is_good()
    ensures { MetCubeIsGood }
{}

/// A closed search found each good assignment in exactly one cube, and no other in any.
pub fn closed_is_exact()
    ensures { ClosedIsExact }
{}

/// So the cubes that a closed search of everything found are the right list, once they are sorted.
pub fn closed_is_right()
    ensures { ClosedIsRight }
{}

/// The cubes found and the prefixes left open are apart and hold every good assignment, at each
/// moment of the search.
pub fn running_fits()
    ensures { RunningFits }
{}

/// Once it is closed, the cubes found do so alone.
pub fn closed_fits()
    ensures { ClosedFits }
{}
