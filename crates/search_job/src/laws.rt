//! The laws of a job, each as the contract of an empty function. They rest on `search_region` and
//! `sat_terms` alone.
ghost use Rattle.search_job.specs.Laws.{SteadyIsReasoned, AssumeKeepsRunning, TurnKeepsRunning};
ghost use Rattle.search_job.specs.Laws.{AssertingIsReason, BeginWorks, StartWorks, CountsShown};
ghost use Rattle.search_job.specs.Laws.{DecideKeepsWorking, ImplyKeepsWorking};
ghost use Rattle.search_job.specs.Laws.{ConflictKeepsWorking, TurnKeepsWorking, ModelKeepsWorking};
ghost use Rattle.search_job.specs.Laws.{TurnLeavesLess, WorkingFits, ConflictEndsWorking};
ghost use Rattle.search_job.specs.Laws.{ModelEndsWorking, LowestUntried, GiveKeepsWorking};
ghost use Rattle.search_job.specs.Laws.{NextCountIsRead, NoneUntriedIsRead, RootIsRead};
ghost use Rattle.search_job.specs.Laws.{LeastReachesAbove};
ghost use Rattle.search_job.specs.Laws.{ExposeFits, ImportFollows, ImpliedLiteralFollows};

/// On a steady trail each literal that stands by a clause has it as its reason.
pub fn steady_is_reasoned()
    ensures { SteadyIsReasoned }
{}

/// One more literal of the job's prefix keeps the search running.
pub fn assume_keeps_running()
    ensures { AssumeKeepsRunning }
{}

/// A decision that a clause turns over keeps the search running.
pub fn turn_keeps_running()
    ensures { TurnKeepsRunning }
{}

/// A clause whose other literals are false by low items is a reason for that.
pub fn asserting_is_reason()
    ensures { AssertingIsReason }
{}

/// A job begins with the literals of its prefix assumed.
pub fn begin_works()
    ensures { BeginWorks }
{}

/// So does a search whose present prefix is this one, with nothing decided or found.
pub fn start_works()
    ensures { StartWorks }
{}

/// The shown variables are as many as their list is long.
pub fn counts_shown()
    ensures { CountsShown }
{}

/// A decision keeps the job working.
pub fn decide_keeps_working()
    ensures { DecideKeepsWorking }
{}

/// So does a literal that a clause implies.
pub fn imply_keeps_working()
    ensures { ImplyKeepsWorking }
{}

/// So does a conflict above the base, whether its decision is shown or hidden.
pub fn conflict_keeps_working()
    ensures { ConflictKeepsWorking }
{}

/// So does a decision that a clause turns over.
pub fn turn_keeps_working()
    ensures { TurnKeepsWorking }
{}

/// So does a found model.
pub fn model_keeps_working()
    ensures { ModelKeepsWorking }
{}

/// Each turn of a shown decision leaves less open.
pub fn turn_leaves_less()
    ensures { TurnLeavesLess }
{}

/// What a working job has found and left open fits its prefix, and each leaf is paid for.
pub fn working_fits()
    ensures { WorkingFits }
{}

/// After a conflict at the base what was found does so alone.
pub fn conflict_ends_working()
    ensures { ConflictEndsWorking }
{}

/// And so it does after a model whose cube needs no level above the base.
pub fn model_ends_working()
    ensures { ModelEndsWorking }
{}

/// The lowest untried cube is that of the base's next decision, where this is shown.
pub fn lowest_untried()
    ensures { LowestUntried }
{}

/// A job gives away the lowest untried prefix, and goes on within what is left of its own.
pub fn give_keeps_working()
    ensures { GiveKeepsWorking }
{}

/// The leaves that go with it are read off the counts by level.
pub fn next_count_is_read()
    ensures { NextCountIsRead }
{}

/// Whether anything is untried is read off the next level's decision.
pub fn none_untried_is_read()
    ensures { NoneUntriedIsRead }
{}

/// The items that the kept prefix is read off are those before the next level's decision.
pub fn root_is_read()
    ensures { RootIsRead }
{}

/// A least level above the base is that of some shown item.
pub fn least_reaches_above()
    ensures { LeastReachesAbove }
{}

/// A working job can end at any time: what it found and left open fits its prefix.
pub fn expose_fits()
    ensures { ExposeFits }
{}

/// A clause follows from the formula where its negation comes to a conflict.
pub fn import_follows()
    ensures { ImportFollows }
{}

/// And where this implies a literal of it.
pub fn implied_literal_follows()
    ensures { ImpliedLiteralFollows }
{}
