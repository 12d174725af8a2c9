//! Laws of worlds, each the contract of a function that does nothing.

ghost use Rattle.kt_world.specs.Calm.{CalmTurnsAreOneStep};
ghost use Rattle.kt_world.specs.Laws.{AListIsMade, BudgetIsKept, EndedAreGone, EndsAreLast, HeapNumbersNeverFall, MainIsAlone, MarksAreInOrder, MarksTellOfJobs, OneListIsComplete, OneMoreIsTheNext, OneMoreMayBeTaken, RefusalsChangeNothing, ThreadsAreFew, TurnsAreCounted, TurnsAreOfThreads};
ghost use Rattle.kt_world.specs.Plain.{job_of};
ghost use Rattle.kt_world.specs.Trees.{tree_engine};
ghost use Rattle.kt_world.specs.Typed.{WorldsAreTyped};
ghost use Rattle.kt_world.specs.Rows.{ChainRow, EndedRow, JoinRow, JoinTraps, RefusalRow, RequestRow, SignalRow, StuckRow, UpdateRow, WakeRow};
ghost use Rattle.kt_world.specs.Shows.{SameGoesOn, WhatIsShownIsTold};
ghost use Rattle.kt_world.specs.World.{Engine};

use crate::job::Job;

/// One turn more is the world's next: a thread may take the next turn exactly where the turns before may be taken and it may
/// take one in their world, and the world of the longer list is then one turn of it from theirs. While `main` is on its way
/// to its point after an update, no other thread may take a turn. The turns are counted. The marks stand in the order of
/// their turns: each request is answered by a closing before the next one is made, an accepted closing is followed by
/// `main` at its point and then by all threads at theirs, and the end of a run is its last mark. A thread that has ended
/// has no call, there are at most 65 threads, and the next heap number never falls. A turn is that of a thread below 65, no
/// more turns are made than the budget allows, and marks tell of threads below 65, and of globals and locals that the version
/// has which a closing was to bring, where the job's plans do. Where the job's versions are programs and its plans keep types, each
/// world is typed: a thread that hasn't ended is one of the version in force, each object has the cells of its element type as often
/// as its count says, and each cell, each kept value and each argument is of its type or undefined.
pub fn world_law(job: &Job, turns: &[u8])
    ensures may { OneMoreMayBeTaken (job_of job.now) turns.now }
    ensures next { OneMoreIsTheNext (job_of job.now) turns.now }
    ensures main_alone { MainIsAlone (job_of job.now) turns.now }
    ensures counted { TurnsAreCounted (job_of job.now) turns.now }
    ensures marks { MarksAreInOrder (job_of job.now) turns.now }
    ensures last { EndsAreLast (job_of job.now) turns.now }
    ensures ended { EndedAreGone (job_of job.now) turns.now }
    ensures threads { ThreadsAreFew (job_of job.now) turns.now }
    ensures of_threads { TurnsAreOfThreads (job_of job.now) turns.now }
    ensures budget { BudgetIsKept (job_of job.now) turns.now }
    ensures tell { MarksTellOfJobs (job_of job.now) turns.now }
    ensures heap_numbers { HeapNumbersNeverFall (job_of job.now) turns.now }
    ensures typed { WorldsAreTyped (job_of job.now) turns.now }
{}

/// A schedule, which chooses each turn by the turns before it and the world, makes one complete list of turns where it
/// chooses an enabled thread wherever there is one, and in any case no two.
pub fn schedule_law(job: &Job)
    ensures some { AListIsMade (job_of job.now) }
    ensures one { OneListIsComplete (job_of job.now) }
{}

/// So many calm turns of one thread are one step: turns whose acts are on memory, input and output alone and are answered, in phase
/// `Run`, before the next request and the end of the budget, with the thread enabled behind the last of them.
pub fn calm_law(job: &Job)
    ensures { CalmTurnsAreOneStep (tree_engine (job_of job.now)) (job_of job.now) }
{}

/// A closing that is refused changes neither memory, nor kept values, nor the version in force.
pub fn refusal_law()
    ensures { RefusalsChangeNothing }
{}

/// Worked runs have the worlds that were worked out by hand.
pub fn rows_law()
    ensures join { JoinRow }
    ensures traps { JoinTraps }
    ensures stuck { StuckRow }
    ensures update { UpdateRow }
    ensures ended { EndedRow }
    ensures refusals { RefusalRow }
    ensures chain { ChainRow }
    ensures signal { SignalRow }
    ensures wake { WakeRow }
    ensures request { RequestRow }
{}

/// A world of any engine that shows one of the definition, whose heap objects have other names, tells the same: version, phase, output,
/// turns, marks and end, and the same threads may take a turn in both. Threads that do the same by heap number do so after a reply
/// of the act's kind, and where more addresses were given out.
pub fn shows_law<X>(job: &Job)
    ensures tells { (e : Engine X) → WhatIsShownIsTold e (tree_engine (job_of job.now)) }
    ensures goes_on { (e : Engine X) → SameGoesOn e (tree_engine (job_of job.now)) }
{}
