//! Laws of the definitions, each the contract of a function that does nothing.

ghost use Rattle.std.specs.Prelude.{◌≡◌, ◌≤◌};
ghost use Rattle.std.specs.List.{AllByRecursion};
ghost use Rattle.kt_tree.specs.Version.{IsProgram};
ghost use Rattle.kt_world.specs.Plain.{job_of};
ghost use Rattle.kt_world.specs.Told.{PlansLeadOn};
ghost use Rattle.kt_world.specs.Trees.{AreTurnsOf, IsRunOf, world};
ghost use Rattle.kt_world.specs.declared.mark.End.{End};
ghost use Rattle.kt_journal.specs.Journal.{Says, most_turns};
ghost use Rattle.kt_journal.specs.Kept.{IsClosingKept, IsEndKept, IsKept, IsPlaceKept};
ghost use Rattle.kt_journal.specs.Runs.{HasMainOnly, journal_in};
ghost use Rattle.kt_journal.specs.Written.{journal_of};

use kt_tree::{Version, version_law};
use kt_world::{Closed, End, Job, Mark, world_law};
use xf_plan::Place;

/// In the journal of turns of a job, all turns between the line of an accepted closing and the next line `main` or `end`, or
/// the end of the text where neither follows, are those of `main`.
pub fn main_only_law(job: &Job, turns: &[u8])
    ensures { AreTurnsOf (job_of job.now) turns.now → HasMainOnly (journal_in (job_of job.now) turns.now) }
{
    programs_law(job.versions.as_slice());
}

// Each version is one of a program.
fn programs_law(versions: &[Version])
    ensures { AllByRecursion IsProgram versions.now }
{
    for version in versions {
        version_law(version);
    }
}

/// What is written of a complete list of turns of a job and of the marks of its world is a journal that says these turns, where
/// the job's plans lead from version to version and the budget is at most 10,000,000. So `read` gives these turns of what
/// `write` made of them, where the text is shorter than 4,294,967,296 bytes and memory does not run out.
pub fn read_back_law(job: &Job, turns: &[u8], marks: &[Mark])
    ensures { (how : End) → IsRunOf (job_of job.now) turns.now how → marks.now ≡ (world (job_of job.now) turns.now).shared.marks
        → PlansLeadOn (job_of job.now) → job.now.budget ≤ most_turns → Says (journal_of (job_of job.now) turns.now marks.now) turns.now }
{
    programs_law(job.versions.as_slice());
    world_law(job, turns);
    marks_law(marks);
}

// The numbers of marks are kept by the code's types.
fn marks_law(marks: &[Mark])
    ensures { AllByRecursion IsKept marks.now }
{
    for mark in marks {
        mark_law(*mark);
    }
}

fn mark_law(mark: Mark)
    ensures { IsKept mark }
{
    match mark {
        Mark::Close { closed, .. } => closing_law(closed),
        Mark::End { how, .. } => end_law(how),
        _ => {}
    }
}

fn closing_law(closed: Closed)
    ensures { IsClosingKept closed }
{
    if let Closed::At(fault) = closed {
        place_law(fault.place);
    }
}

fn place_law(place: Place)
    ensures { IsPlaceKept place }
{}

fn end_law(how: End)
    ensures { IsEndKept how }
{}
