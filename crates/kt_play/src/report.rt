//! Writes a run's output and then its journal.

ghost use Rattle.std.specs.Prelude.{MatchResult, replicate};
ghost use Rattle.kt_edge.specs.Writes.{Takes};
ghost use Rattle.kt_play.specs.Call.{sinks_of};
ghost use Rattle.kt_play.specs.Journal.{journal_of};
ghost use Rattle.kt_play.specs.Outcome.{FailsToWrite, IsWritten};

use crate::journal::journal;
use kt_edge::{Failed, Sink, write_whole};
use kt_lone::mark::End;
use kt_machine::Report;
use std::alloc::{AllocError, Global};

/// Why a run of a job was not written whole.
#[derive(Clone, Copy)]
pub enum RunFault {
    /// A sink failed.
    Write,
    /// Memory ran out before anything was written.
    NoMemory,
}

impl From<AllocError> for RunFault {
    ghost use Rattle.std.specs.Prelude.{◌≡◌};
    ghost use Rattle.kt_play.specs.declared.report.RunFault.TheVariants.{NoMemory};

    ghost from_gives = { λ _ fault. fault ≡ NoMemory };

    fn from(_error: AllocError) -> RunFault {
        RunFault::NoMemory
    }
}

impl From<Failed> for RunFault {
    ghost use Rattle.std.specs.Prelude.{◌≡◌};
    ghost use Rattle.kt_play.specs.declared.report.RunFault.TheVariants.{Write};

    ghost from_gives = { λ _ fault. fault ≡ Write };

    fn from(_failed: Failed) -> RunFault {
        RunFault::Write
    }
}

/// Writes a run's output and then its journal, and tells how the run ended. After a failing write nothing more is written.
pub fn write_report<O: Sink, J: Sink>(
    alloc: Global,
    report: &Report,
    out: &mut O,
    log: &mut J,
) -> Result<End, RunFault>
    ensures { IsWritten result report.now.how (sinks_of O.taken O.faults J.taken J.faults out.old out.new log.old log.new) report.now.output.items (journal_of (replicate report.now.turns 0) report.now.marks.items) }
{
    let journal = journal(alloc, report.turns, report.marks.as_slice())?;
    write_both(report.output.as_slice(), journal.as_slice(), out, log)?;
    Ok(report.how)
}

fn write_both<O: Sink, J: Sink>(
    output: &[u8],
    journal: &[u8],
    out: &mut O,
    log: &mut J,
) -> Result<(), Failed>
    ensures { let sinks = sinks_of O.taken O.faults J.taken J.faults out.old out.new log.old log.new in
        MatchResult result (λ _. Takes sinks.out output.now × Takes sinks.log journal.now) (λ _. FailsToWrite sinks output.now journal.now) }
{
    write_whole(out, output)?;
    write_whole(log, journal)
}
