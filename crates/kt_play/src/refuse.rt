//! The log lines of refusals.

ghost use Rattle.std.specs.Prelude.{◌≡◌, IsOk, OnErr, OnOk};
ghost use Rattle.kt_edge.specs.Writes.{writes_of, TakesOrFails};
ghost use Rattle.kt_play.specs.Status.{refusal_line};

use crate::refusal::Refusal;
use crate::status::{Cause, Which};
use kt_edge::{Sink, write_whole};
use std::alloc::{AllocError, Global};

/// Writes a refusal's line into the log. A failure of the log is told to nobody; that of words needs no memory.
pub fn tell<J: Sink>(alloc: Global, why: Refusal, log: &mut J) -> Result<(), AllocError>
    ensures told { OnOk result (TakesOrFails (writes_of J.taken J.faults log.old log.new) (refusal_line why)) }
    ensures untold { OnErr result (log.new ≡ log.old) }
    ensures words { why ≡ Refusal.Words → IsOk result }
{
    match why {
        Refusal::Words => {
            write_line(b"refuse words\n", log);
            Ok(())
        }
        Refusal::Read(which) => tell_unread(alloc, which, log),
        Refusal::Long(which) => tell_long(alloc, which, log),
        Refusal::File(file, cause) => tell_cause(alloc, file, cause, log),
    }
}

fn tell_unread<J: Sink>(alloc: Global, which: Which, log: &mut J) -> Result<(), AllocError>
    ensures told { OnOk result (TakesOrFails (writes_of J.taken J.faults log.old log.new) (refusal_line (Refusal.Read which))) }
    ensures untold { OnErr result (log.new ≡ log.old) }
{
    match which {
        Which::File(file) => tell_unread_file(alloc, file, log),
        Which::Input => {
            write_line(b"refuse read input\n", log);
            Ok(())
        }
    }
}

fn tell_unread_file<J: Sink>(alloc: Global, file: u8, log: &mut J) -> Result<(), AllocError>
    ensures told { OnOk result (TakesOrFails (writes_of J.taken J.faults log.old log.new) (refusal_line (Refusal.Read (Which.File file)))) }
    ensures untold { OnErr result (log.new ≡ log.old) }
{
    let line = format!(in alloc; "refuse read {file}\n")?;
    write_line(line.as_bytes(), log);
    Ok(())
}

fn tell_long<J: Sink>(alloc: Global, which: Which, log: &mut J) -> Result<(), AllocError>
    ensures told { OnOk result (TakesOrFails (writes_of J.taken J.faults log.old log.new) (refusal_line (Refusal.Long which))) }
    ensures untold { OnErr result (log.new ≡ log.old) }
{
    match which {
        Which::File(file) => tell_long_file(alloc, file, log),
        Which::Input => {
            write_line(b"refuse long input\n", log);
            Ok(())
        }
    }
}

fn tell_long_file<J: Sink>(alloc: Global, file: u8, log: &mut J) -> Result<(), AllocError>
    ensures told { OnOk result (TakesOrFails (writes_of J.taken J.faults log.old log.new) (refusal_line (Refusal.Long (Which.File file)))) }
    ensures untold { OnErr result (log.new ≡ log.old) }
{
    let line = format!(in alloc; "refuse long {file}\n")?;
    write_line(line.as_bytes(), log);
    Ok(())
}

fn tell_cause<J: Sink>(alloc: Global, file: u8, cause: Cause, log: &mut J) -> Result<(), AllocError>
    ensures told { OnOk result (TakesOrFails (writes_of J.taken J.faults log.old log.new) (refusal_line (Refusal.File file cause))) }
    ensures untold { OnErr result (log.new ≡ log.old) }
{
    let name = cause.name();
    let at = cause.place();
    let line = format!(in alloc; "refuse {file} {name} {at}\n")?;
    write_line(line.as_bytes(), log);
    Ok(())
}

fn write_line<J: Sink>(line: &[u8], log: &mut J)
    ensures { TakesOrFails (writes_of J.taken J.faults log.old log.new) line.now }
{
    let _ = write_whole(log, line);
}
