//! The top call.

ghost use Rattle.std.specs.Prelude.{◌≡◌};
ghost use Rattle.kt_lone.specs.Plain.{job_of};
ghost use Rattle.kt_play.specs.Answer.{IsAnswer};
ghost use Rattle.kt_play.specs.Call.{call_of, sinks_of};
ghost use Rattle.kt_play.specs.Given.{given_of};
ghost use Rattle.kt_play.specs.Judged.{IsReadyJob};
ghost use Rattle.kt_play.specs.Outcome.{IsOutcome};
ghost use Rattle.kt_play.specs.Promises.{KeepsPromises};
ghost use Rattle.kt_play.specs.Status.{run_answer};

use crate::prepare::prepare;
use crate::refusal::Unready;
use crate::refuse::tell;
use crate::report::{RunFault, write_report};
use crate::run::run;
use crate::status::Status;
use kt_edge::{Files, Sink, Source};
use kt_lone::job::Job;
use kt_lone::mark::End;
use kt_syntax::file_answer_law;
use std::alloc::Global;

// Runs an accepted job, and writes its output and its journal.
fn carry_out<O: Sink, J: Sink>(
    alloc: Global,
    job: &Job,
    out: &mut O,
    log: &mut J,
) -> Result<End, RunFault>
    requires { IsReadyJob (job_of job.now) }
    ensures { IsOutcome result (job_of job.now) (sinks_of O.taken O.faults J.taken J.faults out.old out.new log.old log.new) }
{
    let report = run(alloc, job)?;
    write_report(alloc, &report, out, log)
}

fn answer(run: Result<End, RunFault>) -> Status
    ensures { result ≡ run_answer run }
{
    match run {
        Ok(how) => Status::from(how),
        Err(fault) => Status::from(fault),
    }
}

// Reads, judges and runs what the words name, and answers.
fn respond<F: Files, S: Source, O: Sink, J: Sink>(
    alloc: Global,
    words: &[String],
    files: &mut F,
    input: &mut S,
    out: &mut O,
    log: &mut J,
) -> Status
    ensures answer { IsAnswer (call_of words.now (given_of F.told F.faults S.left S.faults files.old files.new input.old input.new) (sinks_of O.taken O.faults J.taken J.faults out.old out.new log.old log.new)) result }
    ensures same { F.told files.new ≡ F.told files.old }
{
    match prepare(alloc, words, files, input) {
        Ok(job) => answer(carry_out(alloc, &job, out, log)),
        Err(Unready::Refused(why)) => match tell(alloc, why, log) {
            Ok(()) => Status::from(why),
            Err(_) => Status::NoMemory,
        },
        Err(Unready::NoMemory) => Status::NoMemory,
    }
}

/// Runs the program in the files that the words name on the input, and updates it: writes its output to `out` and the
/// journal of its turns to `log`.
///
/// The words are the name of one file, a version, or of three: a version, the rules of its update (which are blank so
/// far), and the next version, which is asked for at once. A name isn't empty and doesn't begin with `-`. The files are read
/// in their order, and each has at most 262,144 bytes; then the input, which has at most 1,048,576 bytes; then the versions
/// are judged, and then what of the files doesn't run so far is refused. A version is a C file that has its tokens, its
/// syntax and its types; one version runs where it makes no thread and has no lock, and two where moreover all globals are
/// of type `int`, no arrays, and no function is written with `E_NOTELOCALS`.
///
/// A refusal writes one line to `log` and nothing to `out`, and a failure of that line changes no answer. The output is
/// written first and then the journal; after a failing write nothing more is written. Want of memory may come in place of
/// any answer but `Words`; nothing was written then.
pub fn play<F: Files, S: Source, O: Sink, J: Sink>(
    alloc: Global,
    words: &[String],
    files: &mut F,
    input: &mut S,
    out: &mut O,
    log: &mut J,
) -> Status
    // Sixteen promises, from the headline on, each a field of its own.
    ensures { KeepsPromises (call_of words.now (given_of F.told F.faults S.left S.faults files.old files.new input.old input.new) (sinks_of O.taken O.faults J.taken J.faults out.old out.new log.old log.new)) result }
{
    file_answer_law();
    respond(alloc, words, files, input, out, log)
}
