//! Compiles a job's versions, and runs it.

ghost use Rattle.std.specs.Prelude.{IfOk};
ghost use Rattle.kt_machine.specs.Report.{HasRun};
ghost use Rattle.kt_lone.specs.Plain.{job_of};
ghost use Rattle.kt_play.specs.Judged.{IsReadyJob};

use crate::codes::compile_all;
use kt_lone::job::Job;
use kt_machine::{Report, take_turns};
use std::alloc::{AllocError, Global};

/// Runs a job to its end.
pub fn run(alloc: Global, job: &Job) -> Result<Report, AllocError>
    requires { IsReadyJob (job_of job.now) }
    ensures { IfOk result (λ report. HasRun (job_of job.now) report.turns report.how report.output.items report.marks.items) }
{
    let codes = compile_all(alloc, job.versions.as_slice())?;
    take_turns(alloc, job, codes.as_slice())
}
