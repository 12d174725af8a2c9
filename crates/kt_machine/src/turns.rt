//! Takes the turns of a job, from its first to its end.

ghost use Rattle.std.specs.Prelude.{◌≡◌, IfOk};
ghost use Rattle.kt_lone.specs.Plain.{job_of};
ghost use Rattle.kt_lone.specs.Typed.{IsTypedJob};
ghost use Rattle.kt_machine.specs.Engine.{AreCodesOf};
ghost use Rattle.kt_machine.specs.Report.{HasRun, IsWellFormedJob};

use crate::machine::Machine;
use kt_lone::job::Job;
use kt_lone::mark::{End, Mark};
use kt_pair::Compiled;
use std::alloc::{AllocError, Global};

/// What a run did: all of its turns are of thread 0.
#[derive(Drop)]
pub struct Report {
    pub output: Vec<u8>,
    pub turns: u32,
    pub marks: Vec<Mark>,
    pub how: End,
}

/// Takes turns of thread 0 up to the end of the run; the codes are those of the job's versions, in order.
pub fn take_turns(alloc: Global, job: &Job, codes: &[Compiled]) -> Result<Report, AllocError>
    requires codes { AreCodesOf (job_of job.now) codes.now }
    requires job { IsWellFormedJob (job_of job.now) }
    requires typed { IsTypedJob (job_of job.now) }
    ensures { IfOk result (λ report. HasRun (job_of job.now) report.turns report.how report.output.items report.marks.items) }
{
    let mut machine = Machine::new(alloc, job, codes)?;
    loop {
        if let Some(how) = machine.ended() {
            return Ok(report_of(machine, how));
        }
        machine.law();
        if let Err(fault) = machine.turn(alloc, job, codes) {
            drop(machine);
            return Err(fault);
        }
    }
}

fn report_of(machine: Machine, how: End) -> Report
    ensures output { result.output.items ≡ machine.shared.outside.output }
    ensures turns { result.turns ≡ machine.shared.turns }
    ensures marks { result.marks.items ≡ machine.shared.marks }
    ensures how { result.how ≡ how }
{
    let turns = machine.turns();
    let (output, marks) = machine.into_output_and_marks();
    Report {
        output,
        turns,
        marks,
        how,
    }
}
