//! From the words to the job that they name.

ghost use Rattle.std.specs.Prelude.{◌≡◌, IfOk, IfErr, OnOk};
ghost use Rattle.std.specs.Io.KnownBytes.{IsAtEnd};
ghost use Rattle.kt_lone.specs.Plain.{job_of};
ghost use Rattle.kt_play.specs.Given.{given_of};
ghost use Rattle.kt_play.specs.Judged.{IsReadyJob};
ghost use Rattle.kt_play.specs.Order.{texts};
ghost use Rattle.kt_play.specs.Refused.{IsUnready};
ghost use Rattle.kt_play.specs.Run.{IsAccepted};

use crate::gather::{read_files, read_input};
use crate::job::job;
use crate::order::names_of;
use crate::refusal::{Refusal, Unready};
use kt_edge::{Files, Source};
use kt_lone::job::Job;
use std::alloc::Global;

/// Reads the files that the words name and the input, and finds their job. The input is read where all files were.
pub fn prepare<F: Files, S: Source>(
    alloc: Global,
    words: &[String],
    files: &mut F,
    input: &mut S,
) -> Result<Job, Unready>
    ensures accepted { IfOk result (λ job. IsAccepted (texts words.now) (given_of F.told F.faults S.left S.faults files.old files.new input.old input.new) (job_of job)) }
    ensures ready { IfOk result (λ job. IsReadyJob (job_of job)) }
    ensures at_end { OnOk result (IsAtEnd (S.left input.new)) }
    ensures cause { IfErr result (λ unready. IsUnready unready (texts words.now) (given_of F.told F.faults S.left S.faults files.old files.new input.old input.new)) }
    ensures same { F.told files.new ≡ F.told files.old }
{
    match names_of(words) {
        None => Err(Unready::Refused(Refusal::Words)),
        Some(names) => {
            let texts = read_files(alloc, names, files)?;
            let input = read_input(alloc, input)?;
            Ok(job(alloc, &texts, input)?)
        }
    }
}
