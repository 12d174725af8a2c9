//! From texts and an input to the job that they are.

ghost use Rattle.std.specs.Prelude.{◌≡◌, ◌<◌, ◌≤◌, ℕ, Option, None, Some, [], ◌∷◌, length, true, IfOk, IfErr, MatchOption};
ghost use Rattle.std.specs.List.{AllByRecursion, list_all};
ghost use Rattle.kt_lex.specs.Bytes.{is_blank};
ghost use Rattle.kt_stage.specs.Stage.{runs_alone, runs_updated};
ghost use Rattle.kt_lone.specs.Plain.{job_of};
ghost use Rattle.kt_play.specs.Job.{AreShort, IsBlankText, IsJobOf, IsLeastLater, alone, updated};
ghost use Rattle.kt_play.specs.Names.{texts_in};
ghost use Rattle.kt_play.specs.Judged.{IsNoJob, IsReadyJob};

use crate::gather::Texts;
use crate::refusal::NoJob;
use crate::status::Cause;
use crate::text::version;
use kt_lone::job::{Job, Numbers, Versions};
use kt_stage::{runs_alone, runs_updated};
use kt_tree::{Version, version_law};
use kt_types::Text;
use std::alloc::Global;

// The most turns of a run.
const BUDGET: u32 = 1_000_000;

/// The job of these texts and this input: one version that runs, or two that may be updated, with blank rules between them.
pub fn job(alloc: Global, texts: &Texts, input: Text) -> Result<Job, NoJob>
    requires { AreShort (texts_in texts.now) }
    ensures job { IfOk result (λ job. IsJobOf (texts_in texts.now) input (job_of job)) }
    ensures ready { IfOk result (λ job. IsReadyJob (job_of job)) }
    ensures cause { IfErr result (λ no_job. IsNoJob no_job (texts_in texts.now)) }
{
    match texts {
        Texts::One(text) => one_version(alloc, text.as_slice(), input),
        Texts::Three(first, rules, second) => two_versions(
            alloc,
            first.as_slice(),
            rules.as_slice(),
            second.as_slice(),
            input,
        ),
    }
}

fn one_version(alloc: Global, text: &[u8], input: Text) -> Result<Job, NoJob>
    requires { length text.now ≤ 262144 }
    ensures job { IfOk result (λ job. IsJobOf (text.now ∷ []) input (job_of job)) }
    ensures ready { IfOk result (λ job. IsReadyJob (job_of job)) }
    ensures cause { IfErr result (λ no_job. IsNoJob no_job (text.now ∷ [])) }
{
    let version = version(alloc, 1, text)?;
    if runs_alone(&version) {
        job_alone(alloc, version, input)
    } else {
        Err(NoJob::File(1, Cause::Later(0)))
    }
}

// The job of one version.
fn job_alone(alloc: Global, version: Version, input: Text) -> Result<Job, NoJob>
    ensures job { IfOk result (λ job. job_of job ≡ alone version input) }
    ensures ready { IfOk result (λ job. IsReadyJob (job_of job)) }
    ensures cause { IfErr result (λ no_job. no_job ≡ NoJob.NoMemory) }
{
    version_law(&version);
    bytes_law(input.as_bytes());
    let mut versions = Versions::new(alloc);
    versions.push(version)?;
    Ok(Job {
        versions,
        after: Numbers::new(alloc),
        budget: BUDGET,
        input,
    })
}

// Each element of bytes is below 256.
fn bytes_law(bytes: &[u8])
    ensures { AllByRecursion (λ b. b < 256) bytes.now }
{}

fn two_versions(
    alloc: Global,
    first: &[u8],
    rules: &[u8],
    second: &[u8],
    input: Text,
) -> Result<Job, NoJob>
    requires first { length first.now ≤ 262144 }
    requires second { length second.now ≤ 262144 }
    ensures job { IfOk result (λ job. IsJobOf (first.now ∷ (rules.now ∷ (second.now ∷ []))) input (job_of job)) }
    ensures ready { IfOk result (λ job. IsReadyJob (job_of job)) }
    ensures cause { IfErr result (λ no_job. IsNoJob no_job (first.now ∷ (rules.now ∷ (second.now ∷ [])))) }
{
    let old = version(alloc, 1, first)?;
    let new = version(alloc, 3, second)?;
    match later(&old, rules, &new) {
        Some(file) => Err(NoJob::File(file, Cause::Later(0))),
        None => job_updated(alloc, old, new, input),
    }
}

// The least of the three files that doesn't run so far.
fn later(old: &Version, rules: &[u8], new: &Version) -> Option<u8>
    ensures { MatchOption result ((runs_updated old.now ≡ true) × IsBlankText rules.now × (runs_updated new.now ≡ true)) (λ file. IsLeastLater old.now rules.now new.now file) }
{
    if !runs_updated(old) {
        Some(1)
    } else if !is_blank(rules) {
        Some(2)
    } else if !runs_updated(new) {
        Some(3)
    } else {
        None
    }
}

// The job of a version and the next one, which is asked for at once.
fn job_updated(alloc: Global, old: Version, new: Version, input: Text) -> Result<Job, NoJob>
    ensures job { IfOk result (λ job. job_of job ≡ updated old new input) }
    ensures ready { IfOk result (λ job. IsReadyJob (job_of job)) }
    ensures cause { IfErr result (λ no_job. no_job ≡ NoJob.NoMemory) }
{
    version_law(&old);
    version_law(&new);
    bytes_law(input.as_bytes());
    let mut versions = Versions::new(alloc);
    versions.push(old)?;
    versions.push(new)?;
    let mut after = Numbers::new(alloc);
    after.push(0)?;
    Ok(Job {
        versions,
        after,
        budget: BUDGET,
        input,
    })
}

// A rule file without rules.
fn is_blank(text: &[u8]) -> bool
    ensures { result ≡ list_all is_blank text.now }
{
    text.iter().all(|byte| is_blank_byte(*byte))
}

fn is_blank_byte(byte: u8) -> bool
    ensures { result ≡ is_blank byte }
{
    matches!(byte, b' ' | b'\t' | b'\r' | b'\n')
}
