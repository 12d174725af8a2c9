//! An order from words.

ghost use Rattle.std.specs.Prelude.{◌≡◌, IfOk, IsErrOf, None, Option, Some, codes, option_map, replicate, ℕ};
ghost use Rattle.kt_words.specs.Form.{texts};
ghost use Rattle.kt_words.specs.Orders.{HasNoOrder, IsOrderOf, Says, is_file_count, number_between, numbers_of, said, schedule_of, updates_of, values_of};
ghost use Rattle.kt_words.specs.Reading.{HasNoSense, listed, told};

use super::fault::WordFault;
use super::form::{Given, gather};
use super::names::Names;
use super::order::{Order, Program, Wish};
use super::value::{Value, number_between, number_of, numbers_of, value_of};
use kt_text::read_number;
use kt_types::{Numbers, Text};
use std::alloc::Global;

const BUDGET: u64 = 1_000_000;

const MOST_BUDGET: u64 = 10_000_000;

const WORKERS: u64 = 4;

const MOST_WORKERS: u64 = 16;

const QUANTUM: u32 = 50;

const MOST_QUANTUM: u64 = 1_000_000;

const LARGEST_JOB: u64 = 20_000;

const MOST_FILES: usize = 31;

/// The order that the words of a call give: `Words` exactly where they give none.
pub fn read_words(alloc: Global, program: Program, words: &[String]) -> Result<Order, WordFault>
    ensures order { IfOk result (λ order. IsOrderOf program (texts words.now) order) }
    ensures refused { IsErrOf result WordFault.Words → HasNoOrder program (texts words.now) }
{
    let Given { values, files } = gather(alloc, program, words)?;
    order_of(alloc, values.as_slice(), files)
}

fn order_of(alloc: Global, values: &[Value<'_>], files: Vec<String>) -> Result<Order, WordFault>
    ensures ok { IfOk result (λ order. Says (told values.now) (texts files.items) order) }
    ensures err { IsErrOf result WordFault.Words → HasNoSense (told values.now) (texts files.items) }
{
    let job = job_of(values)?;
    if !is_file_count(job, files.len()) {
        return Err(WordFault::Words);
    }
    let budget = number_of(values, "--budget", 1, MOST_BUDGET, BUDGET)? as u32;
    let workers = number_of(values, "--workers", 1, MOST_WORKERS, WORKERS)? as u8;
    let schedule = schedule_of(alloc, values)?;
    let after = after_of(alloc, values, updates_of(job, files.len()))?;
    Ok(Order {
        after,
        budget,
        workers,
        schedule,
        job,
        files: Names::from_vec(files),
    })
}

fn job_of(values: &[Value<'_>]) -> Result<Option<u32>, WordFault>
    ensures ok { IfOk result (λ job. said None (λ value. option_map (λ n. Some n) (number_between 1 20000 value)) (values_of (codes "--job") (told values.now)) ≡ Some job) }
    ensures err { IsErrOf result WordFault.Words → said {A = Option ℕ} None (λ value. option_map (λ n. Some n) (number_between 1 20000 value)) (values_of (codes "--job") (told values.now)) ≡ None }
{
    match value_of(values, "--job")? {
        None => Ok(None),
        Some(text) => {
            let job = number_between(text, 1, LARGEST_JOB).ok_or(WordFault::Words)?;
            Ok(Some(job as u32))
        }
    }
}

fn is_file_count(job: Option<u32>, files: usize) -> bool
    ensures { result ≡ is_file_count job files }
{
    match job {
        None => files % 2 == 1 && files <= MOST_FILES,
        Some(_) => files == 0,
    }
}

fn updates_of(job: Option<u32>, files: usize) -> usize
    ensures { result ≡ updates_of job files }
{
    match job {
        None => files / 2,
        Some(_) => 1,
    }
}

fn after_of(alloc: Global, values: &[Value<'_>], updates: usize) -> Result<Numbers, WordFault>
    ensures ok { IfOk result (λ after. said (replicate updates 0) numbers_of (values_of (codes "--after") (told values.now)) ≡ Some after) }
    ensures err { IsErrOf result WordFault.Words → said (replicate updates 0) numbers_of (values_of (codes "--after") (told values.now)) ≡ None }
{
    match value_of(values, "--after")? {
        None => Ok(Numbers::from_vec(vec![in alloc; 0; updates]?)),
        Some(text) => numbers_of(alloc, text),
    }
}

fn schedule_of(alloc: Global, values: &[Value<'_>]) -> Result<Wish, WordFault>
    ensures ok { IfOk result (λ wish. schedule_of (values_of (codes "--quantum") (told values.now)) (values_of (codes "--mix") (told values.now)) (values_of (codes "--turns") (told values.now)) ≡ Some wish) }
    ensures err { IsErrOf result WordFault.Words → schedule_of (values_of (codes "--quantum") (told values.now)) (values_of (codes "--mix") (told values.now)) (values_of (codes "--turns") (told values.now)) ≡ None }
{
    let quantum = value_of(values, "--quantum")?;
    let mix = value_of(values, "--mix")?;
    let turns = value_of(values, "--turns")?;
    wish_of(alloc, quantum, mix, turns)
}

// At most one is given.
fn wish_of(
    alloc: Global,
    quantum: Option<&str>,
    mix: Option<&str>,
    turns: Option<&str>,
) -> Result<Wish, WordFault>
    ensures ok { IfOk result (λ wish. schedule_of (listed quantum.entry) (listed mix.entry) (listed turns.entry) ≡ Some wish) }
    ensures err { IsErrOf result WordFault.Words → schedule_of (listed quantum.entry) (listed mix.entry) (listed turns.entry) ≡ None }
{
    match (quantum, mix, turns) {
        (None, None, None) => Ok(Wish::Quantum(QUANTUM)),
        (Some(text), None, None) => {
            let quantum = number_between(text, 1, MOST_QUANTUM).ok_or(WordFault::Words)?;
            Ok(Wish::Quantum(quantum as u32))
        }
        (None, Some(text), None) => {
            let seed = read_number(text.as_bytes(), u64::MAX).ok_or(WordFault::Words)?;
            Ok(Wish::Mix(seed))
        }
        (None, None, Some(text)) => {
            let name = Vec::from_slice(alloc, text.as_bytes())?;
            Ok(Wish::Turns(Text::from_vec(name)))
        }
        _ => Err(WordFault::Words),
    }
}
