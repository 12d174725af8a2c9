//! Stretches: ticks of a thread, which no other thread sees.
ghost use Rattle.std.specs.Prelude.{◌≡◌, ◌<◌, true, Some, IfOk, OnOk};
ghost use Rattle.kt_code.specs.Settling.{Fits};
ghost use Rattle.kt_exec.specs.Stretching.{AreTicks, IsStretch, after_tick, at_tick, is_tick};

use crate::replies::answer;
use crate::settling::settle;
use kt_code::{Code, Head, Private};
use kt_mem::{Act, Reply};
use std::alloc::{AllocError, Global};

/// A stretch of a thread: where it began, where it has come to, and how many ticks it took.
#[derive(Drop)]
pub struct Loan {
    pub thread: u8,
    pub first: Private,
    pub last: Private,
    pub ticks: u32,
}

/// Ticks of a thread that stands at one, exactly until it comes to something else or has taken the most. What is lent is
/// kept as it was.
pub fn stretch(
    alloc: Global,
    code: &Code,
    first: Private,
    thread: u8,
    most: u32,
) -> Result<Loan, AllocError>
    requires most { 0 < most }
    requires tick { at_tick code.now first ≡ true }
    requires fits { Fits code.now first }
    ensures { IfOk result (λ loan. IsStretch code.now first thread most loan) }
{
    let mut last = first.copy()?;
    let ticks = take_ticks(alloc, code, &mut last, most)?;
    Ok(Loan {
        thread,
        first,
        last,
        ticks,
    })
}

/// Takes ticks up to something else, or the most; tells how many.
fn take_ticks(
    alloc: Global,
    code: &Code,
    private: &mut Private,
    most: u32,
) -> Result<u32, AllocError>
    requires tick { at_tick code.now private.old ≡ true }
    requires fits { Fits code.now private.old }
    ensures { IfOk result (λ ticks. AreTicks code.now private.old most ticks private.new) }
{
    let mut ticks = 0;
    let mut more = true;
    'ticks: while more && ticks < most {
        more = take_tick(alloc, code, private)?;
        ticks += 1;
    }
    Ok(ticks)
}

/// Takes a tick and the quiet steps behind it; tells whether the thread stands at a tick again.
fn take_tick(alloc: Global, code: &Code, private: &mut Private) -> Result<bool, AllocError>
    requires tick { at_tick code.now private.old ≡ true }
    requires fits { Fits code.now private.old }
    ensures state { OnOk result (private.new ≡ after_tick code.now private.old) }
    ensures more { IfOk result (λ more. more ≡ at_tick code.now private.new) }
    ensures fits { OnOk result (Fits code.now private.new) }
{
    answer(alloc, code, private, Reply::Done)?;
    let head = settle(alloc, code, private)?;
    let more = is_tick(&head);
    drop(head);
    Ok(more)
}

/// Whether what a thread has come to is a tick.
fn is_tick(head: &Head) -> bool
    ensures { result ≡ is_tick (Some head.now) }
{
    matches!(head, Head::Act(Act::Tick))
}
