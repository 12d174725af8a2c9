//! The machine: it takes the turns of thread 0.

ghost use Rattle.std.specs.Prelude.{◌≡◌, ◌<◌, IfOk, Ok, Some, length, slice_get};
ghost use Rattle.kt_lone.specs.Plain.{job_of};
ghost use Rattle.kt_lone.specs.Turn as plain_turn;
ghost use Rattle.kt_machine.specs.Engine.{code_engine, world_of, AreCodesOf, IsSettled};

use crate::entry::settled_main;
use crate::first_heap::first_heap;
use crate::outside::Outside;
use crate::shared::Shared;
use kt_code::{Head, Private};
use kt_lone::job::Job;
use kt_lone::mark::{End, Mark};
use kt_mem::Mode;
use kt_pair::Compiled;
use std::alloc::{AllocError, Global};

/// Whether the thread takes turns.
#[derive(Clone, Copy)]
pub enum Standing {
    Live,
    /// It waits at its point for the closing.
    Parked,
    Ended,
}

/// What is shared, and thread 0: its settled state, what it stands at, and whether it takes turns.
#[derive(Drop)]
pub struct Machine {
    pub(crate) shared: Shared,
    pub(crate) private: Private,
    pub(crate) head: Head,
    pub(crate) standing: Standing,
}

/// The compiled version of that number.
pub(crate) fn in_force(codes: &[Compiled], version: u8) -> &Compiled
    requires { version < length codes.now }
    ensures { slice_get codes.now version ≡ Some result.now }
{
    &codes[usize::from(version)]
}

impl Machine {
    ghost use Rattle.std.specs.Prelude.{◌≡◌, ◌<◌, ◌≤◌, ◌^◌, length, IfOk, OnOk};
    ghost use Rattle.kt_lone.specs.Plain.{job_of};
    ghost use Rattle.kt_lone.specs.Turn as plain_turn;
    ghost use Rattle.kt_meaning.specs.Laws.{IsShared};
    ghost use Rattle.kt_lone.specs.World.{outside_of};
    ghost use Rattle.kt_machine.specs.Acts.{KeepsPlace, turned};
    ghost use Rattle.kt_machine.specs.Engine.{code_engine, pairs_of, without_ended, world_of, AreCodesOf, IsReady, IsSettled};
    ghost use Rattle.kt_heap.specs.Heap.{memory, AreOneToOne, IsPairing};
    ghost use Rattle.kt_machine.specs.Shared.{shared_of};

    /// Before the first turn of a job: `main` stands at its first act, trap or end.
    pub fn new(alloc: Global, job: &Job, codes: &[Compiled]) -> Result<Machine, AllocError>
        requires codes { AreCodesOf (job_of job.now) codes.now }
        requires some { 0 < length codes.now }
        requires few { length codes.now ≤ 16 }
        requires requests { length job.now.after < 256 }
        ensures world { IfOk result (λ machine. world_of machine ≡ plain_turn.first_world (code_engine codes.now) (job_of job.now)) }
        ensures settled { IfOk result (λ machine. IsSettled codes.now machine) }
    {
        let mut machine = start(alloc, job, codes)?;
        match machine.before_turn(job, codes) {
            Ok(()) => Ok(machine),
            Err(fault) => {
                drop(machine);
                Err(fault)
            }
        }
    }

    /// The pairs of addresses and heap numbers that were given out are one to one, and live objects have them.
    pub(crate) fn law(&self)
        ensures pairing { IsPairing (pairs_of self.now) (memory self.now.shared.outside.heap) }
        ensures once { AreOneToOne (pairs_of self.now) }
    {
        self.shared.outside().law();
    }

    /// How the run has ended.
    pub fn ended(&self) -> Option<End>
        ensures { result ≡ self.now.shared.ended }
    {
        self.shared.ended()
    }

    /// The turns so far.
    pub fn turns(&self) -> u32
        ensures { result ≡ self.now.shared.turns }
    {
        self.shared.turns()
    }

    /// The output, and the journal's marks.
    pub fn into_output_and_marks(self) -> (Vec<u8>, Vec<Mark>)
        ensures output { result.0.items ≡ self.shared.outside.output }
        ensures marks { result.1.items ≡ self.shared.marks }
    {
        let Machine {
            shared,
            private,
            head,
            standing: _,
        } = self;
        drop((private, head));
        shared.into_output_and_marks()
    }

    /// A turn of thread 0, in the code of the version in force.
    pub fn turn(&mut self, alloc: Global, job: &Job, codes: &[Compiled]) -> Result<(), AllocError>
        requires codes { AreCodesOf (job_of job.now) codes.now }
        requires few { length codes.now ≤ 16 }
        requires version { self.old.shared.version < length codes.now }
        requires live { self.old.standing ≡ Standing.Live }
        requires settled { IsSettled codes.now self.old }
        requires ready { IsReady (job_of job.now) codes.now self.old }
        requires few_turns { self.old.shared.turns < 2 ^ 31 }
        ensures world { OnOk result (world_of self.new ≡ turned (code_engine codes.now) (job_of job.now) (world_of self.old)) }
        ensures settled { OnOk result (IsSettled codes.now self.new) }
    {
        self.act_and_count(alloc, job, codes)?;
        self.after_act(alloc, job, codes)
    }

    // The effect of what the thread stands at, and one turn more.
    fn act_and_count(
        &mut self,
        alloc: Global,
        job: &Job,
        codes: &[Compiled],
    ) -> Result<(), AllocError>
        requires codes { AreCodesOf (job_of job.now) codes.now }
        requires version { self.old.shared.version < length codes.now }
        requires live { self.old.standing ≡ Standing.Live }
        requires settled { IsSettled codes.now self.old }
        requires ready { IsReady (job_of job.now) codes.now self.old }
        requires few_turns { self.old.shared.turns < 2 ^ 31 }
        ensures world { OnOk result (world_of self.new ≡ plain_turn.counted (without_ended (plain_turn.acted (code_engine codes.now) (job_of job.now) (world_of self.old) 0))) }
        ensures shared { OnOk result (IsShared (outside_of (shared_of self.new.shared))) }
        ensures settled { OnOk result (IsSettled codes.now self.new) }
        ensures version { OnOk result (self.new.shared.version ≡ self.old.shared.version) }
    {
        self.act(alloc, job, codes)?;
        self.shared.count_turn();
        Ok(())
    }
}

/// What both calls made, or want of memory.
fn both<A: Drop, B: Drop>(
    a: Result<A, AllocError>,
    b: Result<B, AllocError>,
) -> Result<(A, B), AllocError>
    ensures { IfOk result (λ p. (a ≡ Ok p.0) × (b ≡ Ok p.1)) }
{
    Ok((a?, b?))
}

/// Before anything is tried: `main` stands at its first act, trap or end.
fn start(alloc: Global, job: &Job, codes: &[Compiled]) -> Result<Machine, AllocError>
    requires codes { AreCodesOf (job_of job.now) codes.now }
    requires some { 0 < length codes.now }
    requires requests { length job.now.after < 256 }
    ensures world { IfOk result (λ machine. world_of machine ≡ plain_turn.start (code_engine codes.now) (job_of job.now)) }
    ensures settled { IfOk result (λ machine. IsSettled codes.now machine) }
    ensures version { IfOk result (λ machine. machine.shared.version ≡ 0) }
{
    let first = in_force(codes, 0);
    let input = Vec::from_slice(alloc, job.input.as_bytes())?;
    let after = Vec::from_slice(alloc, job.after.as_slice())?;
    let ((private, head), heap) = both(
        settled_main(alloc, 0, first, Mode::Normal),
        first_heap(alloc, 0, first.version(), 0),
    )?;
    Ok(Machine {
        shared: Shared::new(alloc, Outside::new(alloc, heap, input), after),
        private,
        head,
        standing: Standing::Live,
    })
}
