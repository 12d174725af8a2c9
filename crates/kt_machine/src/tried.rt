//! What is tried after an act, and before the first turn.

ghost use Rattle.std.specs.Prelude.{◌≡◌};
ghost use Rattle.kt_mem.specs.Memory.{waits};
ghost use Rattle.kt_heap.specs.Heap.{memory};
ghost use Rattle.kt_machine.specs.Acts.{waits_at};

use crate::machine::{Machine, Standing};
use kt_code::Head;
use kt_heap::Heap;
use kt_lone::job::Job;
use kt_lone::mark::Phase;
use kt_mem::{Act, Mode, Value};
use kt_pair::Compiled;
use kt_types::Ty;
use std::alloc::{AllocError, Global};

impl Machine {
    ghost use Rattle.std.specs.Prelude.{◌≡◌, ◌<◌, ◌≤◌, length, OnOk};
    ghost use Rattle.kt_lone.specs.Plain.{job_of};
    ghost use Rattle.kt_lone.specs.Turn as plain_turn;
    ghost use Rattle.kt_meaning.specs.Laws.{IsShared};
    ghost use Rattle.kt_lone.specs.World.{outside_of};
    ghost use Rattle.kt_machine.specs.Acts.{KeepsThread, step_of};
    ghost use Rattle.kt_machine.specs.Engine.{code_engine, thread_of, world_of, AreCodesOf, IsSettled};
    ghost use Rattle.kt_machine.specs.Shared.{shared_of};

    /// What is tried after an act.
    pub(crate) fn after_act(
        &mut self,
        alloc: Global,
        job: &Job,
        codes: &[Compiled],
    ) -> Result<(), AllocError>
        requires codes { AreCodesOf (job_of job.now) codes.now }
        requires few { length codes.now ≤ 16 }
        requires version { self.old.shared.version < length codes.now }
        requires settled { IsSettled codes.now self.old }
        requires shared { IsShared (outside_of (shared_of self.old.shared)) }
        ensures world { OnOk result (world_of self.new ≡ plain_turn.after_act (code_engine codes.now) (job_of job.now) (world_of self.old)) }
        ensures settled { OnOk result (IsSettled codes.now self.new) }
    {
        self.mark_end()?;
        self.main_there()?;
        self.all_back()?;
        self.close_up(alloc, job, codes)?;
        self.before_turn(job, codes)
    }

    // An end is marked.
    fn mark_end(&mut self) -> Result<(), AllocError>
        ensures world { OnOk result (world_of self.new ≡ plain_turn.end_marked (world_of self.old)) }
        ensures keeps { OnOk result (KeepsThread self.old self.new) }
    {
        self.shared.mark_end()
    }

    // `main` has come to its point.
    fn main_there(&mut self) -> Result<(), AllocError>
        ensures world { OnOk result ((codes : _) → world_of self.new ≡
            plain_turn.ongoing (λ w. plain_turn.main_there (code_engine codes) w.shared.phase w) (world_of self.old)) }
        ensures keeps { OnOk result (KeepsThread self.old self.new) }
    {
        match (self.shared.ended(), self.shared.phase(), self.private.mode) {
            (None, Phase::Main, Mode::Normal) => self.shared.mark_main(),
            _ => Ok(()),
        }
    }

    // All threads have come to their points.
    fn all_back(&mut self) -> Result<(), AllocError>
        ensures world { OnOk result ((codes : _) → world_of self.new ≡
            plain_turn.ongoing (λ w. plain_turn.all_back (code_engine codes) w.shared.phase w) (world_of self.old)) }
        ensures keeps { OnOk result (KeepsThread self.old self.new) }
    {
        match (self.shared.ended(), self.shared.phase()) {
            (None, Phase::Others) => self.mark_if_back(),
            _ => Ok(()),
        }
    }

    fn mark_if_back(&mut self) -> Result<(), AllocError>
        ensures world { OnOk result ((codes : _) → world_of self.new ≡ plain_turn.all_back (code_engine codes) Phase.Others (world_of self.old)) }
        ensures keeps { OnOk result (KeepsThread self.old self.new) }
    {
        if self.is_back() {
            self.shared.mark_back()
        } else {
            Ok(())
        }
    }

    // The thread has ended or is on its way nowhere.
    fn is_back(&self) -> bool
        ensures { (codes : _) → result ≡ plain_turn.all_normal (code_engine codes) (world_of self.now).threads }
    {
        match (self.standing, self.private.mode) {
            (Standing::Ended, _) | (_, Mode::Normal) => true,
            _ => false,
        }
    }

    /// The next request, nobody left to turn, and the budget.
    pub(crate) fn before_turn(&mut self, job: &Job, codes: &[Compiled]) -> Result<(), AllocError>
        requires few { length codes.now ≤ 16 }
        requires version { self.old.shared.version < length codes.now }
        requires settled { IsSettled codes.now self.old }
        ensures world { OnOk result (world_of self.new ≡ plain_turn.before_turn (code_engine codes.now) (job_of job.now) (world_of self.old)) }
        ensures settled { OnOk result (IsSettled codes.now self.new) }
    {
        self.ask(job)?;
        self.end_if_stuck(codes)?;
        self.spend(job)
    }

    fn ask(&mut self, job: &Job) -> Result<(), AllocError>
        requires { self.old.shared.version < 16 }
        ensures world { OnOk result (world_of self.new ≡
            plain_turn.ongoing (λ w. plain_turn.on_shared (plain_turn.asked (job_of job.now) w.shared.phase) w) (world_of self.old)) }
        ensures keeps { OnOk result (KeepsThread self.old self.new) }
    {
        match self.shared.ended() {
            None => self.shared.ask(job),
            Some(_) => Ok(()),
        }
    }

    // The end where the thread may take no turn.
    fn end_if_stuck(&mut self, codes: &[Compiled]) -> Result<(), AllocError>
        requires { IsSettled codes.now self.old }
        ensures world { OnOk result (world_of self.new ≡ plain_turn.ongoing (plain_turn.stuck (code_engine codes.now)) (world_of self.old)) }
        ensures keeps { OnOk result (KeepsThread self.old self.new) }
    {
        match self.shared.ended() {
            None => self.end_unless_enabled(codes),
            Some(_) => Ok(()),
        }
    }

    fn end_unless_enabled(&mut self, codes: &[Compiled]) -> Result<(), AllocError>
        requires { IsSettled codes.now self.old }
        ensures world { OnOk result (world_of self.new ≡ plain_turn.stuck (code_engine codes.now) (world_of self.old)) }
        ensures keeps { OnOk result (KeepsThread self.old self.new) }
    {
        if self.is_enabled(codes) {
            Ok(())
        } else {
            self.shared.end_stuck()
        }
    }

    // The thread may take a turn.
    fn is_enabled(&self, codes: &[Compiled]) -> bool
        requires { IsSettled codes.now self.now }
        ensures { result ≡ plain_turn.any_enabled (code_engine codes.now) (shared_of self.now.shared) 0 (world_of self.now).threads }
    {
        let _codes = codes;
        match self.standing {
            Standing::Live => !self.waits(codes),
            Standing::Parked | Standing::Ended => false,
        }
    }

    // The thread stands at a lock of a mutex that another thread holds.
    fn waits(&self, codes: &[Compiled]) -> bool
        requires live { self.now.standing ≡ Standing.Live }
        requires settled { IsSettled codes.now self.now }
        ensures { result ≡ plain_turn.is_waiting (shared_of self.now.shared).memory 0 (step_of codes.now self.now) }
    {
        let _codes = codes;
        self.law();
        match &self.head {
            Head::Act(act) => waits(self.shared.outside().heap(), act),
            Head::Trap(_) => false,
        }
    }

    fn spend(&mut self, job: &Job) -> Result<(), AllocError>
        ensures world { OnOk result (world_of self.new ≡
            plain_turn.ongoing (plain_turn.on_shared (plain_turn.spent (job_of job.now))) (world_of self.old)) }
        ensures keeps { OnOk result (KeepsThread self.old self.new) }
    {
        match self.shared.ended() {
            None => self.shared.spend(job),
            Some(_) => Ok(()),
        }
    }
}

// The act is a lock of a mutex that another thread than thread 0 holds.
fn waits(heap: &Heap, act: &Act) -> bool
    ensures { result ≡ waits_at (memory heap.now) act.now }
{
    match act {
        Act::Lock(pointer) => is_held(heap, *pointer),
        _ => false,
    }
}

// A thread other than thread 0 holds the mutex at the pointer.
fn is_held(heap: &Heap, pointer: Value) -> bool
    ensures { result ≡ waits (memory heap.now) 0 pointer }
{
    match heap.load(pointer, Ty::Mutex) {
        Ok(Value::Held(holder)) => holder != 0,
        _ => false,
    }
}
