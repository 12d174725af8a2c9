//! What threads share: the version in force, memory, input and output, the phase of the update and the journal's marks.

ghost use Rattle.std.specs.Prelude.{◌≡◌, is_some};
ghost use Rattle.kt_lone.specs.Job.{version_at};
ghost use Rattle.kt_lone.specs.Plain.{job_of};

use crate::effects::{Outcome, effect};
use crate::outside::Outside;
use kt_heap::Heap;
use kt_lone::job::Job;
use kt_lone::mark::{Closed, End, Mark, Phase};
use kt_mem::{Act, Value};
use kt_types::TypeTable;
use std::alloc::{AllocError, Global};
use std::marker::Model;

/// What threads share.
#[derive(Drop)]
pub struct Shared {
    version: u8,
    outside: Outside,
    kept: Vec<Option<Value>>,
    phase: Phase,
    after: Vec<u32>,
    requests: u8,
    turns: u32,
    marks: Vec<Mark>,
    ended: Option<End>,
}

impl Model for Shared {
    ghost use Rattle.std.specs.Prelude.{◌+◌, ◌<◌, ◌≤◌, vec_len};
    ghost use Rattle.kt_machine.specs.Outside.{AreNumbers};
    ghost use Rattle.kt_machine.specs.Shared as spec;

    ghost Value = { spec.Shared };

    ghost view = { λ s. record {
      version = s.version;
      outside = s.outside;
      kept = s.kept.items;
      phase = s.phase;
      after = s.after.items;
      requests = s.requests;
      turns = s.turns;
      marks = s.marks.items;
      ended = s.ended;
    } };

    ghost invariant = { λ s. (s.requests + vec_len s.after < 256) × (vec_len s.kept ≤ 4294967296) × AreNumbers s.kept.items };
}

impl Shared {
    ghost use Rattle.std.specs.Prelude.{◌≡◌, ◌+◌, ◌<◌, ◌≤◌, ◌^◌, [], ◌∷◌, ◌++◌, IfOk, None, OnOk, Some, drop, length, vec_len};
    ghost use Rattle.kt_mem.specs.Renaming.{renamed};
    ghost use Rattle.kt_heap.specs.ByNumber.{by_number, HoldsGiven};
    ghost use Rattle.kt_heap.specs.Heap.{memory, given, AreOneToOne};
    ghost use Rattle.kt_meaning.specs.Effects as plain;
    ghost use Rattle.kt_exec.specs.Renaming.{ActIn, IsOld, rename_act};
    ghost use Rattle.kt_machine.specs.ByNumber.{Grows};
    ghost use Rattle.kt_machine.specs.Outside.{outcome_of, pairs_in, shown, AreNumbers, HasCharLiterals, IsComplete, OutcomeIn};
    ghost use Rattle.kt_machine.specs.Shared.{shared_of};
    ghost use Rattle.kt_lone.specs.Plain.{job_of};
    ghost use Rattle.kt_lone.specs.Turn.{asked, ended_as, request, spent, with_mark};
    ghost use Rattle.kt_lone.specs.Update.{marked, placed};

    /// Before the first turn of a run: this heap and this input, and requests after these numbers of turns.
    pub fn new(alloc: Global, outside: Outside, after: Vec<u32>) -> Shared
        requires { vec_len after < 256 }
        ensures { result ≡ record {
          version = 0;
          outside = outside;
          kept = [];
          phase = Phase.Run;
          after = after.items;
          requests = 0;
          turns = 0;
          marks = [];
          ended = None;
        } }
    {
        Shared {
            version: 0,
            outside,
            kept: Vec::new(alloc),
            phase: Phase::Run,
            after,
            requests: 0,
            turns: 0,
            marks: Vec::new(alloc),
            ended: None,
        }
    }

    /// The number of the version in force, counted from 0.
    pub fn version(&self) -> u8
        ensures { result ≡ self.now.version }
    {
        self.version
    }

    /// Memory, input and output.
    pub fn outside(&self) -> &Outside
        ensures { result.now ≡ self.now.outside }
    {
        &self.outside
    }

    /// What an act of this thread does to memory, input and output, where the table has the types of its version.
    pub fn effect(
        &mut self,
        alloc: Global,
        types: &TypeTable,
        thread: u8,
        act: &Act,
    ) -> Result<Outcome, AllocError>
        requires complete { IsComplete types.now act.now }
        requires names { ActIn (IsOld (pairs_in self.old.outside)) act.now }
        ensures outcome { IfOk result (λ o. plain.effect types.now thread (rename_act (renamed (pairs_in self.old.outside)) act.now) (shown self.old.outside) ≡ outcome_of (pairs_in self.new.outside) o (shown self.new.outside)) }
        ensures names { IfOk result (λ o. OutcomeIn (IsOld (pairs_in self.new.outside)) o) }
        ensures grows { OnOk result (Grows (pairs_in self.old.outside) (pairs_in self.new.outside)) }
        ensures kept { IfOk result (λ o. (o ≡ Outcome.Waits → shown self.new.outside ≡ shown self.old.outside)
            × (o ≡ Outcome.Elsewhere → shown self.new.outside ≡ shown self.old.outside)) }
        ensures rest { self.new ≡ record self.old { outside = self.new.outside } }
    {
        effect(alloc, &mut self.outside, types, thread, act)
    }

    /// Places all kept values, which are then kept no more.
    pub fn place_kept(&mut self)
        ensures placed { shared_of self.new ≡ record (shared_of self.old) { memory = placed self.old.kept (shared_of self.old).memory; kept = [] } }
        ensures pairs { pairs_in self.new.outside ≡ pairs_in self.old.outside }
    {
        self.outside.place(self.kept.as_slice());
        self.kept.clear();
    }

    /// How the run has ended.
    pub fn ended(&self) -> Option<End>
        ensures { result ≡ self.now.ended }
    {
        self.ended
    }

    /// Where the run stands between an update's request and its end.
    pub fn phase(&self) -> Phase
        ensures { result ≡ self.now.phase }
    {
        self.phase
    }

    /// The turns so far.
    pub fn turns(&self) -> u32
        ensures { result ≡ self.now.turns }
    {
        self.turns
    }

    /// The output, and the journal's marks.
    pub fn into_output_and_marks(self) -> (Vec<u8>, Vec<Mark>)
        ensures output { result.0.items ≡ self.outside.output }
        ensures marks { result.1.items ≡ self.marks }
    {
        let Shared { outside, marks, .. } = self;
        (outside.into_output(), marks)
    }

    fn mark(&mut self, mark: Mark) -> Result<(), AllocError>
        ensures shared { OnOk result (shared_of self.new ≡ marked mark (shared_of self.old)) }
        ensures outside { OnOk result (self.new.outside ≡ self.old.outside) }
    {
        self.marks.push(mark)?;
        Ok(())
    }

    /// The run ends so.
    pub fn end(&mut self, how: End)
        ensures shared { shared_of self.new ≡ record (shared_of self.old) { ended = Some how } }
        ensures outside { self.new.outside ≡ self.old.outside }
    {
        self.ended = Some(how);
    }

    /// An end is marked.
    pub fn mark_end(&mut self) -> Result<(), AllocError>
        ensures shared { OnOk result (shared_of self.new ≡ with_mark self.old.ended (shared_of self.old)) }
        ensures outside { OnOk result (self.new.outside ≡ self.old.outside) }
    {
        match self.ended {
            None => Ok(()),
            Some(how) => self.mark(Mark::End {
                turn: self.turns,
                how,
            }),
        }
    }

    /// One turn more.
    pub fn count_turn(&mut self)
        requires { self.old.turns < 2 ^ 31 }
        ensures shared { shared_of self.new ≡ record (shared_of self.old) { turns = self.old.turns + 1 } }
        ensures outside { self.new.outside ≡ self.old.outside }
    {
        self.turns += 1;
    }

    /// `main` has come to its point.
    pub fn mark_main(&mut self) -> Result<(), AllocError>
        ensures shared { OnOk result (shared_of self.new ≡ marked (Mark.MainThere self.old.turns self.old.requests) (record (shared_of self.old) { phase = Phase.Others })) }
        ensures outside { OnOk result (self.new.outside ≡ self.old.outside) }
    {
        self.phase = Phase::Others;
        self.mark(Mark::MainThere {
            turn: self.turns,
            k: self.requests,
        })
    }

    /// All threads have come to their points.
    pub fn mark_back(&mut self) -> Result<(), AllocError>
        ensures shared { OnOk result (shared_of self.new ≡ marked (Mark.Back self.old.turns self.old.requests) (record (shared_of self.old) { phase = Phase.Run })) }
        ensures outside { OnOk result (self.new.outside ≡ self.old.outside) }
    {
        self.phase = Phase::Run;
        self.mark(Mark::Back {
            turn: self.turns,
            k: self.requests,
        })
    }

    /// The closing was refused, since the new version lacks that thread's point.
    pub fn mark_refused(&mut self, thread: u8) -> Result<(), AllocError>
        ensures shared { OnOk result (shared_of self.new ≡ marked (Mark.Close self.old.turns self.old.requests (Closed.Point thread)) (record (shared_of self.old) { phase = Phase.Run })) }
        ensures outside { OnOk result (self.new.outside ≡ self.old.outside) }
    {
        self.phase = Phase::Run;
        self.mark(Mark::Close {
            turn: self.turns,
            k: self.requests,
            closed: Closed::Point(thread),
        })
    }

    /// The update was made: this is the heap with which the new version begins, and these values are kept aside.
    pub fn mark_updated(&mut self, heap: Heap, kept: Vec<Option<Value>>) -> Result<(), AllocError>
        requires version { self.old.version < 16 }
        requires literals { HasCharLiterals (memory heap) }
        requires names { HoldsGiven (given heap) (memory heap) }
        requires few { vec_len kept ≤ 4294967296 }
        requires numbers { AreNumbers kept.items }
        ensures shared { OnOk result (shared_of self.new ≡ marked (Mark.Close self.old.turns self.old.requests (Closed.Ok 0)) (record (shared_of self.old) {
          version = self.old.version + 1;
          memory = by_number (given heap) (memory heap);
          kept = kept.items;
          phase = Phase.Main;
        })) }
        ensures heap { OnOk result (self.new.outside.heap ≡ heap) }
    {
        self.version += 1;
        self.outside.set_heap(heap);
        self.kept = kept;
        self.phase = Phase::Main;
        self.mark(Mark::Close {
            turn: self.turns,
            k: self.requests,
            closed: Closed::Ok(0),
        })
    }

    /// The next request, where no update is under way, a next version exists, and enough turns were made.
    pub fn ask(&mut self, job: &Job) -> Result<(), AllocError>
        requires { self.old.version < 16 }
        ensures shared { OnOk result (shared_of self.new ≡ asked (job_of job.now) self.old.phase (shared_of self.old)) }
        ensures outside { OnOk result (self.new.outside ≡ self.old.outside) }
    {
        match self.phase {
            Phase::Run => self.request(job),
            Phase::Asked | Phase::Main | Phase::Others => Ok(()),
        }
    }

    fn request(&mut self, job: &Job) -> Result<(), AllocError>
        requires { self.old.version < 16 }
        ensures shared { OnOk result (shared_of self.new ≡ request (job_of job.now) self.old.after (shared_of self.old)) }
        ensures outside { OnOk result (self.new.outside ≡ self.old.outside) }
    {
        match self.after.first() {
            Some(turns) if has_version(job, self.version + 1) && *turns <= self.turns =>
                self.take_request(),
            _ => Ok(()),
        }
    }

    fn take_request(&mut self) -> Result<(), AllocError>
        requires { 0 < length self.old.after }
        ensures shared { OnOk result (shared_of self.new ≡ marked (Mark.Ask self.old.turns (self.old.requests + 1)) (record (shared_of self.old) {
          phase = Phase.Asked;
          after = drop 1 self.old.after;
          requests = self.old.requests + 1;
        })) }
        ensures outside { OnOk result (self.new.outside ≡ self.old.outside) }
    {
        self.after.remove(0);
        self.phase = Phase::Asked;
        self.requests += 1;
        self.mark(Mark::Ask {
            turn: self.turns,
            k: self.requests,
        })
    }

    /// The end where nobody may take a turn.
    pub fn end_stuck(&mut self) -> Result<(), AllocError>
        ensures shared { OnOk result (shared_of self.new ≡ ended_as End.Stuck (shared_of self.old)) }
        ensures outside { OnOk result (self.new.outside ≡ self.old.outside) }
    {
        self.ended = Some(End::Stuck);
        self.mark_end()
    }

    /// The end by budget, where as many turns were made.
    pub fn spend(&mut self, job: &Job) -> Result<(), AllocError>
        ensures shared { OnOk result (shared_of self.new ≡ spent (job_of job.now) (shared_of self.old)) }
        ensures outside { OnOk result (self.new.outside ≡ self.old.outside) }
    {
        if self.turns == job.budget {
            self.ended = Some(End::Budget);
            self.mark_end()
        } else {
            Ok(())
        }
    }
}

fn has_version(job: &Job, version: u8) -> bool
    ensures { result ≡ is_some (version_at (job_of job.now) version) }
{
    usize::from(version) < job.versions.len()
}
