//! Acts: what a turn does first.

use crate::effects::Outcome;
use crate::entry::no_frames;
use crate::machine::{Machine, Standing, in_force};
use kt_code::{Code, Head};
use kt_exec::{answer, settle};
use kt_lone::job::Job;
use kt_lone::mark::{End, Phase};
use kt_meaning::effect_law;
use kt_mem::{Act, Mode, Reply, Trap};
use kt_pair::Compiled;
use kt_types::TypeTable;
use std::alloc::{AllocError, Global};

impl Machine {
    ghost use Rattle.std.specs.Prelude.{◌≡◌, ◌<◌, ◌≤◌, length, slice_get, Some, IfOk, OnOk};
    ghost use Rattle.kt_meaning.specs.Steps.{after_reply};
    ghost use Rattle.kt_code.specs.Agreement.{IsReplyTo};
    ghost use Rattle.kt_code.specs.Machine.{step};
    ghost use Rattle.kt_code.specs.Settling as settling;
    ghost use Rattle.kt_lone.specs.Plain.{job_of};
    ghost use Rattle.kt_lone.specs.Turn as plain_turn;
    ghost use Rattle.kt_exec.specs.Renaming.{HeadIn, IsOld, ReplyIn};
    ghost use Rattle.kt_machine.specs.Acts.{KeepsPlace, MayReply, elsewhere_at, left_at, outcome_at, own_step};
    ghost use Rattle.kt_machine.specs.ByNumber.{head_by, reply_by, Grows};
    ghost use Rattle.kt_machine.specs.Engine.{code_engine, no_frames, pairs_of, thread_of, without_ended, world_of, AreCodesOf, IsCompleteHead, IsPointHead, IsReady, IsSettled, StandsAt};
    ghost use Rattle.kt_machine.specs.Outside.{outcome_of, shown, OutcomeIn};
    ghost use Rattle.kt_machine.specs.Shared.{shared_of};

    /// The effect of what the thread stands at.
    pub(crate) fn act(
        &mut self,
        alloc: Global,
        job: &Job,
        codes: &[Compiled],
    ) -> Result<(), AllocError>
        requires codes { AreCodesOf (job_of job.now) codes.now }
        requires version { self.old.shared.version < length codes.now }
        requires live { self.old.standing ≡ Standing.Live }
        requires settled { IsSettled codes.now self.old }
        requires ready { IsReady (job_of job.now) codes.now self.old }
        ensures world { OnOk result (world_of self.new ≡ without_ended (plain_turn.acted (code_engine codes.now) (job_of job.now) (world_of self.old) 0)) }
        ensures settled { OnOk result (IsSettled codes.now self.new) }
        ensures place { OnOk result (KeepsPlace self.old self.new) }
    {
        effect_law();
        self.law();
        let types = in_force(codes, self.shared.version()).version().types();
        match self.outcome(alloc, types)? {
            Outcome::Replies(reply) => self.reply(alloc, codes, reply),
            Outcome::Waits => Ok(()),
            Outcome::Elsewhere => self.elsewhere(alloc, codes),
        }
    }

    // What becomes of what the thread stands at.
    fn outcome(&mut self, alloc: Global, types: &TypeTable) -> Result<Outcome, AllocError>
        requires complete { IsCompleteHead types.now self.old.head }
        requires names { HeadIn (IsOld (pairs_of self.old)) (Some self.old.head) }
        ensures outcome { IfOk result (λ o. outcome_at types.now (head_by (pairs_of self.old) self.old.head) (shown self.old.shared.outside) ≡ outcome_of (pairs_of self.new) o (shown self.new.shared.outside)) }
        ensures kept { IfOk result (λ o. (o ≡ Outcome.Waits → shown self.new.shared.outside ≡ shown self.old.shared.outside)
            × (o ≡ Outcome.Elsewhere → shown self.new.shared.outside ≡ shown self.old.shared.outside)) }
        ensures names { IfOk result (λ o. OutcomeIn (IsOld (pairs_of self.new)) o) }
        ensures grows { OnOk result (Grows (pairs_of self.old) (pairs_of self.new)) }
        ensures machine { self.new ≡ record self.old { shared = record self.old.shared { outside = self.new.shared.outside } } }
    {
        match &self.head {
            Head::Act(act) => self.shared.effect(alloc, types, 0, act),
            Head::Trap(trap) => Ok(Outcome::Replies(Reply::Trapped(*trap))),
        }
    }

    // The thread goes on after the reply; after a trap the run ends.
    fn reply(&mut self, alloc: Global, codes: &[Compiled], reply: Reply) -> Result<(), AllocError>
        requires version { self.old.shared.version < length codes.now }
        requires live { self.old.standing ≡ Standing.Live }
        requires settled { IsSettled codes.now self.old }
        requires reply { MayReply (own_step codes.now self.old) reply }
        requires names { ReplyIn (IsOld (pairs_of self.old)) reply }
        ensures world { OnOk result (world_of self.new ≡
            plain_turn.answered (code_engine codes.now) (world_of self.old) 0 (thread_of self.old) (shared_of self.old.shared) (reply_by (pairs_of self.old) reply)) }
        ensures settled { OnOk result (IsSettled codes.now self.new) }
        ensures place { OnOk result (KeepsPlace self.old self.new) }
    {
        self.law();
        match reply {
            Reply::Trapped(cause) => {
                self.shared.end(End::Trap(0, cause));
                Ok(())
            }
            Reply::Done | Reply::Got(_) => {
                let compiled = in_force(codes, self.shared.version());
                self.go_on(alloc, compiled.code(), reply)
            }
        }
    }

    /// The thread goes on after the reply to its act, through its quiet steps.
    pub(crate) fn go_on(
        &mut self,
        alloc: Global,
        code: &Code,
        reply: Reply,
    ) -> Result<(), AllocError>
        requires act { settling.IsAct (step code.now self.old.private) }
        requires reply { IsReplyTo (step code.now self.old.private) reply }
        requires fits { settling.Fits code.now self.old.private }
        ensures state { OnOk result (self.new.private ≡ settling.settle code.now (after_reply self.old.private (step code.now self.old.private) reply)) }
        ensures head { OnOk result (settling.head_of (step code.now self.new.private) ≡ Some self.new.head) }
        ensures fits { OnOk result (settling.Fits code.now self.new.private) }
        ensures shared { self.new.shared ≡ self.old.shared }
        ensures standing { self.new.standing ≡ self.old.standing }
    {
        answer(alloc, code, &mut self.private, reply)?;
        self.head = settle(alloc, code, &mut self.private)?;
        Ok(())
    }

    // Acts on threads and updates, and the last acts.
    fn elsewhere(&mut self, alloc: Global, codes: &[Compiled]) -> Result<(), AllocError>
        requires version { self.old.shared.version < length codes.now }
        requires live { self.old.standing ≡ Standing.Live }
        requires settled { IsSettled codes.now self.old }
        ensures world { OnOk result (world_of self.new ≡ left_at self.old.head (elsewhere_at (code_engine codes.now) (world_of self.old) (thread_of self.old) self.old.head)) }
        ensures settled { OnOk result (IsSettled codes.now self.new) }
        ensures place { OnOk result (KeepsPlace self.old self.new) }
    {
        match &self.head {
            Head::Act(act) => match act {
                Act::Create(_, _) => self.reply(alloc, codes, Reply::Trapped(Trap::Threads)),
                Act::Join(_) => self.reply(alloc, codes, Reply::Trapped(Trap::Thread)),
                Act::Point(_) => self.come_to_point(alloc, codes),
                Act::Automigrate => self.automigrate(alloc, codes),
                Act::ThreadEnd => {
                    self.end_thread(alloc);
                    Ok(())
                }
                Act::MainReturn(value) => {
                    let value = *value;
                    self.shared.end(End::Main(value));
                    Ok(())
                }
                _ => Ok(()),
            },
            Head::Trap(_) => Ok(()),
        }
    }

    // The thread has ended, and nothing is kept of its state but its version and its mode.
    fn end_thread(&mut self, alloc: Global)
        ensures { self.new ≡ record self.old {
          private = no_frames self.old.private.version self.old.private.mode;
          standing = Standing.Ended;
        } }
    {
        self.private = no_frames(alloc, self.private.version, self.private.mode);
        self.standing = Standing::Ended;
    }

    // A thread on its way nowhere parks where an update is asked for; one on its way to this point has come there.
    fn come_to_point(&mut self, alloc: Global, codes: &[Compiled]) -> Result<(), AllocError>
        requires version { self.old.shared.version < length codes.now }
        requires live { self.old.standing ≡ Standing.Live }
        requires settled { IsSettled codes.now self.old }
        requires point { IsPointHead self.old.head }
        ensures world { OnOk result (world_of self.new ≡
            plain_turn.at_point (code_engine codes.now) (world_of self.old) 0 (thread_of self.old) self.old.private.mode self.old.shared.phase) }
        ensures settled { OnOk result (IsSettled codes.now self.new) }
        ensures place { OnOk result (KeepsPlace self.old self.new) }
    {
        match (self.private.mode, self.shared.phase()) {
            (Mode::Normal, Phase::Asked) => {
                self.standing = Standing::Parked;
                Ok(())
            }
            _ => self.reply(alloc, codes, Reply::Done),
        }
    }

    fn automigrate(&mut self, alloc: Global, codes: &[Compiled]) -> Result<(), AllocError>
        requires version { self.old.shared.version < length codes.now }
        requires live { self.old.standing ≡ Standing.Live }
        requires settled { IsSettled codes.now self.old }
        requires act { self.old.head ≡ Head.Act Act.Automigrate }
        ensures world { OnOk result (world_of self.new ≡
            plain_turn.answered (code_engine codes.now) (world_of self.old) 0 (thread_of self.old)
            (plain_turn.migrated self.old.private.mode (shared_of self.old.shared)) Reply.Done) }
        ensures settled { OnOk result (IsSettled codes.now self.new) }
        ensures place { OnOk result (KeepsPlace self.old self.new) }
    {
        self.migrate();
        self.reply(alloc, codes, Reply::Done)
    }

    // Kept values are placed where the thread is on its way.
    fn migrate(&mut self)
        ensures shared { shared_of self.new.shared ≡ plain_turn.migrated self.old.private.mode (shared_of self.old.shared) }
        ensures pairs { pairs_of self.new ≡ pairs_of self.old }
        ensures thread { self.new ≡ record self.old { shared = self.new.shared } }
    {
        match self.private.mode {
            Mode::Updating(_) => self.shared.place_kept(),
            Mode::Normal => {}
        }
    }
}
