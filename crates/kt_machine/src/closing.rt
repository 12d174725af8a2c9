//! The closing: the update, or its refusal.

ghost use Rattle.std.specs.Prelude.{◌≡◌, MatchOption, None, Some};
ghost use Rattle.kt_lone.specs.Job as plain_job;
ghost use Rattle.kt_lone.specs.Plain.{job_of};

use crate::entry::settled_main;
use crate::first_heap::first_heap;
use crate::globals::{kept_values, new_point};
use crate::machine::{Machine, Standing, in_force};
use kt_code::{Head, Private};
use kt_lone::job::Job;
use kt_lone::mark::Phase;
use kt_mem::{Act, Mode, Reply};
use kt_pair::Compiled;
use kt_tree::Version;
use std::alloc::{AllocError, Global};

impl Machine {
    ghost use Rattle.std.specs.Prelude.{◌≡◌, ◌+◌, ◌<◌, ◌≤◌, [], false, length, Some, slice_get, IfSome, OnOk, option_and_then};
    ghost use Rattle.kt_meaning.specs.Laws.{IsShared};
    ghost use Rattle.kt_meaning.specs.ThreadTypes.{IsMode};
    ghost use Rattle.kt_lone.specs.Plain.{job_of};
    ghost use Rattle.kt_lone.specs.World.{outside_of};
    ghost use Rattle.kt_lone.specs.Job as plain_job;
    ghost use Rattle.kt_lone.specs.Turn as plain_turn;
    ghost use Rattle.kt_lone.specs.Update as plain;
    ghost use Rattle.kt_lone.specs.World as plain_world;
    ghost use Rattle.kt_machine.specs.Closing.{old_point, with_restart};
    ghost use Rattle.kt_machine.specs.Engine.{code_engine, code_entry, code_settle, pairs_of, standing_of, thread_of, world_of, AreCodesOf, IsSettled};
    ghost use Rattle.kt_machine.specs.Shared.{shared_of};

    /// The closing, where an update is asked for and the thread is parked or has ended.
    pub(crate) fn close_up(
        &mut self,
        alloc: Global,
        job: &Job,
        codes: &[Compiled],
    ) -> Result<(), AllocError>
        requires codes { AreCodesOf (job_of job.now) codes.now }
        requires few { length codes.now ≤ 16 }
        requires version { self.old.shared.version < length codes.now }
        requires settled { IsSettled codes.now self.old }
        requires shared { IsShared (outside_of (shared_of self.old.shared)) }
        ensures world { OnOk result (world_of self.new ≡
            plain_turn.ongoing (λ w. plain_turn.closed_up (code_engine codes.now) (job_of job.now) w.shared.phase w) (world_of self.old)) }
        ensures settled { OnOk result (IsSettled codes.now self.new) }
        ensures version { OnOk result (self.new.shared.version < length codes.now) }
    {
        match (self.shared.ended(), self.shared.phase(), self.standing) {
            (None, Phase::Asked, Standing::Parked | Standing::Ended) => self.close(
                alloc, job, codes,
            ),
            _ => Ok(()),
        }
    }

    fn close(&mut self, alloc: Global, job: &Job, codes: &[Compiled]) -> Result<(), AllocError>
        requires codes { AreCodesOf (job_of job.now) codes.now }
        requires few { length codes.now ≤ 16 }
        requires version { self.old.shared.version < length codes.now }
        requires settled { IsSettled codes.now self.old }
        requires shared { IsShared (outside_of (shared_of self.old.shared)) }
        requires still { plain_turn.is_live (standing_of self.old.standing) ≡ false }
        ensures world { OnOk result (world_of self.new ≡ plain.closing (code_engine codes.now) (job_of job.now) (world_of self.old)) }
        ensures settled { OnOk result (IsSettled codes.now self.new) }
        ensures version { OnOk result (self.new.shared.version < length codes.now) }
    {
        let version = self.shared.version();
        match version_at(job, version) {
            Some(old) => match version_at(job, version + 1) {
                Some(new) => self.decide(alloc, job, codes, old, new),
                None => Ok(()),
            },
            None => Ok(()),
        }
    }

    // The update, or its refusal where the new version lacks the thread's point.
    fn decide(
        &mut self,
        alloc: Global,
        job: &Job,
        codes: &[Compiled],
        old: &Version,
        new: &Version,
    ) -> Result<(), AllocError>
        requires codes { AreCodesOf (job_of job.now) codes.now }
        requires few { length codes.now ≤ 16 }
        requires version { self.old.shared.version < length codes.now }
        requires new { plain_job.version_at (job_of job.now) (self.old.shared.version + 1) ≡ Some new.now }
        requires settled { IsSettled codes.now self.old }
        requires shared { IsShared (outside_of (shared_of self.old.shared)) }
        requires still { plain_turn.is_live (standing_of self.old.standing) ≡ false }
        ensures world { OnOk result (world_of self.new ≡
            plain.closed_between (code_engine codes.now) (Some old.now) (Some new.now) (world_of self.old)) }
        ensures settled { OnOk result (IsSettled codes.now self.new) }
        ensures version { OnOk result (self.new.shared.version < length codes.now) }
    {
        self.law();
        match self.standing {
            Standing::Parked => match self.next_point(old, new) {
                Some(point) => self.restart(alloc, job, codes, old, new, point),
                None => self.refuse(alloc, codes),
            },
            Standing::Ended => self.update(alloc, old, new),
            Standing::Live => Ok(()),
        }
    }

    // The point of the new version that corresponds to the one at which the thread stands.
    fn next_point(&self, old: &Version, new: &Version) -> Option<u32>
        ensures point { result ≡ option_and_then (plain.new_point old.now new.now) (old_point self.now.head) }
        ensures within { IfSome result (λ point. point < new.now.points.updates) }
    {
        match &self.head {
            Head::Act(Act::Point(point)) => new_point(old, new, *point),
            _ => None,
        }
    }

    // The new version's globals, and the old values that are kept.
    fn update(&mut self, alloc: Global, old: &Version, new: &Version) -> Result<(), AllocError>
        requires few { self.old.shared.version < 16 }
        requires shared { IsShared (outside_of (shared_of self.old.shared)) }
        ensures shared { OnOk result ((codes : _) → shared_of self.new.shared ≡ (plain.updated (code_engine codes) old.now new.now (world_of self.old)).shared) }
        ensures pairs { OnOk result (pairs_of self.new ≡ []) }
        ensures thread { self.new ≡ record self.old { shared = self.new.shared } }
    {
        self.law();
        let version = self.shared.version() + 1;
        let kept = kept_values(alloc, old, self.shared.outside().heap(), new)?;
        let heap = first_heap(alloc, version, new, self.shared.outside().heap().next())?;
        self.shared.mark_updated(heap, kept)
    }

    // The update of a thread that is parked at a point: it begins anew, on the way to this one.
    fn restart(
        &mut self,
        alloc: Global,
        job: &Job,
        codes: &[Compiled],
        old: &Version,
        new: &Version,
        point: u32,
    ) -> Result<(), AllocError>
        requires codes { AreCodesOf (job_of job.now) codes.now }
        requires few { length codes.now ≤ 16 }
        requires version { self.old.shared.version < length codes.now }
        requires shared { IsShared (outside_of (shared_of self.old.shared)) }
        requires new { plain_job.version_at (job_of job.now) (self.old.shared.version + 1) ≡ Some new.now }
        requires point { point < new.now.points.updates }
        ensures world { OnOk result (world_of self.new ≡ with_restart (code_engine codes.now) old.now new.now point (world_of self.old)) }
        ensures settled { OnOk result (IsSettled codes.now self.new) }
        ensures version { OnOk result (self.new.shared.version < length codes.now) }
    {
        let _job = job;
        self.update(alloc, old, new)?;
        let version = self.shared.version();
        let compiled = in_force(codes, version);
        let (private, head) = settled_main(alloc, version, compiled, Mode::Updating(point))?;
        self.begin(private, head);
        Ok(())
    }

    // The thread stands there, and takes turns.
    fn begin(&mut self, private: Private, head: Head)
        ensures { self.new ≡ record { shared = self.old.shared; private = private; head = head; standing = Standing.Live } }
    {
        self.private = private;
        self.head = head;
        self.standing = Standing::Live;
    }

    // The refusal: the thread goes on past its point.
    fn refuse(&mut self, alloc: Global, codes: &[Compiled]) -> Result<(), AllocError>
        requires version { self.old.shared.version < length codes.now }
        requires settled { IsSettled codes.now self.old }
        requires parked { self.old.standing ≡ Standing.Parked }
        ensures world { OnOk result (world_of self.new ≡ plain.refused (code_engine codes.now) 0 (world_of self.old)) }
        ensures settled { OnOk result (IsSettled codes.now self.new) }
        ensures version { OnOk result (self.new.shared.version ≡ self.old.shared.version) }
    {
        self.law();
        let compiled = in_force(codes, self.shared.version());
        self.go_on(alloc, compiled.code(), Reply::Done)?;
        self.standing = Standing::Live;
        self.shared.mark_refused(0)
    }
}

// The version of that number.
fn version_at(job: &Job, version: u8) -> Option<&Version>
    ensures { MatchOption result (plain_job.version_at (job_of job.now) version ≡ None)
        (λ program. plain_job.version_at (job_of job.now) version ≡ Some program.now) }
{
    job.versions.get(usize::from(version))
}
