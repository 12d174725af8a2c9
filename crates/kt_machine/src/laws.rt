//! Laws of the definitions, each the contract of a function that does nothing.

ghost use Rattle.kt_lone.specs.Laws.{AreTurnsOf};
ghost use Rattle.kt_lone.specs.Plain.{job_of};
ghost use Rattle.kt_lone.specs.Turn.{first_world, world, world_from};
ghost use Rattle.kt_lone.specs.Typed.{IsTypedJob};
ghost use Rattle.kt_machine.specs.Engine.{code_engine, AreCodesOf};
ghost use Rattle.kt_machine.specs.Same.{IsSameWorld};

use kt_lone::job::Job;
use kt_pair::Compiled;

/// Where the codes are those of a job's versions, the same turns make worlds of code and worlds of the tree that stand for
/// one another: what is shared is equal, and the threads do the same acts.
pub fn same_law(job: &Job, codes: &[Compiled], turns: &[u8])
    ensures { let j = job_of job.now in AreCodesOf j codes.now → IsTypedJob j → AreTurnsOf j turns.now →
        IsSameWorld codes.now (world j turns.now)
        (world_from (code_engine codes.now) j (first_world (code_engine codes.now) j) turns.now) }
{}
