//! Laws of the definitions, each the contract of a function that does nothing.

ghost use Rattle.std.specs.Prelude.{◌≡◌, ◌↔◌, ◌++◌, ◌∷◌, [], ℕ};
ghost use Rattle.kt_lone.specs.Laws.{AreTurnsOf};
ghost use Rattle.kt_lone.specs.Plain.{job_of};
ghost use Rattle.kt_lone.specs.Turn.{MayTurn, tree_engine, turn, world};
ghost use Rattle.kt_lone.specs.Typed.{IsTypedJob, IsTypedWorld, IsWellFormed};

use crate::job::Job;
use crate::mark::Phase;

/// One turn more is the world's next. A thread may take the next turn exactly where the turns before may be taken and
/// it may take one in their world; the world of the longer list is then one turn of it from theirs. While `main` is on
/// its way to its point after an update, no other thread may.
///
/// In each world each global of the version in force has its object, and there is one thread. Where the job's versions
/// are programs and its input is bytes, each cell and each kept value is of its type, and the thread is one of the
/// version in force, unless it has ended.
pub fn world_law(job: &Job, turns: &[u8])
    ensures followed { let j = job_of job.now in (t : ℕ) →
        AreTurnsOf j (turns.now ++ t ∷ []) ↔ (AreTurnsOf j turns.now × MayTurn (tree_engine j) (world j turns.now) t) }
    ensures next { let j = job_of job.now in (t : ℕ) → AreTurnsOf j (turns.now ++ t ∷ []) →
        world j (turns.now ++ t ∷ []) ≡ turn (tree_engine j) j (world j turns.now) t }
    ensures main_alone { let j = job_of job.now in (t : ℕ) → AreTurnsOf j (turns.now ++ t ∷ []) →
        (world j turns.now).shared.phase ≡ Phase.Main → t ≡ 0 }
    ensures well_formed { let j = job_of job.now in AreTurnsOf j turns.now → IsWellFormed j (world j turns.now) }
    ensures typed { let j = job_of job.now in IsTypedJob j → AreTurnsOf j turns.now → IsTypedWorld j (world j turns.now) }
{}
