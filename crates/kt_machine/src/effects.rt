//! What an act does to memory, input and output.
ghost use Rattle.std.specs.Prelude.{◌≡◌, IfOk, OnOk};
ghost use Rattle.kt_meaning.specs.Effects.{effect};
ghost use Rattle.kt_mem.specs.Renaming.{renamed};
ghost use Rattle.kt_exec.specs.Renaming.{ActIn, IsOld, rename_act};
ghost use Rattle.kt_machine.specs.ByNumber.{Grows};
ghost use Rattle.kt_machine.specs.Outside.{IsComplete, OutcomeIn, outcome_of, pairs_in, shown};

use crate::outside::Outside;
use kt_mem::{Act, Reply};
use kt_types::TypeTable;
use std::alloc::{AllocError, Global};

/// What becomes of an act.
#[derive(Clone, Copy)]
pub enum Outcome {
    /// This reply.
    Replies(Reply),
    /// The thread waits.
    Waits,
    /// It is an act on threads or updates.
    Elsewhere,
}

/// What an act of this thread does, where the table has the types of its version. It takes memory for new objects and for
/// output; where memory runs out, nothing is known of what it touches.
pub fn effect(
    alloc: Global,
    outside: &mut Outside,
    types: &TypeTable,
    thread: u8,
    act: &Act,
) -> Result<Outcome, AllocError>
    requires complete { IsComplete types.now act.now }
    requires names { ActIn (IsOld (pairs_in outside.old)) act.now }
    ensures outcome { IfOk result (λ o. effect types.now thread (rename_act (renamed (pairs_in outside.old)) act.now) (shown outside.old) ≡ outcome_of (pairs_in outside.new) o (shown outside.new)) }
    ensures kept { IfOk result (λ o. (o ≡ Outcome.Waits → shown outside.new ≡ shown outside.old) × (o ≡ Outcome.Elsewhere → shown outside.new ≡ shown outside.old)) }
    ensures names { IfOk result (λ o. OutcomeIn (IsOld (pairs_in outside.new)) o) }
    ensures grows { OnOk result (Grows (pairs_in outside.old) (pairs_in outside.new)) }
{
    match act {
        Act::Tick | Act::MigrateLocal(..) | Act::UpdatingTest(_) => {
            Ok(Outcome::Replies(Reply::Done))
        }
        Act::Load(p, ty) => Ok(Outcome::Replies(outside.load(*p, *ty))),
        Act::Store(p, ty, v) => Ok(Outcome::Replies(outside.store(*p, *ty, *v))),
        Act::Allocate(ty, count, zero) => {
            let reply = outside.allocate(alloc, types, *ty, *count, *zero)?;
            Ok(Outcome::Replies(reply))
        }
        Act::Release(p) => Ok(Outcome::Replies(outside.release(*p))),
        Act::Lock(p) => Ok(outside.lock(thread, *p)),
        Act::Unlock(p) => Ok(Outcome::Replies(outside.unlock(thread, *p))),
        Act::InitMutex(p) => Ok(Outcome::Replies(outside.init_mutex(*p))),
        Act::GetChar => Ok(Outcome::Replies(outside.next_byte())),
        Act::Print(pieces) => {
            let reply = outside.print(pieces.as_slice())?;
            Ok(Outcome::Replies(reply))
        }
        Act::Wait(_)
        | Act::Signal(..)
        | Act::Create(..)
        | Act::Join(_)
        | Act::Point(_)
        | Act::Automigrate
        | Act::ThreadEnd
        | Act::MainReturn(_) => Ok(Outcome::Elsewhere),
    }
}
