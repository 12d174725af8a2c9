//! What a thread has come to where its next instruction is no quiet step.
ghost use Rattle.std.specs.Prelude.{◌≡◌, ◌≤◌, length, slice_get, Some, IfOk};
ghost use Rattle.kt_meaning.specs.Steps.{IsHead};
ghost use Rattle.kt_code.specs.Machine.{Here, do_one, step};
ghost use Rattle.kt_code.specs.Settling.{head_of, operands_of};
ghost use Rattle.kt_exec.specs.Apart.{EndsInInt, HasOperands, Stops, StopsAt, does, taken, whole};

use crate::calls::{call, last_leave, last_return};
use crate::requests::ask;
use kt_code::{Code, Frame, Head, Instr, Operands, Private};
use kt_mem::Act;
use kt_types::Ty;
use std::alloc::{AllocError, Global};

/// A load at the topmost value.
fn load(ty: Ty, operands: &Operands) -> Head
    requires { 1 ≤ length operands.now }
    ensures load { (x : Here) → head_of (does (Instr.Load ty) x operands.now) ≡ Some result }
    ensures fetch { (x : Here) → head_of (does (Instr.Fetch ty) x operands.now) ≡ Some result }
{
    Head::Act(Act::Load(operands.first().value(), ty))
}

/// A store of the topmost value at the one below.
fn store(ty: Ty, operands: &Operands) -> Head
    requires { 2 ≤ length operands.now }
    ensures { (x : Here) → head_of (does (Instr.Store ty) x operands.now) ≡ Some result }
{
    let (pointer, value) = operands.first_two();
    Head::Act(Act::Store(pointer.value(), ty, value.value()))
}

/// A store of the topmost value at the one below the one before.
fn store_old(ty: Ty, operands: &Operands) -> Head
    requires { 3 ≤ length operands.now }
    ensures { (x : Here) → head_of (does (Instr.StoreOld ty) x operands.now) ≡ Some result }
{
    match operands.last(3) {
        [pointer, _, value] => Head::Act(Act::Store(pointer.value(), ty, value.value())),
        _ => unreachable!(),
    }
}

/// What a thread has come to whose latest frame stands apart: its act, its end, or the trap of a call or a request.
pub(crate) fn come_to(
    alloc: Global,
    code: &Code,
    frame: &Frame,
    rest: &Private,
) -> Result<Head, AllocError>
    requires operands { HasOperands (slice_get code.now.instrs frame.now.at) rest.now.operands }
    requires stops { StopsAt (slice_get code.now.instrs frame.now.at) }
    requires stands { IsHead (step code.now (whole frame.now rest.now)) }
    requires ends { EndsInInt (step code.now (whole frame.now rest.now)) }
    ensures { IfOk result (λ h. head_of (step code.now (whole frame.now rest.now)) ≡ Some h) }
{
    let instr = code.instr(frame.at);
    come_to_at(alloc, code, instr, frame, rest)
}

/// What a thread has come to that stands at this instruction.
fn come_to_at(
    alloc: Global,
    code: &Code,
    instr: &Instr,
    frame: &Frame,
    rest: &Private,
) -> Result<Head, AllocError>
    requires operands { operands_of instr.now ≤ length rest.now.operands }
    requires stops { Stops instr.now }
    requires stands { IsHead (do_one code.now.entries instr.now (taken frame.now rest.now) rest.now.operands) }
    requires ends { EndsInInt (do_one code.now.entries instr.now (taken frame.now rest.now) rest.now.operands) }
    ensures { IfOk result (λ h. head_of (do_one code.now.entries instr.now (taken frame.now rest.now) rest.now.operands) ≡ Some h) }
{
    match instr {
        Instr::Load(ty) => Ok(load(*ty, &rest.operands)),
        Instr::Fetch(ty) => Ok(load(*ty, &rest.operands)),
        Instr::Store(ty) => Ok(store(*ty, &rest.operands)),
        Instr::StoreOld(ty) => Ok(store_old(*ty, &rest.operands)),
        Instr::Ask(request) => ask(alloc, request.get(), frame, rest),
        Instr::Tick => Ok(Head::Act(Act::Tick)),
        Instr::Call {
            function,
            arguments,
            locals,
        } => Ok(call(code, *function, *arguments, *locals, frame, rest)),
        Instr::Return => Ok(last_return(frame, rest)),
        Instr::Leave => Ok(last_leave(frame, rest)),
        _ => unreachable!(),
    }
}
