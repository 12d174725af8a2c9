//! Settling: all quiet steps of a thread.
ghost use Rattle.std.specs.Prelude.{◌≡◌, Some, IfOk, OnOk};
ghost use Rattle.kt_code.specs.Machine.{step};
ghost use Rattle.kt_code.specs.Settling.{Fits, HasEach, head_of, settle};
ghost use Rattle.kt_exec.specs.Apart.{HasRun, whole};

use crate::execute::step;
use crate::heads::come_to;
use crate::went::{Halt, Went};
use kt_code::{Code, Frame, Head, Private};
use std::alloc::{AllocError, Global};

/// All quiet steps of a thread whose latest frame stands apart.
fn run(code: &Code, frame: &mut Frame, rest: &mut Private) -> Result<(), Halt>
    requires { HasEach code.now (whole frame.old rest.old) }
    ensures { HasRun code.now (whole frame.old rest.old) frame.new rest.new result }
{
    // Tells where the jumps lead, so that the quiet steps end.
    let _jumps = code.instrs();
    'steps: loop {
        match step(code, frame, rest)? {
            Went::On => {}
            Went::Stands => return Ok(()),
        }
    }
}

/// All quiet steps of a thread whose latest frame stands apart, and what it has come to.
fn settle_apart(
    alloc: Global,
    code: &Code,
    frame: &mut Frame,
    rest: &mut Private,
) -> Result<Head, AllocError>
    requires { Fits code.now (whole frame.old rest.old) }
    ensures stands { OnOk result (whole frame.new rest.new ≡ settle code.now (whole frame.old rest.old)) }
    ensures head { IfOk result (λ head. head_of (step code.now (whole frame.new rest.new)) ≡ Some head) }
{
    match run(code, frame, rest) {
        Ok(()) => come_to(alloc, code, frame, rest),
        Err(Halt::Trap(trap)) => Ok(Head::Trap(trap)),
        Err(Halt::NoMemory(fault)) => Err(fault),
    }
}

/// Takes a thread's quiet steps, and tells what it has come to. Where memory runs out, nothing is known of the thread.
pub fn settle(alloc: Global, code: &Code, private: &mut Private) -> Result<Head, AllocError>
    requires { Fits code.now private.old }
    ensures stands { OnOk result (private.new ≡ settle code.now private.old) }
    ensures head { IfOk result (λ head. head_of (step code.now private.new) ≡ Some head) }
    ensures fits { OnOk result (Fits code.now private.new) }
{
    let Some(mut frame) = private.frames.pop() else {
        unreachable!();
    };
    let head = settle_apart(alloc, code, &mut frame, private)?;
    match private.frames.push(frame) {
        Ok(()) => Ok(head),
        Err(fault) => {
            drop(head);
            Err(fault)
        }
    }
}
