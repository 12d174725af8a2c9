//! The ends of calls, and what a call is before it is entered.
ghost use Rattle.std.specs.Prelude.{◌≡◌, ◌≤◌, length, Some};
ghost use Rattle.kt_meaning.specs.Steps.{IsHead};
ghost use Rattle.kt_code.specs.Machine.{do_one, main_returns};
ghost use Rattle.kt_code.specs.Settling.{head_of};
ghost use Rattle.kt_exec.specs.Apart.{Tries, Stops, EndsInInt, does, taken};

use crate::went::{Halt, Went};
use kt_code::{Code, Frame, Head, Instr, Private};
use kt_mem::{Act, Stored, Trap, Value};

/// How many calls may be open.
const MOST_CALLS: usize = 200;

/// What the return of `main` is.
fn main_return(value: Value) -> Head
    requires { EndsInInt (main_returns value) }
    ensures { head_of (main_returns value) ≡ Some result }
{
    match value {
        Value::Num(n) => Head::Act(Act::MainReturn(n as i32)),
        _ => Head::Trap(Trap::Uninit),
    }
}

/// The function returns the topmost value.
#[tactic(auto, using(crate::proofs::Standing::main_returns_stands))]
pub(crate) fn return_value(frame: &mut Frame, rest: &mut Private) -> Result<Went, Halt>
    requires { 1 ≤ length rest.old.operands }
    ensures { Tries (Stops Instr.Return) (does Instr.Return) frame.old rest.old frame.new rest.new result }
{
    match rest.frames.pop() {
        Some(caller) => {
            *frame = caller;
            Ok(Went::On)
        }
        None => Ok(Went::Stands),
    }
}

/// What the return of `main` has come to, whose frame is the last one.
pub(crate) fn last_return(frame: &Frame, rest: &Private) -> Head
    requires operands { 1 ≤ length rest.now.operands }
    requires stands { IsHead (does Instr.Return (taken frame.now rest.now) rest.now.operands) }
    requires ends { EndsInInt (does Instr.Return (taken frame.now rest.now) rest.now.operands) }
    ensures { head_of (does Instr.Return (taken frame.now rest.now) rest.now.operands) ≡ Some result }
{
    match rest.frames.first() {
        None => main_return(rest.operands.first().value()),
        Some(_) => unreachable!(),
    }
}

/// The function returns without a value.
pub(crate) fn leave(frame: &mut Frame, rest: &mut Private) -> Result<Went, Halt>
    ensures { Tries (Stops Instr.Leave) (does Instr.Leave) frame.old rest.old frame.new rest.new result }
{
    match rest.frames.pop() {
        Some(caller) => {
            *frame = caller;
            rest.operands.push(Stored::of(Value::Undef))?;
            Ok(Went::On)
        }
        None => Ok(Went::Stands),
    }
}

/// What the end of a thread has come to, whose frame is the last one.
pub(crate) fn last_leave(frame: &Frame, rest: &Private) -> Head
    requires { IsHead (does Instr.Leave (taken frame.now rest.now) rest.now.operands) }
    ensures { head_of (does Instr.Leave (taken frame.now rest.now) rest.now.operands) ≡ Some result }
{
    match rest.frames.first() {
        None => Head::Act(Act::ThreadEnd),
        Some(_) => unreachable!(),
    }
}

/// What a call is before it is entered: a tick, or the trap where 200 calls are open.
pub(crate) fn call(
    code: &Code,
    function: u32,
    arguments: u32,
    locals: u32,
    frame: &Frame,
    rest: &Private,
) -> Head
    requires { arguments ≤ length rest.now.operands }
    ensures { head_of (do_one code.now.entries (Instr.Call function arguments locals) (taken frame.now rest.now) rest.now.operands) ≡ Some result }
{
    if code.entry(function).is_none() {
        return Head::Trap(Trap::Uninit);
    }
    if rest.frames.count() >= MOST_CALLS - 1 {
        return Head::Trap(Trap::Depth);
    }
    Head::Act(Act::Tick)
}
