//! How a thread goes on after its act.
ghost use Rattle.std.specs.Prelude.{◌≡◌, ◌≤◌, ◌<◌, ◌^◌, suc, length, slice_get, OnOk};
ghost use Rattle.kt_types.specs.declared.kinds.Ty.{Ty};
ghost use Rattle.kt_mem.specs.declared.steps.Reply.{Reply};
ghost use Rattle.kt_meaning.specs.Requests.{told};
ghost use Rattle.kt_meaning.specs.Steps.{after_reply};
ghost use Rattle.kt_code.specs.Agreement.{IsReplyTo};
ghost use Rattle.kt_code.specs.Machine.{do_one, step};
ghost use Rattle.kt_code.specs.Requests.{operand_count};
ghost use Rattle.kt_code.specs.Settling.{Fits, HasRoom, IsAct, operands_of};
ghost use Rattle.kt_exec.specs.Apart.{Answers, GoesOn, HasOperands, does, whole};

use crate::entering::enter;
use crate::request_values::{change, request_value};
use crate::requests::operand_count;
use kt_code::{Code, Frame, Instr, Private};
use kt_mem::{Reply, Stored, Value};
use kt_tree::Request;
use std::alloc::{AllocError, Global};

/// The value that a reply tells.
fn told(reply: Reply) -> Value
    ensures { result ≡ told reply }
{
    match reply {
        Reply::Got(value) => value,
        _ => Value::Undef,
    }
}

/// What is loaded takes the pointer's place.
fn load(reply: Reply, frame: &mut Frame, rest: &mut Private) -> Result<(), AllocError>
    requires operands { 1 ≤ length rest.old.operands }
    requires room { suc frame.old.at < 2 ^ 32 }
    ensures { (ty : Ty) → Answers (does (Instr.Load ty)) reply frame.old rest.old frame.new rest.new result }
{
    rest.operands.replace(Stored::of(told(reply)));
    frame.next();
    Ok(())
}

/// What is loaded is put on the pointer.
fn fetch(reply: Reply, frame: &mut Frame, rest: &mut Private) -> Result<(), AllocError>
    requires operands { 1 ≤ length rest.old.operands }
    requires room { suc frame.old.at < 2 ^ 32 }
    ensures { (ty : Ty) → Answers (does (Instr.Fetch ty)) reply frame.old rest.old frame.new rest.new result }
{
    rest.operands.push(Stored::of(told(reply)))?;
    frame.next();
    Ok(())
}

/// What is stored stays, and the pointer goes.
fn store(frame: &mut Frame, rest: &mut Private) -> Result<(), AllocError>
    requires operands { 2 ≤ length rest.old.operands }
    requires room { suc frame.old.at < 2 ^ 32 }
    ensures { (ty : Ty) (reply : Reply) → Answers (does (Instr.Store ty)) reply frame.old rest.old frame.new rest.new result }
{
    let value = rest.operands.first();
    rest.operands.replace_two(value);
    frame.next();
    Ok(())
}

/// The value before stays; what is stored and the pointer go.
fn store_old(frame: &mut Frame, rest: &mut Private) -> Result<(), AllocError>
    requires operands { 3 ≤ length rest.old.operands }
    requires room { suc frame.old.at < 2 ^ 32 }
    ensures { (ty : Ty) (reply : Reply) → Answers (does (Instr.StoreOld ty)) reply frame.old rest.old frame.new rest.new result }
{
    rest.operands.drop_first();
    let old = rest.operands.first();
    rest.operands.replace_two(old);
    frame.next();
    Ok(())
}

/// A tick changes nothing.
fn tick(frame: &mut Frame, rest: &Private) -> Result<(), AllocError>
    requires { suc frame.old.at < 2 ^ 32 }
    ensures { (reply : Reply) → Answers (does Instr.Tick) reply frame.old rest.now frame.new rest.now result }
{
    frame.next();
    Ok(())
}

/// What a request gives takes its operands' place.
fn ask(
    alloc: Global,
    request: &Request,
    reply: Reply,
    frame: &mut Frame,
    rest: &mut Private,
) -> Result<(), AllocError>
    requires operands { operand_count request.now ≤ length rest.old.operands }
    requires room { suc frame.old.at < 2 ^ 32 }
    ensures { Answers (does (Instr.Ask request.now)) reply frame.old rest.old frame.new rest.new result }
{
    let count = operand_count(request);
    let value = request_value(request, rest.operands.last(count), told(reply), frame, rest);
    change(alloc, request, frame, rest);
    rest.operands.discard(count);
    rest.operands.push(Stored::of(value))?;
    frame.next();
    Ok(())
}

/// How a thread goes on after the act of this instruction.
fn go_on_after(
    alloc: Global,
    code: &Code,
    instr: &Instr,
    reply: Reply,
    frame: &mut Frame,
    rest: &mut Private,
) -> Result<(), AllocError>
    requires operands { operands_of instr.now ≤ length rest.old.operands }
    requires room { HasRoom frame.old.at instr.now }
    ensures { Answers (do_one code.now.entries instr.now) reply frame.old rest.old frame.new rest.new result }
{
    match instr {
        Instr::Load(_) => load(reply, frame, rest),
        Instr::Fetch(_) => fetch(reply, frame, rest),
        Instr::Store(_) => store(frame, rest),
        Instr::StoreOld(_) => store_old(frame, rest),
        Instr::Ask(request) => ask(alloc, request.get(), reply, frame, rest),
        Instr::Tick => tick(frame, rest),
        Instr::Call {
            function,
            arguments,
            locals,
        } => enter(alloc, code, *function, *arguments, *locals, frame, rest),
        // No act.
        _ => Ok(()),
    }
}

/// How a thread whose latest frame stands apart goes on after its act.
fn go_on_apart(
    alloc: Global,
    code: &Code,
    reply: Reply,
    frame: &mut Frame,
    rest: &mut Private,
) -> Result<(), AllocError>
    requires { HasOperands (slice_get code.now.instrs frame.old.at) rest.old.operands }
    ensures { OnOk result (GoesOn (step code.now (whole frame.old rest.old)) reply (whole frame.new rest.new)) }
{
    let instr = code.instr(frame.at);
    go_on_after(alloc, code, instr, reply, frame, rest)
}

/// Tells a thread that stands at an act what became of it: it goes on, but stays as it is where the act trapped. Where
/// memory runs out, nothing is known of the thread.
pub fn answer(
    alloc: Global,
    code: &Code,
    private: &mut Private,
    reply: Reply,
) -> Result<(), AllocError>
    requires act { IsAct (step code.now private.old) }
    requires reply { IsReplyTo (step code.now private.old) reply }
    requires fits { Fits code.now private.old }
    ensures state { OnOk result (private.new ≡ after_reply private.old (step code.now private.old) reply) }
    ensures fits { OnOk result (Fits code.now private.new) }
{
    if matches!(reply, Reply::Trapped(_)) {
        return Ok(());
    }
    let Some(mut frame) = private.frames.pop() else {
        unreachable!();
    };
    go_on_apart(alloc, code, reply, &mut frame, private)?;
    private.frames.push(frame)?;
    Ok(())
}
