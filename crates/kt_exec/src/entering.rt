//! Entering a call.
ghost use Rattle.std.specs.Prelude.{◌≡◌, ◌≤◌, ◌<◌, ◌++◌, ◌^◌, suc, replicate, ◌-◌, length, IfOk};
ghost use Rattle.kt_mem.specs.declared.steps.Reply.{Reply};
ghost use Rattle.kt_code.specs.Machine.{do_one};
ghost use Rattle.kt_exec.specs.Apart.{Answers};

use kt_code::{Code, Frame, Instr, Locals, Private};
use kt_mem::{Stored, Value};
use std::alloc::{AllocError, Global};
use std::mem;

/// The values of a function's locals at its entry: the arguments, and the undefined value for the others.
fn first_locals(alloc: Global, count: u32, arguments: &[Stored]) -> Result<Vec<Stored>, AllocError>
    ensures { IfOk result (λ locals. locals.items ≡ arguments.now ++ replicate (count - length arguments.now) Value.Undef) }
{
    let mut locals = Vec::with_capacity(alloc, count as usize)?;
    locals.extend_from_slice(arguments)?;
    if locals.len() < count as usize {
        locals.resize(count as usize, Stored::of(Value::Undef))?;
    }
    Ok(locals)
}

/// The call of a function begins, with the topmost values as arguments.
pub(crate) fn enter(
    alloc: Global,
    code: &Code,
    function: u32,
    arguments: u32,
    locals: u32,
    frame: &mut Frame,
    rest: &mut Private,
) -> Result<(), AllocError>
    requires operands { arguments ≤ length rest.old.operands }
    requires room { suc frame.old.at < 2 ^ 32 }
    ensures { (reply : Reply) → Answers (do_one code.now.entries (Instr.Call function arguments locals)) reply frame.old rest.old frame.new rest.new result }
{
    let Some(at) = code.entry(function) else {
        return Ok(());
    };
    let count = arguments as usize;
    let locals = Locals::from_vec(first_locals(alloc, locals, rest.operands.last(count))?);
    rest.operands.discard(count);
    frame.next();
    let entered = Frame {
        function,
        at,
        locals,
    };
    rest.frames.push(mem::replace(frame, entered))
}
