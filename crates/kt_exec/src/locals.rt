//! Reading and writing locals.
ghost use Rattle.std.specs.Prelude.{◌≡◌, ◌≤◌, ◌<◌, ◌^◌, suc, length, slice_get};
ghost use Rattle.kt_meaning.specs.Thread.{defined_if};
ghost use Rattle.kt_exec.specs.Apart.{TriesQuiet, does};

use crate::stack::put;
use crate::went::{Halt, Went};
use kt_code::{Frame, Instr, Private};
use kt_mem::{Stored, Trap, Value};

/// What a local holds, or the trap where that is undefined.
#[inline]
fn local_value(frame: &Frame, n: u32) -> Result<Stored, Trap>
    ensures { result ≡ defined_if (slice_get frame.now.locals n) }
{
    match frame.locals.get(n) {
        Some(value) => value.defined(),
        None => Err(Trap::Uninit),
    }
}

/// Puts the value of a local.
#[inline]
pub(crate) fn read(n: u32, frame: &mut Frame, rest: &mut Private) -> Result<Went, Halt>
    requires { suc frame.old.at < 2 ^ 32 }
    ensures { TriesQuiet (does (Instr.Read n)) frame.old rest.old frame.new rest.new result }
{
    let value = local_value(frame, n)?;
    put(value, frame, rest)
}

/// A local takes the topmost value, which stays.
#[inline]
pub(crate) fn set(n: u32, frame: &mut Frame, rest: &Private) -> Result<Went, Halt>
    requires operands { 1 ≤ length rest.now.operands }
    requires room { suc frame.old.at < 2 ^ 32 }
    ensures { TriesQuiet (does (Instr.Set n)) frame.old rest.now frame.new rest.now result }
{
    frame.locals.set(n, rest.operands.first());
    frame.next();
    Ok(Went::On)
}

/// A local takes the topmost value, and gives the one that it had.
#[inline]
pub(crate) fn swap(n: u32, frame: &mut Frame, rest: &mut Private) -> Result<Went, Halt>
    requires operands { 1 ≤ length rest.old.operands }
    requires room { suc frame.old.at < 2 ^ 32 }
    ensures { TriesQuiet (does (Instr.Swap n)) frame.old rest.old frame.new rest.new result }
{
    let old = local_value(frame, n)?;
    frame.locals.set(n, rest.operands.first());
    rest.operands.replace(old);
    frame.next();
    Ok(Went::On)
}

/// A local is undefined from here on.
#[inline]
pub(crate) fn undefine(n: u32, frame: &mut Frame, rest: &Private) -> Result<Went, Halt>
    requires { suc frame.old.at < 2 ^ 32 }
    ensures { TriesQuiet (does (Instr.Undefine n)) frame.old rest.now frame.new rest.now result }
{
    frame.locals.set(n, Stored::of(Value::Undef));
    frame.next();
    Ok(Went::On)
}
