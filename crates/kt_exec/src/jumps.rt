//! Jumps.
ghost use Rattle.std.specs.Prelude.{◌≡◌, ◌≤◌, ◌<◌, ◌+◌, ◌^◌, suc, length};
ghost use Rattle.kt_exec.specs.Apart.{TriesQuiet, does};

use crate::went::{Halt, Went};
use kt_code::{Frame, Instr, Private};
use kt_mem::{Stored, truth};

/// Passes instructions.
#[inline]
pub(crate) fn skip(count: u32, frame: &mut Frame, rest: &Private) -> Result<Went, Halt>
    requires { suc frame.old.at + count < 2 ^ 32 }
    ensures { TriesQuiet (does (Instr.Skip count)) frame.old rest.now frame.new rest.now result }
{
    frame.pass(count);
    Ok(Went::On)
}

/// Goes back.
#[inline]
pub(crate) fn back(count: u32, frame: &mut Frame, rest: &Private) -> Result<Went, Halt>
    requires { suc frame.old.at < 2 ^ 32 }
    ensures { TriesQuiet (does (Instr.Back count)) frame.old rest.now frame.new rest.now result }
{
    frame.go_back(count);
    Ok(Went::On)
}

/// Takes a value; at zero passes instructions.
#[inline]
pub(crate) fn skip_if_zero(count: u32, frame: &mut Frame, rest: &mut Private) -> Result<Went, Halt>
    requires operands { 1 ≤ length rest.old.operands }
    requires room { suc frame.old.at + count < 2 ^ 32 }
    ensures { TriesQuiet (does (Instr.SkipIfZero count)) frame.old rest.old frame.new rest.new result }
{
    if rest.operands.first().is_zero()? {
        rest.operands.drop_first();
        frame.pass(count);
    } else {
        rest.operands.drop_first();
        frame.next();
    }
    Ok(Went::On)
}

/// Takes the left operand of `&&`; at zero the whole is 0, and the right one is passed.
#[inline]
pub(crate) fn and(count: u32, frame: &mut Frame, rest: &mut Private) -> Result<Went, Halt>
    requires operands { 1 ≤ length rest.old.operands }
    requires room { suc frame.old.at + count < 2 ^ 32 }
    ensures { TriesQuiet (does (Instr.And count)) frame.old rest.old frame.new rest.new result }
{
    if rest.operands.first().is_zero()? {
        rest.operands.replace(Stored::of(truth(false)));
        frame.pass(count);
    } else {
        rest.operands.drop_first();
        frame.next();
    }
    Ok(Went::On)
}

/// Takes the left operand of `||`; at any value but zero the whole is 1, and the right one is passed.
#[inline]
pub(crate) fn or(count: u32, frame: &mut Frame, rest: &mut Private) -> Result<Went, Halt>
    requires operands { 1 ≤ length rest.old.operands }
    requires room { suc frame.old.at + count < 2 ^ 32 }
    ensures { TriesQuiet (does (Instr.Or count)) frame.old rest.old frame.new rest.new result }
{
    if rest.operands.first().is_zero()? {
        rest.operands.drop_first();
        frame.next();
    } else {
        rest.operands.replace(Stored::of(truth(true)));
        frame.pass(count);
    }
    Ok(Went::On)
}

/// Takes a value, and puts 0 where it is zero, else 1.
#[inline]
pub(crate) fn test(frame: &mut Frame, rest: &mut Private) -> Result<Went, Halt>
    requires operands { 1 ≤ length rest.old.operands }
    requires room { suc frame.old.at < 2 ^ 32 }
    ensures { TriesQuiet (does Instr.Truth) frame.old rest.old frame.new rest.new result }
{
    let is_zero = rest.operands.first().is_zero()?;
    rest.operands.replace(Stored::of(truth(!is_zero)));
    frame.next();
    Ok(Went::On)
}

/// Takes a value; at any but zero goes back.
#[inline]
pub(crate) fn back_if_not_zero(
    count: u32,
    frame: &mut Frame,
    rest: &mut Private,
) -> Result<Went, Halt>
    requires operands { 1 ≤ length rest.old.operands }
    requires room { suc frame.old.at < 2 ^ 32 }
    ensures { TriesQuiet (does (Instr.BackIfNotZero count)) frame.old rest.old frame.new rest.new result }
{
    if rest.operands.first().is_zero()? {
        rest.operands.drop_first();
        frame.next();
    } else {
        rest.operands.drop_first();
        frame.go_back(count);
    }
    Ok(Went::On)
}
