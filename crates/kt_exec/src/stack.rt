//! Values put and taken.
ghost use Rattle.std.specs.Prelude.{◌≡◌, ◌≤◌, ◌<◌, ◌^◌, suc, ◌∷◌, length};
ghost use Rattle.kt_code.specs.Machine.{goes};
ghost use Rattle.kt_exec.specs.Apart.{TriesQuiet, does};

use crate::went::{Halt, Went};
use kt_code::{Frame, Instr, Private};
use kt_mem::Stored;

/// Puts a value.
#[inline]
pub(crate) fn put(value: Stored, frame: &mut Frame, rest: &mut Private) -> Result<Went, Halt>
    requires { suc frame.old.at < 2 ^ 32 }
    ensures { TriesQuiet (λ x ops. goes x (value ∷ ops)) frame.old rest.old frame.new rest.new result }
{
    rest.operands.push(value)?;
    frame.next();
    Ok(Went::On)
}

/// Takes a value.
#[inline]
pub(crate) fn discard(frame: &mut Frame, rest: &mut Private) -> Result<Went, Halt>
    requires operands { 1 ≤ length rest.old.operands }
    requires room { suc frame.old.at < 2 ^ 32 }
    ensures { TriesQuiet (does Instr.Discard) frame.old rest.old frame.new rest.new result }
{
    rest.operands.drop_first();
    frame.next();
    Ok(Went::On)
}

/// Puts the topmost value once more.
#[inline]
pub(crate) fn duplicate(frame: &mut Frame, rest: &mut Private) -> Result<Went, Halt>
    requires operands { 1 ≤ length rest.old.operands }
    requires room { suc frame.old.at < 2 ^ 32 }
    ensures { TriesQuiet (does Instr.Duplicate) frame.old rest.old frame.new rest.new result }
{
    let value = rest.operands.first();
    put(value, frame, rest)
}
