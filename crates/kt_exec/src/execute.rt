//! One step of a thread.
ghost use Rattle.std.specs.Prelude.{◌≤◌, length, slice_get};
ghost use Rattle.kt_code.specs.Machine.{do_one, step};
ghost use Rattle.kt_code.specs.Settling.{HasRoom, operands_of};
ghost use Rattle.kt_exec.specs.Apart.{HasOperands, IsTried, StopsAt, Stops, Tries, whole};

use crate::calls::{leave, return_value};
use crate::jumps::{and, back, back_if_not_zero, or, skip, skip_if_zero, test};
use crate::locals::{read, set, swap, undefine};
use crate::operations::{operate_on_one, operate_on_two};
use crate::stack::{discard, duplicate, put};
use crate::went::{Halt, Went};
use kt_code::{Code, Frame, Instr, Private};
use kt_mem::{Name, Stored, Trap, Value};

/// One step of a thread whose latest frame stands apart: a quiet one is taken; at any other the thread stays as it is.
#[inline]
pub(crate) fn step(code: &Code, frame: &mut Frame, rest: &mut Private) -> Result<Went, Halt>
    requires { HasOperands (slice_get code.now.instrs frame.old.at) rest.old.operands }
    ensures { IsTried (StopsAt (slice_get code.now.instrs frame.old.at)) (step code.now (whole frame.old rest.old)) (whole frame.old rest.old) (whole frame.new rest.new) result }
{
    let instr = code.instr(frame.at);
    execute(code, instr, frame, rest)
}

/// One instruction.
#[inline]
fn execute(code: &Code, instr: &Instr, frame: &mut Frame, rest: &mut Private) -> Result<Went, Halt>
    requires operands { operands_of instr.now ≤ length rest.old.operands }
    requires room { HasRoom frame.old.at instr.now }
    ensures { Tries (Stops instr.now) (do_one code.now.entries instr.now) frame.old rest.old frame.new rest.new result }
{
    match instr {
        Instr::Number(n) => put(Stored::of(Value::Num(*n)), frame, rest),
        Instr::Null => put(Stored::of(Value::Null), frame, rest),
        Instr::Global(n) => put(Stored::of(Value::Ptr(Name::Glob(*n), 0)), frame, rest),
        Instr::Literal(n) => {
            let pointer = Value::Ptr(Name::Lit(rest.version, *n), 0);
            put(Stored::of(pointer), frame, rest)
        }
        Instr::Read(n) => read(*n, frame, rest),
        Instr::Set(n) => set(*n, frame, rest),
        Instr::Swap(n) => swap(*n, frame, rest),
        Instr::Undefine(n) => undefine(*n, frame, rest),
        Instr::Discard => discard(frame, rest),
        Instr::Duplicate => duplicate(frame, rest),
        Instr::Add(_) => operate_on_two(instr, frame, rest),
        Instr::Subtract(_) => operate_on_two(instr, frame, rest),
        Instr::Multiply(_) => operate_on_two(instr, frame, rest),
        Instr::Divide(_) => operate_on_two(instr, frame, rest),
        Instr::Remainder(_) => operate_on_two(instr, frame, rest),
        Instr::Convert(_) => operate_on_one(instr, frame, rest),
        Instr::Less => operate_on_two(instr, frame, rest),
        Instr::Greater => operate_on_two(instr, frame, rest),
        Instr::LessEqual => operate_on_two(instr, frame, rest),
        Instr::GreaterEqual => operate_on_two(instr, frame, rest),
        Instr::Equal => operate_on_two(instr, frame, rest),
        Instr::NotEqual => operate_on_two(instr, frame, rest),
        Instr::Not => operate_on_one(instr, frame, rest),
        Instr::ElementAfter(_) => operate_on_two(instr, frame, rest),
        Instr::ElementBefore(_) => operate_on_two(instr, frame, rest),
        Instr::ElementsBetween(_) => operate_on_two(instr, frame, rest),
        Instr::Field(_) => operate_on_one(instr, frame, rest),
        Instr::Load(_) => Ok(Went::Stands),
        Instr::Fetch(_) => Ok(Went::Stands),
        Instr::Store(_) => Ok(Went::Stands),
        Instr::StoreOld(_) => Ok(Went::Stands),
        Instr::Ask(_) => Ok(Went::Stands),
        Instr::Tick => Ok(Went::Stands),
        Instr::Call { .. } => Ok(Went::Stands),
        Instr::Skip(count) => skip(*count, frame, rest),
        Instr::SkipIfZero(count) => skip_if_zero(*count, frame, rest),
        Instr::And(count) => and(*count, frame, rest),
        Instr::Or(count) => or(*count, frame, rest),
        Instr::Truth => test(frame, rest),
        Instr::Back(count) => back(*count, frame, rest),
        Instr::BackIfNotZero(count) => back_if_not_zero(*count, frame, rest),
        Instr::Return => return_value(frame, rest),
        Instr::Leave => leave(frame, rest),
        Instr::NoValue => Err(Halt::Trap(Trap::Uninit)),
    }
}
