//! Operations on the topmost values.
ghost use Rattle.std.specs.Prelude.{◌≡◌, ◌≤◌, ◌<◌, ◌^◌, suc, length};
ghost use Rattle.kt_mem.specs.Elements.{elements_between};
ghost use Rattle.kt_meaning.specs.Operations.{element_sum};
ghost use Rattle.kt_code.specs.Machine.{unary, binary};
ghost use Rattle.kt_exec.specs.Apart.{TriesQuiet};
ghost use Rattle.kt_exec.specs.Operations.{of_one, of_two};

use crate::went::{Halt, Went};
use kt_code::{Frame, Instr, Private};
use kt_mem::{
    Stored, Trap, Value, add, add_elements, div, elements_between, equal, greater, greater_equal,
    less, less_equal, mul, narrow, not, not_equal, rem, sub, sub_elements,
};

/// `p + i` and `i + p`, where an element has that many cells.
#[inline]
fn element_after(a: Value, b: Value, width: u32) -> Result<Value, Trap>
    ensures { result ≡ element_sum width a b }
{
    match a {
        Value::Num(_) => add_elements(b, a, width),
        _ => add_elements(a, b, width),
    }
}

/// How many elements lie between two pointers. Elements without cells lie at one place.
#[inline]
fn between(a: Value, b: Value, width: u32) -> Result<Value, Trap>
    ensures { result ≡ elements_between a b width }
{
    if width > 0 {
        return elements_between(a, b, width);
    }
    match elements_between(a, b, 1)? {
        Value::Num(0) => Ok(Value::Num(0)),
        _ => Err(Trap::Bounds),
    }
}

/// What an operation gives for one operand.
#[inline(always)]
fn value_of_one(instr: &Instr, a: Value) -> Result<Value, Trap>
    ensures { result ≡ of_one instr.now a }
{
    match instr {
        Instr::Convert(ty) => narrow(*ty, a),
        Instr::Not => not(a),
        Instr::Field(cells) => add_elements(a, Value::Num(1), *cells),
        _ => Err(Trap::Uninit),
    }
}

/// What an operation gives for two operands.
#[inline(always)]
fn value_of_two(instr: &Instr, a: Value, b: Value) -> Result<Value, Trap>
    ensures { result ≡ of_two instr.now a b }
{
    match instr {
        Instr::Add(ty) => add(*ty, a, b),
        Instr::Subtract(ty) => sub(*ty, a, b),
        Instr::Multiply(ty) => mul(*ty, a, b),
        Instr::Divide(ty) => div(*ty, a, b),
        Instr::Remainder(ty) => rem(*ty, a, b),
        Instr::Less => less(a, b),
        Instr::Greater => greater(a, b),
        Instr::LessEqual => less_equal(a, b),
        Instr::GreaterEqual => greater_equal(a, b),
        Instr::Equal => equal(a, b),
        Instr::NotEqual => not_equal(a, b),
        Instr::ElementAfter(width) => element_after(a, b, *width),
        Instr::ElementBefore(width) => sub_elements(a, b, *width),
        Instr::ElementsBetween(width) => between(a, b, *width),
        _ => Err(Trap::Uninit),
    }
}

/// What an operation gives for one operand. A number, the usual one, goes a way of its own.
#[inline]
fn on_one(instr: &Instr, a: Stored) -> Result<Stored, Trap>
    ensures { result ≡ of_one instr.now a }
{
    let value = match a.number() {
        Some(x) => value_of_one(instr, Value::Num(x))?,
        None => value_of_one(instr, a.value())?,
    };
    Ok(Stored::of(value))
}

/// What an operation gives for two operands. Numbers, the usual ones, go a way of their own.
#[inline]
fn on_two(instr: &Instr, a: Stored, b: Stored) -> Result<Stored, Trap>
    ensures { result ≡ of_two instr.now a b }
{
    let value = match (a.number(), b.number()) {
        (Some(x), Some(y)) => value_of_two(instr, Value::Num(x), Value::Num(y))?,
        _ => value_of_two(instr, a.value(), b.value())?,
    };
    Ok(Stored::of(value))
}

/// An operation on the topmost value.
#[inline]
pub(crate) fn operate_on_one(
    instr: &Instr,
    frame: &mut Frame,
    rest: &mut Private,
) -> Result<Went, Halt>
    requires operands { 1 ≤ length rest.old.operands }
    requires room { suc frame.old.at < 2 ^ 32 }
    ensures { TriesQuiet (unary (of_one instr.now)) frame.old rest.old frame.new rest.new result }
{
    let value = on_one(instr, rest.operands.first())?;
    rest.operands.replace(value);
    frame.next();
    Ok(Went::On)
}

/// An operation on the two topmost values, the right one above the left one.
#[inline]
pub(crate) fn operate_on_two(
    instr: &Instr,
    frame: &mut Frame,
    rest: &mut Private,
) -> Result<Went, Halt>
    requires operands { 2 ≤ length rest.old.operands }
    requires room { suc frame.old.at < 2 ^ 32 }
    ensures { TriesQuiet (binary (of_two instr.now)) frame.old rest.old frame.new rest.new result }
{
    let (a, b) = rest.operands.first_two();
    let value = on_two(instr, a, b)?;
    rest.operands.replace_two(value);
    frame.next();
    Ok(Went::On)
}
