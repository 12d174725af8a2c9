//! Operations on the values of operands.
ghost use Rattle.std.specs.Prelude.{◌≡◌, ◌∷◌, []};
ghost use Rattle.kt_mem.specs.Elements.{elements_between};
ghost use Rattle.kt_meaning.specs.Operations.{apply_operation, element_sum};
ghost use Rattle.xf_eval.specs.Operands.{list_of};

use crate::fields::{field_place, width};
use crate::operands::Operands;
use kt_mem::{
    Trap, Value, add, add_elements, div, elements_between, equal, greater, greater_equal, less,
    less_equal, mul, narrow, not, not_equal, rem, sub, sub_elements,
};
use kt_tree::Operation;
use kt_types::TypeTable;

/// What an operation gives, at the type at a place of the table.
pub(crate) fn apply(
    types: &TypeTable,
    op: Operation,
    ty: u32,
    operands: Operands,
) -> Result<Value, Trap>
    ensures { result ≡ apply_operation types.now op ty (list_of operands) }
{
    match operands {
        Operands::One(a) => on_one(types, op, ty, a),
        Operands::Two(a, b) => on_two(types, op, ty, a, b),
        Operands::Empty => Err(Trap::Uninit),
        Operands::More => Err(Trap::Uninit),
    }
}

// Of one operand.
fn on_one(types: &TypeTable, op: Operation, ty: u32, a: Value) -> Result<Value, Trap>
    ensures { result ≡ apply_operation types.now op ty (a ∷ []) }
{
    match op {
        Operation::Not => not(a),
        Operation::Convert => match types.get(ty) {
            Some(ty) => narrow(ty, a),
            None => Err(Trap::Uninit),
        },
        Operation::Field(number, index) => field_place(types, number, index, a),
        _ => Err(Trap::Uninit),
    }
}

// Of two operands.
fn on_two(types: &TypeTable, op: Operation, ty: u32, a: Value, b: Value) -> Result<Value, Trap>
    ensures { result ≡ apply_operation types.now op ty (a ∷ b ∷ []) }
{
    match op {
        Operation::Add => match types.get(ty) {
            Some(ty) => add(ty, a, b),
            None => Err(Trap::Uninit),
        },
        Operation::Subtract => match types.get(ty) {
            Some(ty) => sub(ty, a, b),
            None => Err(Trap::Uninit),
        },
        Operation::Multiply => match types.get(ty) {
            Some(ty) => mul(ty, a, b),
            None => Err(Trap::Uninit),
        },
        Operation::Divide => match types.get(ty) {
            Some(ty) => div(ty, a, b),
            None => Err(Trap::Uninit),
        },
        Operation::Remainder => match types.get(ty) {
            Some(ty) => rem(ty, a, b),
            None => Err(Trap::Uninit),
        },
        Operation::Less => less(a, b),
        Operation::Greater => greater(a, b),
        Operation::LessEqual => less_equal(a, b),
        Operation::GreaterEqual => greater_equal(a, b),
        Operation::Equal => equal(a, b),
        Operation::NotEqual => not_equal(a, b),
        Operation::ElementAfter(element) => element_after(a, b, width(types, element)),
        Operation::ElementBefore(element) => sub_elements(a, b, width(types, element)),
        Operation::ElementsBetween(element) => between(a, b, width(types, element)),
        _ => Err(Trap::Uninit),
    }
}

// `p + i` and `i + p`, where an element has that many cells.
fn element_after(a: Value, b: Value, width: u32) -> Result<Value, Trap>
    ensures { result ≡ element_sum width a b }
{
    match a {
        Value::Num(_) => add_elements(b, a, width),
        _ => add_elements(a, b, width),
    }
}

// How many elements lie between two pointers. Elements without cells lie at one place.
fn between(a: Value, b: Value, width: u32) -> Result<Value, Trap>
    ensures { result ≡ elements_between a b width }
{
    if width > 0 {
        return elements_between(a, b, width);
    }
    match elements_between(a, b, 1)? {
        Value::Num(0) => Ok(Value::Num(0)),
        _ => Err(Trap::Bounds),
    }
}
