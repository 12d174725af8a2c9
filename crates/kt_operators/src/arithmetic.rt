//! Arithmetic and comparisons of values (ISO/IEC 9899:2011, 6.5.5 to 6.5.9).

ghost use Rattle.std.specs.Prelude.{◌≡◌};
ghost use Rattle.std.specs.Option.{option_map};
ghost use Rattle.kt_typing.specs.Rules.{combined, sum, difference, combination, of_values};
ghost use Rattle.kt_operands.specs.Judged.{Follows};
ghost use Rattle.kt_operands.specs.Views.{environment_of, scope_of, operand_of, value_of};
ghost use Rattle.kt_operators.specs.Views.{combined_of};

use kt_grammar::BinaryOperator;
use kt_operands::environment::Environment;
use kt_operands::given::operated;
use kt_operands::operand::{Operand, Value, bad_type};
use kt_operands::refusal::Refusal;
use kt_operands::types::{INT, LONG, common};
use kt_tree::Operation;

/// An operation and the type of what it gives.
#[derive(Clone, Copy)]
pub struct Combined {
    pub operation: Operation,
    pub own: u32,
}

fn giving(operation: Operation, own: u32) -> Combined
    ensures { combined_of result ≡ combined operation own }
{
    Combined { operation, own }
}

// A pointer that an integer moves, on either side of `+`; or two integers.
fn sum(env: &Environment<'_>, a: u32, b: u32) -> Combined
    ensures { combined_of result ≡ sum (scope_of env.now) a b }
{
    match env.pointee(a) {
        Some(e) => giving(Operation::ElementAfter(e), a),
        None => match env.pointee(b) {
            Some(e) => giving(Operation::ElementAfter(e), b),
            None => giving(Operation::Add, common(a, b)),
        },
    }
}

// A pointer and an integer, two pointers, or two integers.
fn difference(env: &Environment<'_>, a: u32, b: u32) -> Combined
    ensures { combined_of result ≡ difference (scope_of env.now) a b }
{
    match env.pointee(a) {
        Some(e) => {
            if env.is_pointer(b) {
                giving(Operation::ElementsBetween(e), LONG)
            } else {
                giving(Operation::ElementBefore(e), a)
            }
        }
        None => giving(Operation::Subtract, common(a, b)),
    }
}

/// What an operator does with two values of these types; `&&` and `||` are no operations.
pub fn combination(env: &Environment<'_>, op: BinaryOperator, a: u32, b: u32) -> Option<Combined>
    ensures { option_map combined_of result ≡ combination (scope_of env.now) op a b }
{
    match op {
        BinaryOperator::Add => Some(sum(env, a, b)),
        BinaryOperator::Subtract => Some(difference(env, a, b)),
        BinaryOperator::Multiply => Some(giving(Operation::Multiply, common(a, b))),
        BinaryOperator::Divide => Some(giving(Operation::Divide, common(a, b))),
        BinaryOperator::Remainder => Some(giving(Operation::Remainder, common(a, b))),
        BinaryOperator::Less => Some(giving(Operation::Less, INT)),
        BinaryOperator::Greater => Some(giving(Operation::Greater, INT)),
        BinaryOperator::LessEqual => Some(giving(Operation::LessEqual, INT)),
        BinaryOperator::GreaterEqual => Some(giving(Operation::GreaterEqual, INT)),
        BinaryOperator::Equal => Some(giving(Operation::Equal, INT)),
        BinaryOperator::NotEqual => Some(giving(Operation::NotEqual, INT)),
        BinaryOperator::And => None,
        BinaryOperator::Or => None,
    }
}

/// A binary operator of two values; `&&` and `||` are none of these.
#[tactic(auto, using(crate::proofs::Steps::combined_next, crate::proofs::Steps::combined_none))]
pub fn of_values(
    env: &Environment<'_>,
    at: u32,
    op: BinaryOperator,
    a: Value,
    b: Value,
) -> Result<Operand, Refusal>
    ensures { Follows operand_of (of_values (environment_of env.now) at op (value_of a) (value_of b)) result }
{
    match combination(env, op, a.ty, b.ty) {
        Some(c) => operated(env, at, c.operation, c.own, a, b),
        None => {
            drop((a, b));
            Err(bad_type(at))
        }
    }
}
