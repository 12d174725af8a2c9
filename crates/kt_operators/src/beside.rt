//! Two operands as values, of which null takes its type from the other.

ghost use Rattle.kt_typing.specs.Operands.{value, scalar};
ghost use Rattle.kt_typing.specs.Rules.{null_beside, value_beside};
ghost use Rattle.kt_operands.specs.Judged.{Follows, found_two};
ghost use Rattle.kt_operands.specs.Views.{scope_of, operand_of, values_of};

use kt_operands::convert::null_value;
use kt_operands::environment::Environment;
use kt_operands::operand::{Operand, Value, bad_type, is_null_itself};
use kt_operands::refusal::Refusal;

/// Two values.
#[tactic(auto, using(crate::proofs::Pairs::pairs))]
pub fn values(
    env: &Environment<'_>,
    at: u32,
    a: Operand,
    b: Operand,
) -> Result<(Value, Value), Refusal>
    ensures { Follows values_of (found_two at (value (scope_of env.now) (operand_of a)) (value (scope_of env.now) (operand_of b))) result }
{
    let left = a.value(env, at)?;
    let right = b.value(env, at)?;
    Ok((left, right))
}

/// Two values, of which each may be null.
#[tactic(auto, using(crate::proofs::Pairs::pairs))]
pub fn scalars(
    env: &Environment<'_>,
    at: u32,
    a: Operand,
    b: Operand,
) -> Result<(Value, Value), Refusal>
    ensures { Follows values_of (found_two at (scalar (scope_of env.now) (operand_of a)) (scalar (scope_of env.now) (operand_of b))) result }
{
    let left = a.scalar(env, at)?;
    let right = b.scalar(env, at)?;
    Ok((left, right))
}

// Null of the type of the pointer beside it, and that pointer.
#[tactic(auto, using(crate::proofs::Pairs::pairs))]
fn null_and(
    env: &Environment<'_>,
    at: u32,
    null: Operand,
    other: Operand,
) -> Result<(Value, Value), Refusal>
    ensures { Follows values_of (found_two at (null_beside (scope_of env.now) (operand_of null) (value (scope_of env.now) (operand_of other))) (value (scope_of env.now) (operand_of other))) result }
{
    let pointer = other.value(env, at)?;
    if !env.is_pointer(pointer.ty) {
        drop((null, pointer));
        return Err(bad_type(at));
    }
    let null = null_value(env, pointer.ty, null)?;
    Ok((null, pointer))
}

// A pointer, and null of its type beside it.
#[tactic(auto, using(crate::proofs::Pairs::pairs))]
fn and_null(
    env: &Environment<'_>,
    at: u32,
    other: Operand,
    null: Operand,
) -> Result<(Value, Value), Refusal>
    ensures { Follows values_of (found_two at (value (scope_of env.now) (operand_of other)) (null_beside (scope_of env.now) (operand_of null) (value (scope_of env.now) (operand_of other)))) result }
{
    let (null, pointer) = null_and(env, at, null, other)?;
    Ok((pointer, null))
}

/// Two values beside one another, of which null takes the type of the other; null beside null is a `char *`.
pub fn values_beside(
    env: &Environment<'_>,
    at: u32,
    a: Operand,
    b: Operand,
) -> Result<(Value, Value), Refusal>
    ensures { Follows values_of (found_two at (value_beside (scope_of env.now) (operand_of a) (operand_of b)) (value_beside (scope_of env.now) (operand_of b) (operand_of a))) result }
{
    if is_null_itself(a.standing) {
        if is_null_itself(b.standing) {
            scalars(env, at, a, b)
        } else {
            null_and(env, at, a, b)
        }
    } else if is_null_itself(b.standing) {
        and_null(env, at, a, b)
    } else {
        values(env, at, a, b)
    }
}
