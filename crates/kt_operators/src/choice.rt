//! The conditional operator (ISO/IEC 9899:2011, 6.5.15).

ghost use Rattle.std.specs.Prelude.{◌≡◌, Ok};
ghost use Rattle.kt_tree.specs.Typed.{is_choice};
ghost use Rattle.kt_typing.specs.Operands.{scalar};
ghost use Rattle.kt_typing.specs.Rules.{with_value, with_two, value_beside, choice_type, chosen, null_if, choice};
ghost use Rattle.kt_operands.specs.Judged.{Follows};
ghost use Rattle.kt_operands.specs.Views.{environment_of, scope_of, operand_of, value_of};

use crate::beside::values_beside;
use kt_operands::environment::Environment;
use kt_operands::operand::{Operand, Value, bad_type, is_null_itself, valued};
use kt_operands::refusal::Refusal;
use kt_operands::tree;
use kt_operands::types::common;
use kt_typing::Standing;

// The type of `c ? a : b`.
fn choice_type(env: &Environment<'_>, a: u32, b: u32) -> u32
    ensures { result ≡ choice_type (scope_of env.now) a b }
{
    if env.is_pointer(a) { a } else { common(a, b) }
}

// The arms are two integers, or two pointers of one type.
fn is_choice(env: &Environment<'_>, t: u32, a: u32, b: u32) -> bool
    ensures { result ≡ is_choice (scope_of env.now) t a b }
{
    (env.is_integer(a) && env.is_integer(b) && common(a, b) == t)
        || (env.is_pointer(t) && a == t && b == t)
}

// `c ? a : b`, of values.
fn chosen(env: &Environment<'_>, at: u32, c: Value, a: Value, b: Value) -> Result<Operand, Refusal>
    ensures { Follows operand_of (chosen (environment_of env.now) at (value_of c) (value_of a) (value_of b)) result }
{
    let ty = choice_type(env, a.ty, b.ty);
    if !(env.is_scalar(c.ty) && is_choice(env, ty, a.ty, b.ty)) {
        drop((c, a, b));
        return Err(bad_type(at));
    }
    let tree = tree::chosen(env.alloc, c.tree, ty, a.tree, b.tree)?;
    Ok(valued(at, Value { ty, tree }))
}

// A choice of null and null is null.
fn null_if(null: bool, x: Operand) -> Operand
    ensures { null_if null (Ok (operand_of x)) ≡ Ok (operand_of result) }
{
    let standing = if null { Standing::Null } else { x.standing };
    Operand {
        at: x.at,
        standing,
        ty: x.ty,
        tree: x.tree,
    }
}

// `c ? a : b`, of a value and two operands.
#[tactic(auto, using(crate::proofs::Pairs::two_values))]
fn chosen_by(
    env: &Environment<'_>,
    at: u32,
    test: Value,
    a: Operand,
    b: Operand,
) -> Result<Operand, Refusal>
    ensures { Follows operand_of (with_two at (value_beside (scope_of env.now) (operand_of a) (operand_of b)) (value_beside (scope_of env.now) (operand_of b) (operand_of a)) (chosen (environment_of env.now) at (value_of test))) result }
{
    match values_beside(env, at, a, b) {
        Ok((left, right)) => chosen(env, at, test, left, right),
        Err(e) => {
            drop(test);
            Err(e)
        }
    }
}

// `c ? a : b`, where a choice of null and null is a value.
#[tactic(auto, using(crate::proofs::Steps::steps))]
fn choice_of(
    env: &Environment<'_>,
    at: u32,
    c: Operand,
    a: Operand,
    b: Operand,
) -> Result<Operand, Refusal>
    ensures { Follows operand_of (with_value at (scalar (scope_of env.now) (operand_of c)) (λ v. with_two at (value_beside (scope_of env.now) (operand_of a) (operand_of b)) (value_beside (scope_of env.now) (operand_of b) (operand_of a)) (chosen (environment_of env.now) at v))) result }
{
    let test = c.scalar(env, at)?;
    chosen_by(env, at, test, a, b)
}

/// `c ? a : b`
#[tactic(auto, using(crate::proofs::Steps::stops_null))]
pub fn choice(
    env: &Environment<'_>,
    at: u32,
    c: Operand,
    a: Operand,
    b: Operand,
) -> Result<Operand, Refusal>
    ensures { Follows operand_of (choice (environment_of env.now) at (operand_of c) (operand_of a) (operand_of b)) result }
{
    let null = is_null_itself(a.standing) && is_null_itself(b.standing);
    let chosen = choice_of(env, at, c, a, b)?;
    Ok(null_if(null, chosen))
}
