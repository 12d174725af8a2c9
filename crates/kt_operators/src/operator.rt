//! Binary operators (ISO/IEC 9899:2011, 6.5.5 to 6.5.14).

ghost use Rattle.std.specs.Prelude.{◌≡◌, IfOk};
ghost use Rattle.kt_grammar.specs.declared.operator.BinaryOperator.TheVariants as binary;
ghost use Rattle.kt_tree.specs.Kinds.{mutex_type};
ghost use Rattle.kt_tree.specs.Tree.{Both, Either, expression_of};
ghost use Rattle.kt_typing.specs.declared.standing.Standing.TheVariants as standing;
ghost use Rattle.kt_typing.specs.Operands.{of_type, value};
ghost use Rattle.kt_typing.specs.Rules.{with_two, value_beside, is_size, count_of, times_size, product, of_values, logical, operator};
ghost use Rattle.kt_operands.specs.Judged.{Follows};
ghost use Rattle.kt_operands.specs.Views.{environment_of, scope_of, operand_of, value_of};

use crate::arithmetic::of_values;
use crate::beside::{scalars, values, values_beside};
use kt_grammar::BinaryOperator;
use kt_operands::environment::Environment;
use kt_operands::operand::{Operand, Value, bad_type, valued};
use kt_operands::refusal::Refusal;
use kt_operands::tree;
use kt_operands::types::{INT, MUTEX};
use kt_tree::Request;
use kt_typing::Standing;
use std::alloc::AllocError;

// `a && b`, of values.
fn both_hold(env: &Environment<'_>, at: u32, a: Value, b: Value) -> Result<Operand, Refusal>
    ensures { Follows operand_of (logical (environment_of env.now) at Both (value_of a) (value_of b)) result }
{
    if !(env.is_scalar(a.ty) && env.is_scalar(b.ty)) {
        drop((a, b));
        return Err(bad_type(at));
    }
    let tree = tree::both_hold(env.alloc, a.tree, b.tree)?;
    Ok(valued(at, Value { ty: INT, tree }))
}

// `a || b`, of values.
fn either_holds(env: &Environment<'_>, at: u32, a: Value, b: Value) -> Result<Operand, Refusal>
    ensures { Follows operand_of (logical (environment_of env.now) at Either (value_of a) (value_of b)) result }
{
    if !(env.is_scalar(a.ty) && env.is_scalar(b.ty)) {
        drop((a, b));
        return Err(bad_type(at));
    }
    let tree = tree::either_holds(env.alloc, a.tree, b.tree)?;
    Ok(valued(at, Value { ty: INT, tree }))
}

// `a && b`
#[tactic(auto, using(crate::proofs::Pairs::two_values))]
fn conjunction(env: &Environment<'_>, at: u32, a: Operand, b: Operand) -> Result<Operand, Refusal>
    ensures { Follows operand_of (operator (environment_of env.now) at binary.And (operand_of a) (operand_of b)) result }
{
    match scalars(env, at, a, b) {
        Ok((left, right)) => both_hold(env, at, left, right),
        Err(e) => Err(e),
    }
}

// `a || b`
#[tactic(auto, using(crate::proofs::Pairs::two_values))]
fn disjunction(env: &Environment<'_>, at: u32, a: Operand, b: Operand) -> Result<Operand, Refusal>
    ensures { Follows operand_of (operator (environment_of env.now) at binary.Or (operand_of a) (operand_of b)) result }
{
    match scalars(env, at, a, b) {
        Ok((left, right)) => either_holds(env, at, left, right),
        Err(e) => Err(e),
    }
}

// An operator of two values, of which null takes the type of the other.
#[tactic(auto, using(crate::proofs::Pairs::two_values))]
fn compared(
    env: &Environment<'_>,
    at: u32,
    op: BinaryOperator,
    a: Operand,
    b: Operand,
) -> Result<Operand, Refusal>
    ensures { Follows operand_of (with_two at (value_beside (scope_of env.now) (operand_of a) (operand_of b)) (value_beside (scope_of env.now) (operand_of b) (operand_of a)) (of_values (environment_of env.now) at op)) result }
{
    match values_beside(env, at, a, b) {
        Ok((left, right)) => of_values(env, at, op, left, right),
        Err(e) => Err(e),
    }
}

// An operator of two values.
#[tactic(auto, using(crate::proofs::Pairs::two_values))]
fn computed(
    env: &Environment<'_>,
    at: u32,
    op: BinaryOperator,
    a: Operand,
    b: Operand,
) -> Result<Operand, Refusal>
    ensures { Follows operand_of (with_two at (value (scope_of env.now) (operand_of a)) (value (scope_of env.now) (operand_of b)) (of_values (environment_of env.now) at op)) result }
{
    match values(env, at, a, b) {
        Ok((left, right)) => of_values(env, at, op, left, right),
        Err(e) => Err(e),
    }
}

/// Whether what stands so is a size.
pub fn is_size(standing: Standing) -> bool
    ensures { result ≡ is_size standing }
{
    match standing {
        Standing::Size(_) => true,
        _ => false,
    }
}

// The number of the cell at a pointer, as a count; what the pointer is, where it is none, is no integer.
fn loaded_count(env: &Environment<'_>, pointer: Operand) -> Result<Value, AllocError>
    requires { pointer.standing ≡ standing.Cell }
    ensures { IfOk result (λ v. value_of v ≡ count_of (scope_of env.now) (operand_of pointer)) }
{
    match env.pointee(pointer.ty) {
        Some(ty) => {
            let operands = tree::one_operand(env.alloc, pointer.tree)?;
            let tree = tree::requested(env.alloc, Request::Load, Some(ty), operands)?;
            Ok(Value { ty, tree })
        }
        None => Ok(no_count(pointer)),
    }
}

// What has no value, as a count: that is no integer.
fn no_count(x: Operand) -> Value
    ensures { value_of result ≡ of_type mutex_type (expression_of x.tree) }
{
    Value {
        ty: MUTEX,
        tree: x.tree,
    }
}

// A count as it is in a product with a size.
fn count_of(env: &Environment<'_>, x: Operand) -> Result<Value, AllocError>
    ensures { IfOk result (λ v. value_of v ≡ count_of (scope_of env.now) (operand_of x)) }
{
    match x.standing {
        Standing::Value => Ok(x.as_value()),
        Standing::Zero => Ok(x.as_value()),
        Standing::Local(_) => Ok(x.as_value()),
        Standing::Cell => loaded_count(env, x),
        Standing::Null => Ok(no_count(x)),
        Standing::Whole => Ok(no_count(x)),
        Standing::Elements => Ok(no_count(x)),
        Standing::Size(_) => Ok(no_count(x)),
        Standing::Product(_) => Ok(no_count(x)),
        Standing::Nothing => Ok(no_count(x)),
        Standing::Entry(_) => Ok(no_count(x)),
    }
}

// A count times `sizeof(T)`; a size is no count.
fn times_size(env: &Environment<'_>, count: Operand, size: Operand) -> Result<Operand, Refusal>
    ensures { Follows operand_of (times_size (scope_of env.now) (operand_of count) (operand_of size)) result }
{
    if is_size(count.standing) {
        let at = count.at;
        drop((count, size));
        return Err(bad_type(at));
    }
    let at = size.at;
    let element = size.ty;
    drop(size);
    let count = count_of(env, count)?;
    Ok(Operand {
        at,
        standing: Standing::Product(element),
        ty: count.ty,
        tree: count.tree,
    })
}

// `a * b`, of which one may be a size.
fn product(env: &Environment<'_>, at: u32, a: Operand, b: Operand) -> Result<Operand, Refusal>
    ensures { Follows operand_of (product (environment_of env.now) at (operand_of a) (operand_of b)) result }
{
    if is_size(b.standing) {
        times_size(env, a, b)
    } else if is_size(a.standing) {
        times_size(env, b, a)
    } else {
        computed(env, at, BinaryOperator::Multiply, a, b)
    }
}

/// A binary operator.
pub fn operator(
    env: &Environment<'_>,
    at: u32,
    op: BinaryOperator,
    a: Operand,
    b: Operand,
) -> Result<Operand, Refusal>
    ensures { Follows operand_of (operator (environment_of env.now) at op (operand_of a) (operand_of b)) result }
{
    match op {
        BinaryOperator::And => conjunction(env, at, a, b),
        BinaryOperator::Or => disjunction(env, at, a, b),
        BinaryOperator::Equal => compared(env, at, op, a, b),
        BinaryOperator::NotEqual => compared(env, at, op, a, b),
        BinaryOperator::Multiply => product(env, at, a, b),
        BinaryOperator::Add => computed(env, at, op, a, b),
        BinaryOperator::Subtract => computed(env, at, op, a, b),
        BinaryOperator::Divide => computed(env, at, op, a, b),
        BinaryOperator::Remainder => computed(env, at, op, a, b),
        BinaryOperator::Less => computed(env, at, op, a, b),
        BinaryOperator::Greater => computed(env, at, op, a, b),
        BinaryOperator::LessEqual => computed(env, at, op, a, b),
        BinaryOperator::GreaterEqual => computed(env, at, op, a, b),
    }
}
