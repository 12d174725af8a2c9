//! Prefix operators and casts (ISO/IEC 9899:2011, 6.5.3, 6.5.4).

ghost use Rattle.std.specs.Prelude.{◌≡◌, false, Ok, Err};
ghost use Rattle.kt_grammar.specs.declared.operator.PrefixOperator.TheVariants as prefix;
ghost use Rattle.kt_tree.specs.Tree.{expression_of};
ghost use Rattle.kt_typing.specs.Rules.{with_value, converted, changed, one, negated, dereferenced, address_of, unary, cast_value, cast};
ghost use Rattle.kt_typing.specs.Faults.{bad_type};
ghost use Rattle.kt_typing.specs.Operands.{valued};
ghost use Rattle.kt_operands.specs.declared.refusal.Refusal.TheVariants as refusal;
ghost use Rattle.kt_operands.specs.Judged.{Follows};
ghost use Rattle.kt_operands.specs.Views.{environment_of, scope_of, operand_of, value_of};

use crate::assign::{Change, changed, one};
use crate::place::place_standing;
use kt_grammar::{BinaryOperator, PrefixOperator};
use kt_operands::convert::converted;
use kt_operands::environment::Environment;
use kt_operands::given::{operated, operated_on};
use kt_operands::operand::{Operand, Value, bad_type, valued};
use kt_operands::refusal::Refusal;
use kt_operands::tree;
use kt_operands::types::{INT, common};
use kt_tree::{Constant, Operation};
use kt_typing::Standing;

// `-a`, of a value, is `0 - a`.
fn negated(env: &Environment<'_>, at: u32, value: Value) -> Result<Operand, Refusal>
    ensures { Follows operand_of (negated (environment_of env.now) at (value_of value)) result }
{
    let tree = tree::constant(env.alloc, Constant::Number(0), INT)?;
    let ty = common(value.ty, value.ty);
    operated(
        env,
        at,
        Operation::Subtract,
        ty,
        Value { ty: INT, tree },
        value,
    )
}

// `*p`, of a value.
fn dereferenced(env: &Environment<'_>, at: u32, p: Value) -> Result<Operand, Refusal>
    ensures { Follows operand_of (dereferenced (environment_of env.now) at (value_of p)) result }
{
    if !env.is_pointer(p.ty) {
        drop(p);
        return Err(bad_type(at));
    }
    let standing = place_standing(env, p.ty);
    Ok(Operand {
        at,
        standing,
        ty: p.ty,
        tree: p.tree,
    })
}

// What breaks the rule of an operator.
fn refused(at: u32, x: Operand) -> Result<Operand, Refusal>
    ensures { result ≡ Err (refusal.Fault (bad_type at)) }
{
    drop(x);
    Err(bad_type(at))
}

// `&x`, of a cell, a struct or a mutex.
fn address_of(at: u32, x: Operand) -> Result<Operand, Refusal>
    ensures { Follows operand_of (address_of at x.standing x.ty (expression_of x.tree)) result }
{
    match x.standing {
        Standing::Cell => Ok(valued(at, x.as_value())),
        Standing::Whole => Ok(valued(at, x.as_value())),
        Standing::Value => refused(at, x),
        Standing::Zero => refused(at, x),
        Standing::Null => refused(at, x),
        Standing::Local(_) => refused(at, x),
        Standing::Elements => refused(at, x),
        Standing::Size(_) => refused(at, x),
        Standing::Product(_) => refused(at, x),
        Standing::Nothing => refused(at, x),
        Standing::Entry(_) => refused(at, x),
    }
}

// `-a`
#[tactic(auto, using(crate::proofs::Steps::steps))]
fn minus(env: &Environment<'_>, at: u32, x: Operand) -> Result<Operand, Refusal>
    ensures { Follows operand_of (unary (environment_of env.now) at prefix.Negate (operand_of x)) result }
{
    let value = x.value(env, at)?;
    negated(env, at, value)
}

// `!a`
#[tactic(auto, using(crate::proofs::Steps::steps))]
fn not(env: &Environment<'_>, at: u32, x: Operand) -> Result<Operand, Refusal>
    ensures { Follows operand_of (unary (environment_of env.now) at prefix.Not (operand_of x)) result }
{
    let value = x.scalar(env, at)?;
    operated_on(env, at, Operation::Not, INT, value)
}

// `*p`
#[tactic(auto, using(crate::proofs::Steps::steps))]
fn dereference(env: &Environment<'_>, at: u32, x: Operand) -> Result<Operand, Refusal>
    ensures { Follows operand_of (unary (environment_of env.now) at prefix.Dereference (operand_of x)) result }
{
    let value = x.value(env, at)?;
    dereferenced(env, at, value)
}

// `++x` and `--x`
fn stepped_first(
    env: &Environment<'_>,
    at: u32,
    op: BinaryOperator,
    x: Operand,
) -> Result<Operand, Refusal>
    ensures { Follows operand_of (changed (environment_of env.now) at false op (operand_of x) one) result }
{
    let value = one(env)?;
    changed(env, Change { at, old: false, op }, x, value)
}

/// A prefix operator.
pub fn unary(
    env: &Environment<'_>,
    at: u32,
    op: PrefixOperator,
    x: Operand,
) -> Result<Operand, Refusal>
    ensures { Follows operand_of (unary (environment_of env.now) at op (operand_of x)) result }
{
    match op {
        PrefixOperator::Negate => minus(env, at, x),
        PrefixOperator::Not => not(env, at, x),
        PrefixOperator::Dereference => dereference(env, at, x),
        PrefixOperator::AddressOf => address_of(at, x),
        PrefixOperator::Increment => stepped_first(env, at, BinaryOperator::Add, x),
        PrefixOperator::Decrement => stepped_first(env, at, BinaryOperator::Subtract, x),
    }
}

// A cast of a value to an integer type.
#[tactic(auto, using(crate::proofs::Steps::steps))]
fn cast_number(env: &Environment<'_>, at: u32, ty: u32, value: Value) -> Result<Operand, Refusal>
    ensures { Follows operand_of (with_value at (converted (scope_of env.now) ty (value_of value)) (λ w. Ok (valued at w.ty w.tree))) result }
{
    let value = converted(env, at, ty, value)?;
    Ok(valued(at, value))
}

// A cast of a value: to an integer type, or to the pointer type that an allocation has.
fn cast_value(
    env: &Environment<'_>,
    at: u32,
    allocates: bool,
    ty: u32,
    value: Value,
) -> Result<Operand, Refusal>
    ensures { Follows operand_of (cast_value (environment_of env.now) at allocates ty (value_of value)) result }
{
    if env.is_integer(ty) {
        cast_number(env, at, ty, value)
    } else if allocates && value.ty == ty {
        Ok(valued(at, value))
    } else {
        drop(value);
        Err(bad_type(at))
    }
}

/// A cast to a type, where there is such a one; `allocates` where it stands before an allocation.
#[tactic(auto, using(crate::proofs::Steps::steps))]
pub fn cast(
    env: &Environment<'_>,
    at: u32,
    allocates: bool,
    ty: Option<u32>,
    x: Operand,
) -> Result<Operand, Refusal>
    ensures { Follows operand_of (cast (environment_of env.now) at allocates ty (operand_of x)) result }
{
    let Some(ty) = ty else {
        return refused(at, x);
    };
    let value = x.value(env, at)?;
    cast_value(env, at, allocates, ty, value)
}
