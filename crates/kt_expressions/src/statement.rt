//! Expressions where they stand in a statement.

ghost use Rattle.kt_grammar.specs.Tree.{term_of};
ghost use Rattle.std.specs.Prelude.{Ok};
ghost use Rattle.kt_typing.specs.Operands.{scalar, valued};
ghost use Rattle.kt_typing.specs.Rules.{with_value, convert};
ghost use Rattle.kt_typing.specs.Terms.{effect_of, effect, tested, condition, conversion};
ghost use Rattle.kt_operands.specs.Judged.{Follows};
ghost use Rattle.kt_operands.specs.Views.{environment_of, scope_of, operand_of, value_of};
ghost use Rattle.kt_operators.specs.Judged.{Judges};

use crate::expression::expression;
use crate::part::part_of;
use crate::spelled::first_token;
use kt_grammar::Expr;
use kt_operands::environment::Environment;
use kt_operands::operand::{Operand, Value, bad_type, valued};
use kt_operators::forms::Answer;
use kt_typing::{Standing, Use};

// The value that an operand has where it is not used.
#[tactic(auto, using(kt_operators::proofs::Steps::steps))]
fn unused(env: &Environment<'_>, at: u32, x: Operand) -> Answer
    ensures { Follows operand_of (with_value at (scalar (scope_of env.now) (operand_of x)) (λ v. Ok (valued at v.ty v.tree))) result }
{
    match x.scalar(env, at) {
        Ok(value) => Ok(valued(at, value)),
        Err(e) => Err(e),
    }
}

// What an operand is whose value, if it has one, is not used.
fn effect_of(env: &Environment<'_>, at: u32, x: Operand) -> Answer
    ensures { Follows operand_of (effect_of (environment_of env.now) at (operand_of x) x.standing) result }
{
    match x.standing {
        Standing::Nothing => Ok(x),
        Standing::Value => unused(env, at, x),
        Standing::Zero => unused(env, at, x),
        Standing::Null => unused(env, at, x),
        Standing::Local(_) => unused(env, at, x),
        Standing::Cell => unused(env, at, x),
        Standing::Whole => unused(env, at, x),
        Standing::Elements => unused(env, at, x),
        Standing::Size(_) => unused(env, at, x),
        Standing::Product(_) => unused(env, at, x),
        Standing::Entry(_) => unused(env, at, x),
    }
}

/// An expression whose value, if it has one, is not used.
pub fn effect(env: &Environment<'_>, e: &Expr) -> Answer
    ensures { Judges operand_of (effect (environment_of env.now) (term_of e.now)) result }
{
    let at = first_token(e);
    let typed = expression(env, Use::Value, e);
    match part_of(env, Use::Value, typed) {
        Ok(x) => effect_of(env, at, x),
        Err(e) => Err(e),
    }
}

// A value as a condition.
fn tested(env: &Environment<'_>, at: u32, value: Value) -> Answer
    ensures { Follows operand_of (tested (environment_of env.now) at (value_of value)) result }
{
    if env.is_scalar(value.ty) {
        Ok(valued(at, value))
    } else {
        drop(value);
        Err(bad_type(at))
    }
}

// An operand as a condition.
#[tactic(auto, using(kt_operators::proofs::Steps::steps))]
fn condition_of(env: &Environment<'_>, at: u32, x: Operand) -> Answer
    ensures { Follows operand_of (with_value at (scalar (scope_of env.now) (operand_of x)) (tested (environment_of env.now) at)) result }
{
    match x.scalar(env, at) {
        Ok(value) => tested(env, at, value),
        Err(e) => Err(e),
    }
}

/// A condition: an integer or a pointer, which may be null.
pub fn condition(env: &Environment<'_>, e: &Expr) -> Answer
    ensures { Judges operand_of (condition (environment_of env.now) (term_of e.now)) result }
{
    let at = first_token(e);
    let typed = expression(env, Use::Value, e);
    match part_of(env, Use::Value, typed) {
        Ok(x) => condition_of(env, at, x),
        Err(e) => Err(e),
    }
}

// An operand, converted to a type.
#[tactic(auto, using(kt_operators::proofs::Steps::steps))]
fn converted_to(env: &Environment<'_>, ty: u32, at: u32, x: Operand) -> Answer
    ensures { Follows operand_of (with_value at (convert (scope_of env.now) ty (operand_of x)) (λ v. Ok (valued at v.ty v.tree))) result }
{
    match x.convert(env, at, ty) {
        Ok(value) => Ok(valued(at, value)),
        Err(e) => Err(e),
    }
}

/// A value that converts to a type, as an initial value or what is returned; the fault where it doesn't is at this place.
pub fn conversion(env: &Environment<'_>, ty: u32, at: u32, e: &Expr) -> Answer
    ensures { Judges operand_of (conversion (environment_of env.now) ty at (term_of e.now)) result }
{
    let typed = expression(env, Use::Value, e);
    match part_of(env, Use::Value, typed) {
        Ok(x) => converted_to(env, ty, at, x),
        Err(e) => Err(e),
    }
}
