//! Each operator with its parts, which may be faulty.

ghost use Rattle.std.specs.Prelude.{true, Err};
ghost use Rattle.kt_typing.specs.Faults.{bad_type};
ghost use Rattle.kt_typing.specs.Rules.{element, member, pointed, changed, one, step_operator, unary, cast, operator, choice, assignment};
ghost use Rattle.kt_operators.specs.Judged.{AfterOne, AfterTwo, AfterThree};
ghost use Rattle.kt_operands.specs.Views.{environment_of, operand_of};

use crate::assign::{assignment, stepped};
use crate::choice::choice;
use crate::first::both;
use crate::operator::operator;
use crate::place::{element, member, pointed};
use crate::unary::{cast, unary};
use kt_grammar::{AssignOperator, BinaryOperator, Name, PrefixOperator, StepOperator};
use kt_operands::environment::Environment;
use kt_operands::operand::{Operand, bad_type};
use kt_operands::refusal::Refusal;

/// What may have no type.
pub type Answer = Result<Operand, Refusal>;

/// `a[i]`
pub fn element_of(env: &Environment<'_>, at: u32, a: Answer, i: Answer) -> Answer
    ensures { AfterTwo operand_of at a i (element (environment_of env.now) at) result }
{
    match both(a, i) {
        Ok((left, right)) => element(env, at, left, right),
        Err(e) => Err(e),
    }
}

/// `s.f`
pub fn member_of(env: &Environment<'_>, at: u32, f: &Name, x: Answer) -> Answer
    ensures { AfterOne operand_of at x (member (environment_of env.now) at f.now) result }
{
    match x {
        Ok(y) => member(env, at, f, y),
        Err(e) => Err(e),
    }
}

/// `p->f`
pub fn pointed_of(env: &Environment<'_>, at: u32, f: &Name, x: Answer) -> Answer
    ensures { AfterOne operand_of at x (pointed (environment_of env.now) at f.now) result }
{
    match x {
        Ok(y) => pointed(env, at, f, y),
        Err(e) => Err(e),
    }
}

/// `x++` and `x--`
pub fn stepped_of(env: &Environment<'_>, at: u32, op: StepOperator, x: Answer) -> Answer
    ensures { AfterOne operand_of at x (λ x. changed (environment_of env.now) at true (step_operator op) x one) result }
{
    match x {
        Ok(y) => stepped(env, at, op, y),
        Err(e) => Err(e),
    }
}

/// A prefix operator.
pub fn prefixed_of(env: &Environment<'_>, at: u32, op: PrefixOperator, x: Answer) -> Answer
    ensures { AfterOne operand_of at x (unary (environment_of env.now) at op) result }
{
    match x {
        Ok(y) => unary(env, at, op, y),
        Err(e) => Err(e),
    }
}

/// A cast.
pub fn cast_of(
    env: &Environment<'_>,
    at: u32,
    allocates: bool,
    ty: Option<u32>,
    x: Answer,
) -> Answer
    ensures { AfterOne operand_of at x (cast (environment_of env.now) at allocates ty) result }
{
    match x {
        Ok(y) => cast(env, at, allocates, ty, y),
        Err(e) => Err(e),
    }
}

/// `$xform(e)`, which is no value here.
pub fn transformed_of(at: u32, x: Answer) -> Answer
    ensures { AfterOne operand_of at x (λ x. Err (bad_type at)) result }
{
    match x {
        Ok(y) => {
            drop(y);
            Err(bad_type(at))
        }
        Err(e) => Err(e),
    }
}

/// A binary operator.
pub fn operated_of(
    env: &Environment<'_>,
    at: u32,
    op: BinaryOperator,
    a: Answer,
    b: Answer,
) -> Answer
    ensures { AfterTwo operand_of at a b (operator (environment_of env.now) at op) result }
{
    match both(a, b) {
        Ok((left, right)) => operator(env, at, op, left, right),
        Err(e) => Err(e),
    }
}

/// An assignment.
pub fn assigned_of(
    env: &Environment<'_>,
    at: u32,
    op: AssignOperator,
    x: Answer,
    y: Answer,
) -> Answer
    ensures { AfterTwo operand_of at x y (assignment (environment_of env.now) at op) result }
{
    match both(x, y) {
        Ok((left, right)) => assignment(env, at, op, left, right),
        Err(e) => Err(e),
    }
}

/// `c ? a : b`
pub fn chosen_of(env: &Environment<'_>, at: u32, c: Answer, a: Answer, b: Answer) -> Answer
    ensures { AfterThree operand_of at c a b (choice (environment_of env.now) at) result }
{
    let arms = both(a, b);
    match both(c, arms) {
        Ok((test, rest)) => choice(env, at, test, rest.0, rest.1),
        Err(e) => Err(e),
    }
}
