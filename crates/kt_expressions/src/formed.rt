//! Each operator with its operands, which were judged by themselves.

ghost use Rattle.std.specs.Prelude.{◌≡◌, true, Err};
ghost use Rattle.kt_typing.specs.declared.standing.Use.TheVariants as use_as;
ghost use Rattle.kt_typing.specs.Environment.{type_named};
ghost use Rattle.kt_typing.specs.Faults.{bad_type};
ghost use Rattle.kt_typing.specs.Rules.{element, member, pointed, changed, one, step_operator, unary, cast, operator, choice, assignment};
ghost use Rattle.kt_typing.specs.Terms.{first_token, is_allocation, factor_use, operand_use};
ghost use Rattle.kt_grammar.specs.Tree.{term_of};
ghost use Rattle.kt_operands.specs.Views.{environment_of};
ghost use Rattle.kt_expressions.specs.Formed.{OfOne, OfTwo, OfThree};

use crate::part::part_of;
use crate::spelled::{first_token, is_allocation};
use kt_grammar::{
    AssignOperator, BinaryOperator, Expr, Name, PrefixOperator, StepOperator, TypeName,
};
use kt_operands::environment::Environment;
use kt_operators::constant::type_named;
use kt_operators::forms;
use kt_operators::forms::Answer;
use kt_typing::Use;

/// What the operands of a binary operator are used as.
pub(crate) fn factor_use(op: BinaryOperator, to: Use) -> Use
    ensures { result ≡ factor_use op to }
{
    match op {
        BinaryOperator::Multiply => match to {
            Use::Count => Use::Factor,
            _ => Use::Value,
        },
        _ => Use::Value,
    }
}

/// What the operand of a prefix operator is used as.
pub(crate) fn operand_use(op: PrefixOperator) -> Use
    ensures { result ≡ operand_use op }
{
    match op {
        PrefixOperator::AddressOf => Use::Whole,
        _ => Use::Value,
    }
}

/// `$xform(e)`
pub(crate) fn transformed(env: &Environment<'_>, at: u32, x: Answer) -> Answer
    ensures { OfOne (environment_of env.now) at use_as.Value (λ x. Err (bad_type at)) x result }
{
    let operand = part_of(env, Use::Value, x);
    forms::transformed_of(at, operand)
}

/// `a[i]`
pub(crate) fn element(env: &Environment<'_>, a: &Expr, x: Answer, i: Answer) -> Answer
    ensures { OfTwo (environment_of env.now) (first_token (term_of a.now)) use_as.Indexed use_as.Value (element (environment_of env.now) (first_token (term_of a.now))) x i result }
{
    let at = first_token(a);
    let whole = part_of(env, Use::Indexed, x);
    let index = part_of(env, Use::Value, i);
    forms::element_of(env, at, whole, index)
}

/// `s.f`
pub(crate) fn member(env: &Environment<'_>, a: &Expr, f: &Name, x: Answer) -> Answer
    ensures { OfOne (environment_of env.now) (first_token (term_of a.now)) use_as.Whole (member (environment_of env.now) (first_token (term_of a.now)) f.now) x result }
{
    let at = first_token(a);
    let whole = part_of(env, Use::Whole, x);
    forms::member_of(env, at, f, whole)
}

/// `p->f`
pub(crate) fn pointed(env: &Environment<'_>, a: &Expr, f: &Name, x: Answer) -> Answer
    ensures { OfOne (environment_of env.now) (first_token (term_of a.now)) use_as.Value (pointed (environment_of env.now) (first_token (term_of a.now)) f.now) x result }
{
    let at = first_token(a);
    let pointer = part_of(env, Use::Value, x);
    forms::pointed_of(env, at, f, pointer)
}

/// `x++` and `x--`
pub(crate) fn stepped(env: &Environment<'_>, a: &Expr, op: StepOperator, x: Answer) -> Answer
    ensures { OfOne (environment_of env.now) (first_token (term_of a.now)) use_as.Value (λ y. changed (environment_of env.now) (first_token (term_of a.now)) true (step_operator op) y one) x result }
{
    let at = first_token(a);
    let place = part_of(env, Use::Value, x);
    forms::stepped_of(env, at, op, place)
}

/// A prefix operator.
pub(crate) fn prefixed(env: &Environment<'_>, at: u32, op: PrefixOperator, x: Answer) -> Answer
    ensures { OfOne (environment_of env.now) at (operand_use op) (unary (environment_of env.now) at op) x result }
{
    let to = operand_use(op);
    let operand = part_of(env, to, x);
    forms::prefixed_of(env, at, op, operand)
}

/// A cast.
pub(crate) fn converted(
    env: &Environment<'_>,
    at: u32,
    name: &TypeName,
    a: &Expr,
    x: Answer,
) -> Answer
    ensures { OfOne (environment_of env.now) at use_as.Value (cast (environment_of env.now) at (is_allocation (term_of a.now)) (type_named (environment_of env.now) name.now)) x result }
{
    let allocates = is_allocation(a);
    let ty = type_named(env, name);
    let operand = part_of(env, Use::Value, x);
    forms::cast_of(env, at, allocates, ty, operand)
}

/// A binary operator, whose operands are used so.
pub(crate) fn operated(
    env: &Environment<'_>,
    to: Use,
    op: BinaryOperator,
    a: &Expr,
    x: Answer,
    y: Answer,
) -> Answer
    ensures { OfTwo (environment_of env.now) (first_token (term_of a.now)) to to (operator (environment_of env.now) (first_token (term_of a.now)) op) x y result }
{
    let at = first_token(a);
    let left = part_of(env, to, x);
    let right = part_of(env, to, y);
    forms::operated_of(env, at, op, left, right)
}

/// An assignment.
pub(crate) fn assigned(
    env: &Environment<'_>,
    op: AssignOperator,
    a: &Expr,
    x: Answer,
    y: Answer,
) -> Answer
    ensures { OfTwo (environment_of env.now) (first_token (term_of a.now)) use_as.Value use_as.Value (assignment (environment_of env.now) (first_token (term_of a.now)) op) x y result }
{
    let at = first_token(a);
    let place = part_of(env, Use::Value, x);
    let value = part_of(env, Use::Value, y);
    forms::assigned_of(env, at, op, place, value)
}

/// `c ? a : b`
pub(crate) fn chosen(env: &Environment<'_>, c: &Expr, x: Answer, y: Answer, z: Answer) -> Answer
    ensures { OfThree (environment_of env.now) (first_token (term_of c.now)) use_as.Value (choice (environment_of env.now) (first_token (term_of c.now))) x y z result }
{
    let at = first_token(c);
    let test = part_of(env, Use::Value, x);
    let one = part_of(env, Use::Value, y);
    let other = part_of(env, Use::Value, z);
    forms::chosen_of(env, at, test, one, other)
}
