//! Operators on operands that may be faulty.

ghost use Rattle.std.specs.Prelude.{true};
ghost use Rattle.kt_grammar.specs.Tree.{term_of};
ghost use Rattle.kt_names.specs.Judges.{Judges, JudgesAfter};
ghost use Rattle.kt_names.specs.Views.{environment_of, operand_of, operands_of, three_of};
ghost use Rattle.kt_names.specs.Rules.{element, member, pointed, operator, choice, assignment, changed, unary, step_operator, one};
ghost use Rattle.kt_names.specs.Terms.{first_token, is_allocation, cast};

use crate::assign::{Change, assignment, changed, one, step_operator};
use crate::cast::cast;
use crate::choice::choice;
use crate::compare::operator;
use crate::place::{element, member, pointed};
use crate::term::{first_token, is_allocation};
use crate::unary::unary;
use kt_grammar::{
    AssignOperator, BinaryOperator, Expr, Name, PrefixOperator, StepOperator, TypeName,
};
use kt_names::environment::Environment;
use kt_names::fault::CheckFault;
use kt_names::operand::Operand;
use kt_names::pair::Pair;

/// `a[i]`
pub(crate) fn element_of(
    env: &Environment<'_>,
    a: &Expr,
    b: &Expr,
    parts: Result<(Operand, Operand), CheckFault>,
) -> Result<Operand, CheckFault>
    ensures { JudgesAfter operands_of parts operand_of result (λ x. element (environment_of env.now) (first_token (term_of a.now)) (first_token (term_of b.now)) x.0 x.1) }
{
    match parts {
        Ok((x, i)) => element(env, first_token(a), first_token(b), x, i),
        Err(fault) => Err(fault),
    }
}

/// `s.f`
pub(crate) fn member_of(
    env: &Environment<'_>,
    a: &Expr,
    x: Result<Operand, CheckFault>,
    field: &Name,
) -> Result<Operand, CheckFault>
    ensures { JudgesAfter operand_of x operand_of result (λ x. member (environment_of env.now) (first_token (term_of a.now)) x field.now) }
{
    match x {
        Ok(x) => member(env, first_token(a), x, field),
        Err(fault) => Err(fault),
    }
}

/// `p->f`
pub(crate) fn pointed_of(
    env: &Environment<'_>,
    a: &Expr,
    x: Result<Operand, CheckFault>,
    field: &Name,
) -> Result<Operand, CheckFault>
    ensures { JudgesAfter operand_of x operand_of result (λ x. pointed (environment_of env.now) (first_token (term_of a.now)) x field.now) }
{
    match x {
        Ok(x) => pointed(env, first_token(a), x, field),
        Err(fault) => Err(fault),
    }
}

/// `a++` and `a--`
pub(crate) fn stepped_of(
    env: &Environment<'_>,
    op: StepOperator,
    a: &Expr,
    x: Result<Operand, CheckFault>,
) -> Result<Operand, CheckFault>
    ensures { JudgesAfter operand_of x operand_of result (λ x. changed (environment_of env.now) (first_token (term_of a.now)) true (step_operator op) x (one (environment_of env.now))) }
{
    match x {
        Ok(x) => stepped(env, first_token(a), op, x),
        Err(fault) => Err(fault),
    }
}

/// `a++` and `a--`, of an operand.
fn stepped(
    env: &Environment<'_>,
    at: u32,
    op: StepOperator,
    a: Operand,
) -> Result<Operand, CheckFault>
    ensures { Judges operand_of result (changed (environment_of env.now) at true (step_operator op) (operand_of a) (one (environment_of env.now))) }
{
    let op = step_operator(op);
    let change = Change { at, old: true, op };
    let v = one(env);
    changed(env, change, a, v)
}

/// A prefix operator at `at`.
pub(crate) fn prefixed_of(
    env: &Environment<'_>,
    at: u32,
    op: PrefixOperator,
    a: &Expr,
    x: Result<Operand, CheckFault>,
) -> Result<Operand, CheckFault>
    ensures { JudgesAfter operand_of x operand_of result (unary (environment_of env.now) at (first_token (term_of a.now)) op) }
{
    match x {
        Ok(x) => unary(env, at, first_token(a), op, x),
        Err(fault) => Err(fault),
    }
}

/// A cast at `at`.
pub(crate) fn cast_of(
    env: &Environment<'_>,
    at: u32,
    t: &TypeName,
    a: &Expr,
    x: Result<Operand, CheckFault>,
) -> Result<Operand, CheckFault>
    ensures { JudgesAfter operand_of x operand_of result (cast (environment_of env.now) at (first_token (term_of a.now)) t.now (is_allocation (term_of a.now))) }
{
    match x {
        Ok(x) => cast(env, at, first_token(a), t, is_allocation(a), x),
        Err(fault) => Err(fault),
    }
}

/// A binary operator.
pub(crate) fn operated_of(
    env: &Environment<'_>,
    op: BinaryOperator,
    a: &Expr,
    b: &Expr,
    parts: Result<(Operand, Operand), CheckFault>,
) -> Result<Operand, CheckFault>
    ensures { JudgesAfter operands_of parts operand_of result (λ x. operator (environment_of env.now) (first_token (term_of a.now)) (first_token (term_of b.now)) op x.0 x.1) }
{
    match parts {
        Ok((x, y)) => {
            let pair = Pair {
                left: x,
                at: first_token(a),
                right: y,
                other: first_token(b),
            };
            operator(env, op, pair)
        }
        Err(fault) => Err(fault),
    }
}

/// `c ? a : b`
pub(crate) fn chosen_of(
    env: &Environment<'_>,
    c: &Expr,
    a: &Expr,
    b: &Expr,
    parts: Result<(Operand, (Operand, Operand)), CheckFault>,
) -> Result<Operand, CheckFault>
    ensures { JudgesAfter three_of parts operand_of result (λ x. choice (environment_of env.now) (first_token (term_of c.now)) (first_token (term_of a.now)) (first_token (term_of b.now)) x.0 x.1.0 x.1.1) }
{
    match parts {
        Ok((x, (y, z))) => {
            let pair = Pair {
                left: y,
                at: first_token(a),
                right: z,
                other: first_token(b),
            };
            choice(env, first_token(c), x, pair)
        }
        Err(fault) => Err(fault),
    }
}

/// An assignment.
pub(crate) fn assigned_of(
    env: &Environment<'_>,
    op: AssignOperator,
    a: &Expr,
    b: &Expr,
    parts: Result<(Operand, Operand), CheckFault>,
) -> Result<Operand, CheckFault>
    ensures { JudgesAfter operands_of parts operand_of result (λ x. assignment (environment_of env.now) (first_token (term_of a.now)) (first_token (term_of b.now)) op x.0 x.1) }
{
    match parts {
        Ok((x, y)) => assignment(env, first_token(a), first_token(b), op, x, y),
        Err(fault) => Err(fault),
    }
}

/// A binary operator between operands that begin at `at` and at `other`.
pub(crate) fn operated_at(
    env: &Environment<'_>,
    op: BinaryOperator,
    at: u32,
    other: u32,
    parts: Result<(Operand, Operand), CheckFault>,
) -> Result<Operand, CheckFault>
    ensures { JudgesAfter operands_of parts operand_of result (λ x. operator (environment_of env.now) at other op x.0 x.1) }
{
    match parts {
        Ok((left, right)) => {
            let pair = Pair {
                left,
                at,
                right,
                other,
            };
            operator(env, op, pair)
        }
        Err(fault) => Err(fault),
    }
}
