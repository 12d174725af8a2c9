//! Comparisons and logic (ISO/IEC 9899:2011, 6.5.8, 6.5.9, 6.5.13, 6.5.14).

ghost use Rattle.std.specs.Prelude.{◌≡◌, Ok};
ghost use Rattle.kt_tree.specs.Tree.{expression_of, Both, Either};
ghost use Rattle.kt_grammar.specs.declared.operator.BinaryOperator.TheVariants as binary;
ghost use Rattle.kt_names.specs.Checked.{and_then, both};
ghost use Rattle.kt_names.specs.Judges.{Judges};
ghost use Rattle.kt_names.specs.Views.{environment_of, operand_of, value_of, values_of, is_null};
ghost use Rattle.kt_names.specs.Types.{int};
ghost use Rattle.kt_names.specs.Operands.{Null, Valued, value_of_type, null_of, value, scalar, pointer};
ghost use Rattle.kt_names.specs.Rules.{operated, comparison_of, comparable, compared, with_null, equal, operator, of_values};

use crate::combine::{operated, sum_of};
use kt_grammar::BinaryOperator;
use kt_names::ctype::CType;
use kt_names::environment::Environment;
use kt_names::fault::CheckFault;
use kt_names::node;
use kt_names::operand::{Operand, Value, null_value};
use kt_names::pair::Pair;
use kt_tree::{Expr, Operation};

/// The operation of a comparison.
fn comparison_of(op: BinaryOperator) -> Option<Operation>
    ensures { result ≡ comparison_of op }
{
    match op {
        BinaryOperator::Less => Some(Operation::Less),
        BinaryOperator::Greater => Some(Operation::Greater),
        BinaryOperator::LessEqual => Some(Operation::LessEqual),
        BinaryOperator::GreaterEqual => Some(Operation::GreaterEqual),
        BinaryOperator::Equal => Some(Operation::Equal),
        BinaryOperator::NotEqual => Some(Operation::NotEqual),
        BinaryOperator::Or => None,
        BinaryOperator::And => None,
        BinaryOperator::Add => None,
        BinaryOperator::Subtract => None,
        BinaryOperator::Multiply => None,
        BinaryOperator::Divide => None,
        BinaryOperator::Remainder => None,
    }
}

/// Whether two types compare: two integers, or two pointers of one type.
fn are_comparable(a: CType, b: CType) -> bool
    ensures { result ≡ comparable a b }
{
    (a.is_integer() && b.is_integer()) || (a.is_pointer() && a.is(b))
}

/// An operation of two values that gives an `int`.
fn judged(
    env: &Environment<'_>,
    operation: Operation,
    a: Value,
    b: Value,
) -> Result<Operand, CheckFault>
    ensures { Judges operand_of result (Ok (Valued int (operated (environment_of env.now) operation int (expression_of a.expression) (expression_of b.expression)))) }
{
    let whole = operated(env, operation, CType::int(), a.expression, b.expression)?;
    Ok(Operand::Valued(CType::int(), whole))
}

/// A comparison of two values.
fn compared(
    env: &Environment<'_>,
    at: u32,
    operation: Operation,
    values: (Value, Value),
) -> Result<Operand, CheckFault>
    ensures { Judges operand_of result (compared (environment_of env.now) at operation (value_of values.0) (value_of values.1)) }
{
    let (a, b) = values;
    if are_comparable(a.ty, b.ty) {
        return judged(env, operation, a, b);
    }
    a.let_go();
    b.let_go();
    Err(CheckFault::BadType { at })
}

/// Null and a pointer: null is of the pointer's type.
#[tactic(auto, using(kt_names::proofs::Parts::parts))]
pub(crate) fn null_before(
    env: &Environment<'_>,
    pair: Pair,
    at: u32,
) -> Result<(Value, Value), CheckFault>
    ensures { Judges values_of result (and_then (pointer (environment_of env.now) pair.other at (operand_of pair.right)) (λ v. Ok (value_of_type v.ty (null_of (environment_of env.now) v.ty), v))) }
{
    pair.left.let_go();
    let v = pair.right.pointer(env, pair.other, at)?;
    let null = null_value(env, v.ty);
    Ok((null, v))
}

/// A pointer and null: null is of the pointer's type.
#[tactic(auto, using(kt_names::proofs::Parts::parts))]
pub(crate) fn null_behind(
    env: &Environment<'_>,
    pair: Pair,
    at: u32,
) -> Result<(Value, Value), CheckFault>
    ensures { Judges values_of result (and_then (pointer (environment_of env.now) pair.at at (operand_of pair.left)) (λ v. Ok (v, value_of_type v.ty (null_of (environment_of env.now) v.ty)))) }
{
    pair.right.let_go();
    let v = pair.left.pointer(env, pair.at, at)?;
    let null = null_value(env, v.ty);
    Ok((v, null))
}

/// Whether the operand is null.
pub(crate) fn is_null(a: &Operand) -> bool
    ensures { result ≡ is_null (operand_of a.now) }
{
    match a {
        Operand::Null => true,
        Operand::Valued(_, _) => false,
        Operand::Zero => false,
        Operand::LocalPlace(_, _) => false,
        Operand::CellPlace(_, _) => false,
        Operand::ArrayPlace(_, _) => false,
        Operand::WholePlace(_, _) => false,
        Operand::NoResult(_) => false,
    }
}

/// The values that `==` and `!=` compare: null with a pointer too, and with null.
#[tactic(auto, using(crate::proofs::Nulls::nulls))]
fn with_null(env: &Environment<'_>, pair: Pair) -> Result<(Value, Value), CheckFault>
    ensures { Judges values_of result (with_null (environment_of env.now) pair.at pair.other (operand_of pair.left) (operand_of pair.right)) }
{
    let at = pair.at;
    let left = is_null(&pair.left);
    let right = is_null(&pair.right);
    if left && right {
        return pair.scalars(env, at);
    }
    if left {
        return null_before(env, pair, at);
    }
    if right {
        return null_behind(env, pair, at);
    }
    pair.values(env, at)
}

/// `a == b` and `a != b`
#[tactic(auto, using(kt_names::proofs::Parts::parts))]
fn equal(env: &Environment<'_>, operation: Operation, pair: Pair) -> Result<Operand, CheckFault>
    ensures { Judges operand_of result (equal (environment_of env.now) pair.at pair.other operation (operand_of pair.left) (operand_of pair.right)) }
{
    let at = pair.at;
    let values = with_null(env, pair)?;
    compared(env, at, operation, values)
}

/// `a && b`, of values
fn both_hold(env: &Environment<'_>, values: (Value, Value)) -> Result<Operand, CheckFault>
    ensures { Judges operand_of result (Ok (Valued int (Both (expression_of values.0.expression) (expression_of values.1.expression)))) }
{
    let (a, b) = values;
    let whole = node::both_hold(env.alloc, a.expression, b.expression)?;
    Ok(Operand::Valued(CType::int(), whole))
}

/// `a || b`, of values
fn either_holds(env: &Environment<'_>, values: (Value, Value)) -> Result<Operand, CheckFault>
    ensures { Judges operand_of result (Ok (Valued int (Either (expression_of values.0.expression) (expression_of values.1.expression)))) }
{
    let (a, b) = values;
    let whole = node::either_holds(env.alloc, a.expression, b.expression)?;
    Ok(Operand::Valued(CType::int(), whole))
}

/// `a && b`
#[tactic(auto, using(kt_names::proofs::Parts::parts))]
fn and(env: &Environment<'_>, pair: Pair) -> Result<Operand, CheckFault>
    ensures { Judges operand_of result (operator (environment_of env.now) pair.at pair.other binary.And (operand_of pair.left) (operand_of pair.right)) }
{
    let at = pair.at;
    let values = pair.scalars(env, at)?;
    both_hold(env, values)
}

/// `a || b`
#[tactic(auto, using(kt_names::proofs::Parts::parts))]
fn or(env: &Environment<'_>, pair: Pair) -> Result<Operand, CheckFault>
    ensures { Judges operand_of result (operator (environment_of env.now) pair.at pair.other binary.Or (operand_of pair.left) (operand_of pair.right)) }
{
    let at = pair.at;
    let values = pair.scalars(env, at)?;
    either_holds(env, values)
}

/// An operator of two values that is no `&&`, `||`, `==` or `!=`.
fn of_values(
    env: &Environment<'_>,
    at: u32,
    op: BinaryOperator,
    values: (Value, Value),
) -> Result<Operand, CheckFault>
    ensures { Judges operand_of result (of_values (environment_of env.now) at op (value_of values.0) (value_of values.1)) }
{
    match comparison_of(op) {
        Some(operation) => compared(env, at, operation, values),
        None => sum_of(env, at, op, values.0, values.1),
    }
}

/// An operator that is no `&&`, `||`, `==` or `!=`.
#[tactic(auto, using(kt_names::proofs::Parts::parts))]
fn plain(env: &Environment<'_>, op: BinaryOperator, pair: Pair) -> Result<Operand, CheckFault>
    ensures { Judges operand_of result (and_then (both (value (environment_of env.now) pair.at pair.at (operand_of pair.left)) (value (environment_of env.now) pair.other pair.at (operand_of pair.right))) (λ x. of_values (environment_of env.now) pair.at op x.0 x.1)) }
{
    let at = pair.at;
    let values = pair.values(env, at)?;
    of_values(env, at, op, values)
}

/// A binary operator.
pub(crate) fn operator(
    env: &Environment<'_>,
    op: BinaryOperator,
    pair: Pair,
) -> Result<Operand, CheckFault>
    ensures { Judges operand_of result (operator (environment_of env.now) pair.at pair.other op (operand_of pair.left) (operand_of pair.right)) }
{
    match op {
        BinaryOperator::And => and(env, pair),
        BinaryOperator::Or => or(env, pair),
        BinaryOperator::Equal => equal(env, Operation::Equal, pair),
        BinaryOperator::NotEqual => equal(env, Operation::NotEqual, pair),
        BinaryOperator::Less => plain(env, op, pair),
        BinaryOperator::Greater => plain(env, op, pair),
        BinaryOperator::LessEqual => plain(env, op, pair),
        BinaryOperator::GreaterEqual => plain(env, op, pair),
        BinaryOperator::Add => plain(env, op, pair),
        BinaryOperator::Subtract => plain(env, op, pair),
        BinaryOperator::Multiply => plain(env, op, pair),
        BinaryOperator::Divide => plain(env, op, pair),
        BinaryOperator::Remainder => plain(env, op, pair),
    }
}
