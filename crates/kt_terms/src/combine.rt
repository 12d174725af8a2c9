//! Operations of two values: additive and multiplicative operators (ISO/IEC 9899:2011, 6.5.5, 6.5.6).

ghost use Rattle.std.specs.Prelude.{◌≡◌, Ok};
ghost use Rattle.kt_tree.specs.Tree.{expression_of};
ghost use Rattle.kt_tree.specs.declared.expr.Operation.TheVariants as operation;
ghost use Rattle.kt_grammar.specs.declared.operator.BinaryOperator.TheVariants as binary;
ghost use Rattle.kt_names.specs.Checked.{and_then, found};
ghost use Rattle.kt_names.specs.declared.fault.CheckFault.TheVariants.{BadType};
ghost use Rattle.kt_names.specs.Judges.{Judges};
ghost use Rattle.kt_names.specs.Views.{environment_of, operand_of, value_of, combined_of};
ghost use Rattle.kt_names.specs.Types.{common, long, pointee};
ghost use Rattle.kt_names.specs.Operands.{Valued};
ghost use Rattle.kt_names.specs.Rules.{operated, arithmetic_of, moving_of, moved, combined, elements_between, in_order, sum_of};

use kt_grammar::BinaryOperator;
use kt_names::arithmetic::Combined;
use kt_names::ctype::CType;
use kt_names::environment::Environment;
use kt_names::fault::CheckFault;
use kt_names::node;
use kt_names::operand::{Operand, Value};
use kt_tree::{Expr, Operation};

/// The operation of an arithmetic operator.
fn arithmetic_of(op: BinaryOperator) -> Option<Operation>
    ensures { result ≡ arithmetic_of op }
{
    match op {
        BinaryOperator::Add => Some(Operation::Add),
        BinaryOperator::Subtract => Some(Operation::Subtract),
        BinaryOperator::Multiply => Some(Operation::Multiply),
        BinaryOperator::Divide => Some(Operation::Divide),
        BinaryOperator::Remainder => Some(Operation::Remainder),
        BinaryOperator::Or => None,
        BinaryOperator::And => None,
        BinaryOperator::Equal => None,
        BinaryOperator::NotEqual => None,
        BinaryOperator::Less => None,
        BinaryOperator::Greater => None,
        BinaryOperator::LessEqual => None,
        BinaryOperator::GreaterEqual => None,
    }
}

/// The operation that moves a pointer so many elements on or back.
fn moving_of(op: BinaryOperator, e: u32) -> Option<Operation>
    ensures { result ≡ moving_of op e }
{
    match op {
        BinaryOperator::Add => Some(Operation::ElementAfter(e)),
        BinaryOperator::Subtract => Some(Operation::ElementBefore(e)),
        BinaryOperator::Multiply => None,
        BinaryOperator::Divide => None,
        BinaryOperator::Remainder => None,
        BinaryOperator::Or => None,
        BinaryOperator::And => None,
        BinaryOperator::Equal => None,
        BinaryOperator::NotEqual => None,
        BinaryOperator::Less => None,
        BinaryOperator::Greater => None,
        BinaryOperator::LessEqual => None,
        BinaryOperator::GreaterEqual => None,
    }
}

/// The operation of a pointer of a type and an integer.
fn moved(
    env: &Environment<'_>,
    at: u32,
    t: CType,
    op: BinaryOperator,
) -> Result<Combined, CheckFault>
    ensures { Judges combined_of result (moved (environment_of env.now) at t (pointee t) op) }
{
    match t.pointee() {
        None => Err(CheckFault::BadType { at }),
        Some(e) => match moving_of(op, env.place(e)) {
            None => Err(CheckFault::BadType { at }),
            Some(operation) => {
                if env.is_complete(e) {
                    Ok(Combined { operation, own: t })
                } else {
                    Err(CheckFault::Incomplete { at })
                }
            }
        },
    }
}

/// The operation of two integers.
fn joined(at: u32, op: BinaryOperator, a: CType, b: CType) -> Result<Combined, CheckFault>
    ensures { Judges combined_of result (and_then (found (arithmetic_of op) (BadType at)) (λ o. Ok (record { operation = o; own = common a b }))) }
{
    match arithmetic_of(op) {
        None => Err(CheckFault::BadType { at }),
        Some(operation) => Ok(Combined {
            operation,
            own: a.common(b),
        }),
    }
}

/// The operation of two integers, or of a pointer and an integer.
#[tactic(auto, unfolding(kt_names::specs::Rules::combined))]
pub(crate) fn combined(
    env: &Environment<'_>,
    at: u32,
    op: BinaryOperator,
    a: CType,
    b: CType,
) -> Result<Combined, CheckFault>
    ensures { Judges combined_of result (combined (environment_of env.now) at op a b) }
{
    if !b.is_integer() {
        return Err(CheckFault::BadType { at });
    }
    if a.is_integer() {
        joined(at, op, a, b)
    } else {
        moved(env, at, a, op)
    }
}

/// An operation of two values.
pub(crate) fn operated(
    env: &Environment<'_>,
    operation: Operation,
    t: CType,
    a: Expr,
    b: Expr,
) -> Result<Expr, CheckFault>
    ensures { Judges expression_of result (Ok (operated (environment_of env.now) operation t (expression_of a) (expression_of b))) }
{
    let ty = env.place(t);
    let whole = node::operated(env.alloc, operation, ty, a, b)?;
    Ok(whole)
}

/// How many elements of a type lie between two pointers.
fn counted_between(
    env: &Environment<'_>,
    p: Value,
    q: Value,
    e: CType,
) -> Result<Operand, CheckFault>
    ensures { Judges operand_of result (Ok (Valued long (operated (environment_of env.now) (operation.ElementsBetween ((environment_of env.now).place e)) long (expression_of p.expression) (expression_of q.expression)))) }
{
    let operation = Operation::ElementsBetween(env.place(e));
    let count = operated(env, operation, CType::long(), p.expression, q.expression)?;
    Ok(Operand::Valued(CType::long(), count))
}

/// How many elements lie between two pointers of one type.
fn elements_between(
    env: &Environment<'_>,
    at: u32,
    p: Value,
    q: Value,
) -> Result<Operand, CheckFault>
    ensures { Judges operand_of result (elements_between (environment_of env.now) at (value_of p) (value_of q) (pointee p.ty)) }
{
    match p.ty.pointee() {
        None => {
            drop((p, q));
            Err(CheckFault::BadType { at })
        }
        Some(e) => {
            if env.is_complete(e) {
                counted_between(env, p, q, e)
            } else {
                drop((p, q));
                Err(CheckFault::Incomplete { at })
            }
        }
    }
}

/// An operation of two values, in their order.
fn in_order(env: &Environment<'_>, c: Combined, a: Value, b: Value) -> Result<Operand, CheckFault>
    ensures { Judges operand_of result (Ok (in_order (environment_of env.now) (combined_of c) (value_of a) (value_of b))) }
{
    let whole = operated(env, c.operation, c.own, a.expression, b.expression)?;
    Ok(Operand::Valued(c.own, whole))
}

/// An operator of two values, in their order.
#[tactic(auto, using(kt_names::proofs::Parts::parts))]
fn plain_sum(
    env: &Environment<'_>,
    at: u32,
    op: BinaryOperator,
    a: Value,
    b: Value,
) -> Result<Operand, CheckFault>
    ensures { Judges operand_of result (and_then (combined (environment_of env.now) at op a.ty b.ty) (λ c. Ok (in_order (environment_of env.now) c (value_of a) (value_of b)))) }
{
    match combined(env, at, op, a.ty, b.ty) {
        Ok(c) => in_order(env, c, a, b),
        Err(fault) => {
            a.let_go();
            b.let_go();
            Err(fault)
        }
    }
}

/// An integer before the pointer that it moves.
#[tactic(auto, using(kt_names::proofs::Parts::parts))]
fn turned_sum(env: &Environment<'_>, at: u32, a: Value, b: Value) -> Result<Operand, CheckFault>
    ensures { Judges operand_of result (and_then (combined (environment_of env.now) at binary.Add b.ty a.ty) (λ c. Ok (in_order (environment_of env.now) c (value_of a) (value_of b)))) }
{
    match combined(env, at, BinaryOperator::Add, b.ty, a.ty) {
        Ok(c) => in_order(env, c, a, b),
        Err(fault) => {
            a.let_go();
            b.let_go();
            Err(fault)
        }
    }
}

/// `a + b` and its kin, of values: an integer may stand before the pointer that it moves.
pub(crate) fn sum_of(
    env: &Environment<'_>,
    at: u32,
    op: BinaryOperator,
    a: Value,
    b: Value,
) -> Result<Operand, CheckFault>
    ensures { Judges operand_of result (sum_of (environment_of env.now) at op (value_of a) (value_of b)) }
{
    match op {
        BinaryOperator::Subtract => {
            if a.ty.is_pointer() && a.ty.is(b.ty) {
                return elements_between(env, at, a, b);
            }
            plain_sum(env, at, BinaryOperator::Subtract, a, b)
        }
        BinaryOperator::Add => {
            if a.ty.is_integer() && b.ty.is_pointer() {
                return turned_sum(env, at, a, b);
            }
            plain_sum(env, at, BinaryOperator::Add, a, b)
        }
        BinaryOperator::Multiply => plain_sum(env, at, op, a, b),
        BinaryOperator::Divide => plain_sum(env, at, op, a, b),
        BinaryOperator::Remainder => plain_sum(env, at, op, a, b),
        BinaryOperator::Or => plain_sum(env, at, op, a, b),
        BinaryOperator::And => plain_sum(env, at, op, a, b),
        BinaryOperator::Equal => plain_sum(env, at, op, a, b),
        BinaryOperator::NotEqual => plain_sum(env, at, op, a, b),
        BinaryOperator::Less => plain_sum(env, at, op, a, b),
        BinaryOperator::Greater => plain_sum(env, at, op, a, b),
        BinaryOperator::LessEqual => plain_sum(env, at, op, a, b),
        BinaryOperator::GreaterEqual => plain_sum(env, at, op, a, b),
    }
}
