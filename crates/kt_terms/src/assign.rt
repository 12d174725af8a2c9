//! Assignment (ISO/IEC 9899:2011, 6.5.16), and the operators that add or take one (6.5.2.4, 6.5.3.1).

ghost use Rattle.std.specs.Prelude.{◌≡◌, Ok, Err, Some};
ghost use Rattle.kt_tree.specs.Tree.{expression_of, Modified, Requested, More, NoMore};
ghost use Rattle.kt_tree.specs.declared.expr.Request.TheVariants as request;
ghost use Rattle.kt_names.specs.Checked.{and_then};
ghost use Rattle.kt_names.specs.Judges.{Judges};
ghost use Rattle.kt_names.specs.Views.{environment_of, operand_of, value_of, combined_of};
ghost use Rattle.kt_names.specs.Operands.{Valued, LocalPlace, CellPlace, value};
ghost use Rattle.kt_names.specs.Rules.{compound_of, local_combined, local_changed, changed, assigned, assignment, one, step_operator};

use crate::combine::{combined, operated};
use kt_grammar::{AssignOperator, BinaryOperator, StepOperator};
use kt_names::arithmetic::Combined;
use kt_names::ctype::CType;
use kt_names::environment::Environment;
use kt_names::fault::CheckFault;
use kt_names::node;
use kt_names::operand::{Operand, Value, number_value};
use kt_tree::Expr;

/// How a place changes: where the whole expression begins, whether its value is the one before, and by which operator.
#[derive(Clone, Copy)]
pub(crate) struct Change {
    pub at: u32,
    pub old: bool,
    pub op: BinaryOperator,
}

/// The binary operator of a compound assignment.
fn compound_of(op: AssignOperator) -> Option<BinaryOperator>
    ensures { result ≡ compound_of op }
{
    match op {
        AssignOperator::Assign => None,
        AssignOperator::Add => Some(BinaryOperator::Add),
        AssignOperator::Subtract => Some(BinaryOperator::Subtract),
        AssignOperator::Multiply => Some(BinaryOperator::Multiply),
        AssignOperator::Divide => Some(BinaryOperator::Divide),
        AssignOperator::Remainder => Some(BinaryOperator::Remainder),
    }
}

/// A local that takes a value.
fn local_taken(
    env: &Environment<'_>,
    old: bool,
    x: u32,
    t: CType,
    value: Expr,
) -> Result<Operand, CheckFault>
    ensures { Judges operand_of result (Ok (Valued t (local_changed old x (expression_of value)))) }
{
    if old {
        let whole = node::local_swapped(env.alloc, x, value)?;
        Ok(Operand::Valued(t, whole))
    } else {
        let whole = node::local_set(env.alloc, x, value)?;
        Ok(Operand::Valued(t, whole))
    }
}

/// What is combined with a local's value, as the local takes it.
fn local_combined(
    env: &Environment<'_>,
    x: u32,
    t: CType,
    c: Combined,
    v: Value,
) -> Result<Expr, CheckFault>
    ensures { Judges expression_of result (Ok (local_combined (environment_of env.now) x t (combined_of c) (value_of v))) }
{
    let expression = operated(env, c.operation, c.own, Expr::Local(x), v.expression)?;
    let whole = Value {
        ty: c.own,
        expression,
    };
    whole.converted_to(env, t)
}

/// A local that takes what is combined with its value.
fn local_with(
    env: &Environment<'_>,
    old: bool,
    place: (u32, CType),
    c: Combined,
    v: Value,
) -> Result<Operand, CheckFault>
    ensures { Judges operand_of result (Ok (Valued place.1 (local_changed old place.0 (local_combined (environment_of env.now) place.0 place.1 (combined_of c) (value_of v))))) }
{
    let value = local_combined(env, place.0, place.1, c, v)?;
    local_taken(env, old, place.0, place.1, value)
}

/// `x op= v`, of a local
#[tactic(auto, using(kt_names::proofs::Parts::parts))]
fn change_local(
    env: &Environment<'_>,
    change: Change,
    x: u32,
    t: CType,
    v: Value,
) -> Result<Operand, CheckFault>
    ensures { Judges operand_of result (changed (environment_of env.now) change.at change.old change.op (LocalPlace x t) (value_of v)) }
{
    match combined(env, change.at, change.op, t, v.ty) {
        Ok(c) => local_with(env, change.old, (x, t), c, v),
        Err(fault) => {
            v.let_go();
            Err(fault)
        }
    }
}

/// A cell that takes what is combined with its value.
fn cell_with(
    env: &Environment<'_>,
    old: bool,
    c: Combined,
    p: Value,
    v: Value,
) -> Result<Operand, CheckFault>
    ensures { Judges operand_of result (Ok (Valued p.ty (Modified c.operation ((environment_of env.now).place c.own) ((environment_of env.now).place p.ty) old (expression_of p.expression) (expression_of v.expression)))) }
{
    let own = env.place(c.own);
    let ty = env.place(p.ty);
    let operation = (c.operation, own);
    let whole = node::modified(env.alloc, operation, ty, old, p.expression, v.expression)?;
    Ok(Operand::Valued(p.ty, whole))
}

/// `*p op= v`, of the cell of the type of `p`
#[tactic(auto, using(kt_names::proofs::Parts::parts))]
fn change_cell(
    env: &Environment<'_>,
    change: Change,
    p: Value,
    v: Value,
) -> Result<Operand, CheckFault>
    ensures { Judges operand_of result (changed (environment_of env.now) change.at change.old change.op (CellPlace p.ty (expression_of p.expression)) (value_of v)) }
{
    match combined(env, change.at, change.op, p.ty, v.ty) {
        Ok(c) => cell_with(env, change.old, c, p, v),
        Err(fault) => {
            p.let_go();
            v.let_go();
            Err(fault)
        }
    }
}

/// `a op= v`
pub(crate) fn changed(
    env: &Environment<'_>,
    change: Change,
    a: Operand,
    v: Value,
) -> Result<Operand, CheckFault>
    ensures { Judges operand_of result (changed (environment_of env.now) change.at change.old change.op (operand_of a) (value_of v)) }
{
    let fault = CheckFault::BadType { at: change.at };
    match a {
        Operand::LocalPlace(x, t) => change_local(env, change, x, t, v),
        Operand::CellPlace(ty, expression) => {
            change_cell(env, change, Value { ty, expression }, v)
        }
        Operand::Valued(_, gone) => {
            drop(gone);
            refused(v, fault)
        }
        Operand::Zero => refused(v, fault),
        Operand::Null => refused(v, fault),
        Operand::ArrayPlace(_, gone) => {
            drop(gone);
            refused(v, fault)
        }
        Operand::WholePlace(_, gone) => {
            drop(gone);
            refused(v, fault)
        }
        Operand::NoResult(gone) => {
            drop(gone);
            refused(v, fault)
        }
    }
}

/// A fault, for which a value is let go.
fn refused(v: Value, fault: CheckFault) -> Result<Operand, CheckFault>
    ensures { result ≡ Err fault }
{
    drop(v);
    Err(fault)
}

/// A fault, for which an operand is let go.
fn unfit(e: Operand, fault: CheckFault) -> Result<Operand, CheckFault>
    ensures { result ≡ Err fault }
{
    drop(e);
    Err(fault)
}

/// `x = e`, of a local
#[tactic(auto, using(kt_names::proofs::Parts::parts))]
fn assign_local(
    env: &Environment<'_>,
    at: u32,
    right: u32,
    place: (u32, CType),
    e: Operand,
) -> Result<Operand, CheckFault>
    ensures { Judges operand_of result (assigned (environment_of env.now) at right (LocalPlace place.0 place.1) (operand_of e)) }
{
    match e.convert(env, place.1, right, at) {
        Ok(value) => local_taken(env, false, place.0, place.1, value),
        Err(fault) => Err(fault),
    }
}

/// A value that the cell of the type of `p` takes.
fn cell_stored(env: &Environment<'_>, p: Value, value: Expr) -> Result<Operand, CheckFault>
    ensures { Judges operand_of result (Ok (Valued p.ty (Requested request.Store (Some ((environment_of env.now).place p.ty)) (More (expression_of p.expression) (More (expression_of value) NoMore))))) }
{
    let ty = env.place(p.ty);
    let whole = node::stored(env.alloc, ty, p.expression, value)?;
    Ok(Operand::Valued(p.ty, whole))
}

/// `*p = e`, of the cell of the type of `p`
#[tactic(auto, using(kt_names::proofs::Parts::parts))]
fn assign_cell(
    env: &Environment<'_>,
    at: u32,
    right: u32,
    p: Value,
    e: Operand,
) -> Result<Operand, CheckFault>
    ensures { Judges operand_of result (assigned (environment_of env.now) at right (CellPlace p.ty (expression_of p.expression)) (operand_of e)) }
{
    match e.convert(env, p.ty, right, at) {
        Ok(value) => cell_stored(env, p, value),
        Err(fault) => {
            p.let_go();
            Err(fault)
        }
    }
}

/// `a = e`
fn assigned(
    env: &Environment<'_>,
    at: u32,
    right: u32,
    a: Operand,
    e: Operand,
) -> Result<Operand, CheckFault>
    ensures { Judges operand_of result (assigned (environment_of env.now) at right (operand_of a) (operand_of e)) }
{
    let fault = CheckFault::BadType { at };
    match a {
        Operand::LocalPlace(x, t) => assign_local(env, at, right, (x, t), e),
        Operand::CellPlace(ty, expression) => {
            assign_cell(env, at, right, Value { ty, expression }, e)
        }
        Operand::Valued(_, gone) => {
            drop(gone);
            unfit(e, fault)
        }
        Operand::Zero => unfit(e, fault),
        Operand::Null => unfit(e, fault),
        Operand::ArrayPlace(_, gone) => {
            drop(gone);
            unfit(e, fault)
        }
        Operand::WholePlace(_, gone) => {
            drop(gone);
            unfit(e, fault)
        }
        Operand::NoResult(gone) => {
            drop(gone);
            unfit(e, fault)
        }
    }
}

/// `a op= e`
#[tactic(auto, using(kt_names::proofs::Parts::parts))]
fn compound(
    env: &Environment<'_>,
    change: Change,
    right: u32,
    a: Operand,
    e: Operand,
) -> Result<Operand, CheckFault>
    ensures { Judges operand_of result (and_then (value (environment_of env.now) right change.at (operand_of e)) (changed (environment_of env.now) change.at change.old change.op (operand_of a))) }
{
    match e.value(env, right, change.at) {
        Ok(v) => changed(env, change, a, v),
        Err(fault) => {
            a.let_go();
            Err(fault)
        }
    }
}

/// An assignment.
pub(crate) fn assignment(
    env: &Environment<'_>,
    at: u32,
    right: u32,
    op: AssignOperator,
    a: Operand,
    e: Operand,
) -> Result<Operand, CheckFault>
    ensures { Judges operand_of result (assignment (environment_of env.now) at right op (operand_of a) (operand_of e)) }
{
    match compound_of(op) {
        None => assigned(env, at, right, a, e),
        Some(op) => {
            let change = Change { at, old: false, op };
            compound(env, change, right, a, e)
        }
    }
}

/// The number one, an `int`.
pub(crate) fn one(env: &Environment<'_>) -> Value
    ensures { value_of result ≡ one (environment_of env.now) }
{
    let expression = number_value(env, CType::int(), 1);
    Value {
        ty: CType::int(),
        expression,
    }
}

/// The operator that `++` and `--` stand for.
pub(crate) fn step_operator(op: StepOperator) -> BinaryOperator
    ensures { result ≡ step_operator op }
{
    match op {
        StepOperator::Increment => BinaryOperator::Add,
        StepOperator::Decrement => BinaryOperator::Subtract,
    }
}
