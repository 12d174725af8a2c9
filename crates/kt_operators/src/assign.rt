//! Assignment, and the operators that change their operand (ISO/IEC 9899:2011, 6.5.16, 6.5.2.4, 6.5.3.1).

ghost use Rattle.std.specs.Prelude.{◌≡◌, true, false, [], ◌∷◌, Some, Err, IfOk};
ghost use Rattle.std.specs.Option.{option_map};
ghost use Rattle.kt_tree.specs.declared.expr.Request.TheVariants as request;
ghost use Rattle.kt_tree.specs.Kinds.{pointee, is_operation};
ghost use Rattle.kt_tree.specs.Tree.{expression_of};
ghost use Rattle.kt_tree.specs.Typed.{is_modified};
ghost use Rattle.kt_typing.specs.Rules.{with_value, convert, requested, set_local, taken, of_values, modified, cell_changed, changed_of, changed, stored, assigned_of, compound_of, assignment, one, step_operator};
ghost use Rattle.kt_typing.specs.Faults.{bad_type};
ghost use Rattle.kt_operands.specs.declared.refusal.Refusal.TheVariants as refusal;
ghost use Rattle.kt_operands.specs.Judged.{Follows};
ghost use Rattle.kt_operands.specs.Views.{environment_of, scope_of, operand_of, value_of};
ghost use Rattle.kt_operators.specs.Views.{combined_of};

use crate::arithmetic::{Combined, combination, of_values};
use kt_grammar::{AssignOperator, BinaryOperator, StepOperator};
use kt_operands::convert::converted;
use kt_operands::environment::Environment;
use kt_operands::operand::{Operand, Value, bad_type, valued};
use kt_operands::refusal::Refusal;
use kt_operands::types::INT;
use kt_operands::{given, tree};
use kt_tree::Constant;
use kt_typing::Standing;
use std::alloc::AllocError;

/// A change of a place: where the whole begins, whether its value is the one before, and the operator.
#[derive(Clone, Copy)]
pub struct Change {
    pub at: u32,
    pub old: bool,
    pub op: BinaryOperator,
}

// A local takes a value of its type.
fn set_local(
    env: &Environment<'_>,
    at: u32,
    old: bool,
    local: u32,
    value: Value,
) -> Result<Operand, Refusal>
    ensures { Follows operand_of (set_local (environment_of env.now) at old local (value_of value)) result }
{
    let Some(ty) = env.local(local) else {
        drop(value);
        return Err(bad_type(at));
    };
    if value.ty != ty {
        drop(value);
        return Err(bad_type(at));
    }
    let tree = tree::local_changed(env.alloc, old, local, value.tree)?;
    Ok(valued(at, Value { ty, tree }))
}

// What an operation of a local and a value gives, as the local takes it.
#[tactic(auto, using(crate::proofs::Steps::takings, crate::proofs::Steps::steps))]
fn changed_local(
    env: &Environment<'_>,
    change: Change,
    local: u32,
    own: Value,
    value: Value,
) -> Result<Operand, Refusal>
    ensures { Follows operand_of (taken (environment_of env.now) change.at change.old local own.ty (of_values (environment_of env.now) change.at change.op (value_of own) (value_of value))) result }
{
    let ty = own.ty;
    let changed = of_values(env, change.at, change.op, own, value)?;
    let taken = converted(env, change.at, ty, changed.as_value())?;
    set_local(env, change.at, change.old, local, taken)
}

// What an operation gives is of the cell's type, or an integer that is converted to it.
fn is_modified(env: &Environment<'_>, c: Combined, ty: u32, p: u32, operand: u32) -> bool
    ensures { result ≡ is_modified (scope_of env.now) c.own ty (is_operation (scope_of env.now) c.operation c.own) p operand }
{
    env.points_to(p, ty)
        && env.is_scalar(ty)
        && env.takes_operation(c.operation, c.own, &[ty, operand])
        && (c.own == ty || (env.is_integer(c.own) && env.is_integer(ty)))
}

// `*p op= v`, of a cell of a type.
fn modified(
    env: &Environment<'_>,
    change: Change,
    ty: u32,
    p: Value,
    v: Value,
    c: Option<Combined>,
) -> Result<Operand, Refusal>
    ensures { Follows operand_of (modified (environment_of env.now) change.at change.old ty (value_of p) (value_of v) (option_map combined_of c)) result }
{
    let Some(c) = c else {
        drop((p, v));
        return Err(bad_type(change.at));
    };
    if env.lacks_cells(c.operation, &[ty, v.ty]) {
        drop((p, v));
        return Err(Refusal::Fault(env.without_cells(change.at)));
    }
    if !is_modified(env, c, ty, p.ty, v.ty) {
        drop((p, v));
        return Err(bad_type(change.at));
    }
    let operation = (c.operation, c.own);
    let tree = tree::modified(env.alloc, operation, ty, change.old, p.tree, v.tree)?;
    Ok(valued(change.at, Value { ty, tree }))
}

// `*p op= v`
fn cell_changed(
    env: &Environment<'_>,
    change: Change,
    p: Value,
    v: Value,
) -> Result<Operand, Refusal>
    ensures { Follows operand_of (cell_changed (environment_of env.now) change.at change.old change.op (value_of p) (value_of v) (pointee (scope_of env.now) p.ty)) result }
{
    match env.pointee(p.ty) {
        Some(ty) => {
            let c = combination(env, change.op, ty, v.ty);
            modified(env, change, ty, p, v, c)
        }
        None => {
            drop((p, v));
            Err(bad_type(change.at))
        }
    }
}

// What isn't changed.
fn unchanged(change: Change, x: Operand, v: Value) -> Result<Operand, Refusal>
    ensures { result ≡ Err (refusal.Fault (bad_type change.at)) }
{
    drop((x, v));
    Err(bad_type(change.at))
}

// `x op= v`, of an integer.
fn changed_of(
    env: &Environment<'_>,
    change: Change,
    x: Operand,
    v: Value,
) -> Result<Operand, Refusal>
    ensures { Follows operand_of (changed_of (environment_of env.now) change.at change.old change.op x.standing x.ty (expression_of x.tree) (value_of v)) result }
{
    match x.standing {
        Standing::Local(local) => changed_local(env, change, local, x.as_value(), v),
        Standing::Cell => cell_changed(env, change, x.as_value(), v),
        Standing::Value => unchanged(change, x, v),
        Standing::Zero => unchanged(change, x, v),
        Standing::Null => unchanged(change, x, v),
        Standing::Whole => unchanged(change, x, v),
        Standing::Elements => unchanged(change, x, v),
        Standing::Size(_) => unchanged(change, x, v),
        Standing::Product(_) => unchanged(change, x, v),
        Standing::Nothing => unchanged(change, x, v),
        Standing::Entry(_) => unchanged(change, x, v),
    }
}

/// `x op= v`
pub fn changed(
    env: &Environment<'_>,
    change: Change,
    x: Operand,
    v: Value,
) -> Result<Operand, Refusal>
    ensures { Follows operand_of (changed (environment_of env.now) change.at change.old change.op (operand_of x) (value_of v)) result }
{
    if env.is_integer(v.ty) {
        changed_of(env, change, x, v)
    } else {
        unchanged(change, x, v)
    }
}

// A cell of a type that takes an operand.
fn stored_as(
    env: &Environment<'_>,
    at: u32,
    ty: u32,
    p: Value,
    y: Operand,
) -> Result<Operand, Refusal>
    ensures { Follows operand_of (with_value at (convert (scope_of env.now) ty (operand_of y)) (λ v. requested (environment_of env.now) at request.Store (Some ty) (value_of p ∷ v ∷ []))) result }
{
    match y.convert(env, at, ty) {
        Ok(value) => given::stored(env, at, ty, p, value),
        Err(e) => {
            drop(p);
            Err(e)
        }
    }
}

// A cell that takes an operand.
fn stored(env: &Environment<'_>, at: u32, p: Value, y: Operand) -> Result<Operand, Refusal>
    ensures { Follows operand_of (stored (environment_of env.now) at (value_of p) (operand_of y) (pointee (scope_of env.now) p.ty)) result }
{
    match env.pointee(p.ty) {
        Some(ty) => stored_as(env, at, ty, p, y),
        None => {
            drop((p, y));
            Err(bad_type(at))
        }
    }
}

// A local that takes an operand.
fn assigned_local(
    env: &Environment<'_>,
    at: u32,
    local: u32,
    ty: u32,
    y: Operand,
) -> Result<Operand, Refusal>
    ensures { Follows operand_of (with_value at (convert (scope_of env.now) ty (operand_of y)) (set_local (environment_of env.now) at false local)) result }
{
    match y.convert(env, at, ty) {
        Ok(value) => set_local(env, at, false, local, value),
        Err(e) => Err(e),
    }
}

// What takes nothing.
fn unassigned(at: u32, x: Operand, y: Operand) -> Result<Operand, Refusal>
    ensures { result ≡ Err (refusal.Fault (bad_type at)) }
{
    drop((x, y));
    Err(bad_type(at))
}

// `x = y`
fn assigned_of(env: &Environment<'_>, at: u32, x: Operand, y: Operand) -> Result<Operand, Refusal>
    ensures { Follows operand_of (assigned_of (environment_of env.now) at x.standing x.ty (expression_of x.tree) (operand_of y)) result }
{
    match x.standing {
        Standing::Local(local) => {
            let ty = x.ty;
            drop(x);
            assigned_local(env, at, local, ty, y)
        }
        Standing::Cell => stored(env, at, x.as_value(), y),
        Standing::Value => unassigned(at, x, y),
        Standing::Zero => unassigned(at, x, y),
        Standing::Null => unassigned(at, x, y),
        Standing::Whole => unassigned(at, x, y),
        Standing::Elements => unassigned(at, x, y),
        Standing::Size(_) => unassigned(at, x, y),
        Standing::Product(_) => unassigned(at, x, y),
        Standing::Nothing => unassigned(at, x, y),
        Standing::Entry(_) => unassigned(at, x, y),
    }
}

fn compound_of(op: AssignOperator) -> Option<BinaryOperator>
    ensures { result ≡ compound_of op }
{
    match op {
        AssignOperator::Assign => None,
        AssignOperator::Add => Some(BinaryOperator::Add),
        AssignOperator::Subtract => Some(BinaryOperator::Subtract),
        AssignOperator::Multiply => Some(BinaryOperator::Multiply),
        AssignOperator::Divide => Some(BinaryOperator::Divide),
        AssignOperator::Remainder => Some(BinaryOperator::Remainder),
    }
}

/// An assignment.
#[tactic(auto, using(crate::proofs::Steps::steps))]
pub fn assignment(
    env: &Environment<'_>,
    at: u32,
    op: AssignOperator,
    x: Operand,
    y: Operand,
) -> Result<Operand, Refusal>
    ensures { Follows operand_of (assignment (environment_of env.now) at op (operand_of x) (operand_of y)) result }
{
    match compound_of(op) {
        None => assigned_of(env, at, x, y),
        Some(op) => {
            let value = y.value(env, at)?;
            changed(env, Change { at, old: false, op }, x, value)
        }
    }
}

/// What `++` and `--` add and take.
pub fn one(env: &Environment<'_>) -> Result<Value, AllocError>
    ensures { IfOk result (λ v. value_of v ≡ one) }
{
    let tree = tree::constant(env.alloc, Constant::Number(1), INT)?;
    Ok(Value { ty: INT, tree })
}

fn step_operator(op: StepOperator) -> BinaryOperator
    ensures { result ≡ step_operator op }
{
    match op {
        StepOperator::Increment => BinaryOperator::Add,
        StepOperator::Decrement => BinaryOperator::Subtract,
    }
}

/// `x++` and `x--`
pub fn stepped(
    env: &Environment<'_>,
    at: u32,
    op: StepOperator,
    x: Operand,
) -> Result<Operand, Refusal>
    ensures { Follows operand_of (changed (environment_of env.now) at true (step_operator op) (operand_of x) one) result }
{
    let op = step_operator(op);
    let value = one(env)?;
    changed(env, Change { at, old: true, op }, x, value)
}
