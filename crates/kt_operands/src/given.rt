//! Operations and requests of values: each is its tree, where the operands are such as it takes.

ghost use Rattle.std.specs.Prelude.{◌≡◌, List, [], ◌∷◌, Ok, Some};
ghost use Rattle.kt_tree.specs.Tree.{expression_of, expressions_of};
ghost use Rattle.kt_tree.specs.Typed.{kind_of};
ghost use Rattle.kt_typing.specs.Operands.{Value as Worth, types_of, trees_of};
ghost use Rattle.kt_tree.specs.declared.expr.Request.TheVariants as request;
ghost use Rattle.kt_typing.specs.Rules.{given, operated, requested};
ghost use Rattle.kt_operands.specs.Judged.{Follows};
ghost use Rattle.kt_operands.specs.Views.{environment_of, operand_of, value_of};

use crate::environment::Environment;
use crate::operand::{Operand, Value, bad_type, nothing, valued};
use crate::refusal::Refusal;
use crate::tree;
use kt_tree::{Expr, Operation, Request};
use sqlite_items::{Boxed, Items};

/// A tree that gives a value of the type, or nothing.
pub fn given(at: u32, ty: Option<u32>, tree: Boxed<Expr>) -> Operand
    ensures { given at (expression_of tree) (Some (kind_of ty)) ≡ Ok (operand_of result) }
{
    match ty {
        Some(ty) => valued(at, Value { ty, tree }),
        None => nothing(at, tree),
    }
}

/// An operation on a value, which gives this type.
pub fn operated_on(
    env: &Environment<'_>,
    at: u32,
    operation: Operation,
    ty: u32,
    a: Value,
) -> Result<Operand, Refusal>
    ensures { Follows operand_of (operated (environment_of env.now) at operation ty (value_of a ∷ [])) result }
{
    let types = [a.ty];
    if env.lacks_cells(operation, &types) {
        drop(a);
        return Err(Refusal::Fault(env.without_cells(at)));
    }
    if !env.takes_operation(operation, ty, &types) {
        drop(a);
        return Err(bad_type(at));
    }
    let operands = tree::one_operand(env.alloc, a.tree)?;
    let tree = tree::operated(env.alloc, operation, ty, operands)?;
    Ok(valued(at, Value { ty, tree }))
}

/// An operation on two values, which gives this type.
pub fn operated(
    env: &Environment<'_>,
    at: u32,
    operation: Operation,
    ty: u32,
    a: Value,
    b: Value,
) -> Result<Operand, Refusal>
    ensures { Follows operand_of (operated (environment_of env.now) at operation ty (value_of a ∷ value_of b ∷ [])) result }
{
    let types = [a.ty, b.ty];
    if env.lacks_cells(operation, &types) {
        drop((a, b));
        return Err(Refusal::Fault(env.without_cells(at)));
    }
    if !env.takes_operation(operation, ty, &types) {
        drop((a, b));
        return Err(bad_type(at));
    }
    let operands = tree::two_operands(env.alloc, a.tree, b.tree)?;
    let tree = tree::operated(env.alloc, operation, ty, operands)?;
    Ok(valued(at, Value { ty, tree }))
}

/// A request of operands of these types.
pub fn requested_with(
    env: &Environment<'_>,
    at: u32,
    request: Request,
    ty: Option<u32>,
    types: &[u32],
    operands: Items<Expr>,
) -> Result<Operand, Refusal>
    ensures { (vs : List Worth) → types_of vs ≡ types.now → trees_of vs ≡ expressions_of operands → Follows operand_of (requested (environment_of env.now) at request ty vs) result }
{
    if !env.takes_request(&request, ty, types) {
        drop((request, operands));
        return Err(bad_type(at));
    }
    let tree = tree::requested(env.alloc, request, ty, operands)?;
    Ok(given(at, ty, tree))
}

/// A request of nothing, which gives this type or nothing.
pub fn requested(
    env: &Environment<'_>,
    at: u32,
    request: Request,
    ty: Option<u32>,
) -> Result<Operand, Refusal>
    ensures { Follows operand_of (requested (environment_of env.now) at request ty []) result }
{
    requested_with(env, at, request, ty, &[], Items::new(env.alloc))
}

/// A request of a value.
pub fn requested_of(
    env: &Environment<'_>,
    at: u32,
    request: Request,
    ty: Option<u32>,
    a: Value,
) -> Result<Operand, Refusal>
    ensures { Follows operand_of (requested (environment_of env.now) at request ty (value_of a ∷ [])) result }
{
    let types = [a.ty];
    match tree::one_operand(env.alloc, a.tree) {
        Ok(operands) => requested_with(env, at, request, ty, &types, operands),
        Err(_) => {
            drop(request);
            Err(Refusal::NoMemory)
        }
    }
}

/// The store of a value into the cell of a type at a pointer.
pub fn stored(
    env: &Environment<'_>,
    at: u32,
    ty: u32,
    pointer: Value,
    value: Value,
) -> Result<Operand, Refusal>
    ensures { Follows operand_of (requested (environment_of env.now) at request.Store (Some ty) (value_of pointer ∷ value_of value ∷ [])) result }
{
    let types = [pointer.ty, value.ty];
    let operands = tree::two_operands(env.alloc, pointer.tree, value.tree)?;
    requested_with(env, at, Request::Store, Some(ty), &types, operands)
}
