//! Typed expressions made of their parts.

ghost use Rattle.std.specs.Prelude.{◌≡◌, map, IfOk, IfErr, [], ◌∷◌, Some, None};
ghost use Rattle.kt_names.specs.Views.{expressions_of};
ghost use Rattle.kt_tree.specs.declared.expr.Request.TheVariants as request;
ghost use Rattle.kt_tree.specs.Tree.{expression_of, LocalSet, LocalSwapped, Operated, Requested, Modified, Both, Either, Chosen, Called, NoMore, More};

use kt_tree::{Expr, Operation, Request};
use sqlite_items::Items;
use std::alloc::{AllocError, Global};

/// A list of one operand.
pub(crate) fn one_of(alloc: Global, operand: Expr) -> Result<Items<Expr>, AllocError>
    ensures { IfOk result (λ items. items ≡ operand ∷ []) }
{
    let mut items = Items::new(alloc);
    items.push(operand)?;
    Ok(items)
}

/// A list of two operands.
fn two_of(alloc: Global, left: Expr, right: Expr) -> Result<Items<Expr>, AllocError>
    ensures { IfOk result (λ items. items ≡ left ∷ right ∷ []) }
{
    Ok(Items::from_vec(vec![in alloc; left, right]?))
}

/// An operation on one operand.
#[tactic(auto, using(crate::proofs::Nodes::nodes))]
pub fn operated_on(
    alloc: Global,
    operation: Operation,
    ty: u32,
    operand: Expr,
) -> Result<Expr, AllocError>
    ensures { IfOk result (λ x. expression_of x ≡ Operated operation ty (More (expression_of operand) NoMore)) }
{
    let operands = one_of(alloc, operand)?;
    Ok(Expr::Operation(operation, ty, operands))
}

/// An operation on two operands.
#[tactic(auto, using(crate::proofs::Nodes::nodes))]
pub fn operated(
    alloc: Global,
    operation: Operation,
    ty: u32,
    left: Expr,
    right: Expr,
) -> Result<Expr, AllocError>
    ensures { IfOk result (λ x. expression_of x ≡ Operated operation ty (More (expression_of left) (More (expression_of right) NoMore))) }
{
    let operands = two_of(alloc, left, right)?;
    Ok(Expr::Operation(operation, ty, operands))
}

/// A request without operands.
#[tactic(auto, using(crate::proofs::Nodes::nodes))]
pub fn requested(alloc: Global, request: Request, ty: Option<u32>) -> Expr
    ensures { expression_of result ≡ Requested request ty NoMore }
{
    Expr::Request(request, ty, Items::new(alloc))
}

/// A request of one operand.
#[tactic(auto, using(crate::proofs::Nodes::nodes))]
pub fn requested_of(
    alloc: Global,
    request: Request,
    ty: Option<u32>,
    operand: Expr,
) -> Result<Expr, AllocError>
    ensures { IfOk result (λ x. expression_of x ≡ Requested request ty (More (expression_of operand) NoMore)) }
{
    match one_of(alloc, operand) {
        Ok(operands) => Ok(Expr::Request(request, ty, operands)),
        Err(e) => {
            drop(request);
            Err(e)
        }
    }
}

/// A request of these operands.
#[tactic(auto, using(crate::proofs::Nodes::nodes))]
pub fn requested_with(request: Request, ty: Option<u32>, operands: Items<Expr>) -> Expr
    ensures { expression_of result ≡ Requested request ty (expressions_of (map expression_of operands)) }
{
    Expr::Request(request, ty, operands)
}

/// The load of the cell of a type at a pointer.
#[tactic(auto, using(crate::proofs::Nodes::nodes))]
pub(crate) fn loaded(alloc: Global, ty: u32, pointer: Expr) -> Result<Expr, AllocError>
    ensures { IfOk result (λ x. expression_of x ≡ Requested request.Load (Some ty) (More (expression_of pointer) NoMore)) }
{
    requested_of(alloc, Request::Load, Some(ty), pointer)
}

/// The store of a value into the cell of a type at a pointer.
#[tactic(auto, using(crate::proofs::Nodes::nodes))]
pub fn stored(alloc: Global, ty: u32, pointer: Expr, value: Expr) -> Result<Expr, AllocError>
    ensures { IfOk result (λ x. expression_of x ≡ Requested request.Store (Some ty) (More (expression_of pointer) (More (expression_of value) NoMore))) }
{
    let operands = two_of(alloc, pointer, value)?;
    Ok(Expr::Request(Request::Store, Some(ty), operands))
}

/// A value that a local takes.
pub fn local_set(alloc: Global, local: u32, value: Expr) -> Result<Expr, AllocError>
    ensures { IfOk result (λ x. expression_of x ≡ LocalSet local (expression_of value)) }
{
    Expr::set_local(alloc, local, value)
}

/// A value that a local takes, for the one that it had.
pub fn local_swapped(alloc: Global, local: u32, value: Expr) -> Result<Expr, AllocError>
    ensures { IfOk result (λ x. expression_of x ≡ LocalSwapped local (expression_of value)) }
{
    Expr::swap_local(alloc, local, value)
}

/// A cell that takes the result of an operation on what it holds.
pub fn modified(
    alloc: Global,
    operation: (Operation, u32),
    ty: u32,
    old: bool,
    pointer: Expr,
    operand: Expr,
) -> Result<Expr, AllocError>
    ensures { IfOk result (λ x. expression_of x ≡ Modified operation.0 operation.1 ty old (expression_of pointer) (expression_of operand)) }
{
    let (operation, own) = operation;
    Expr::modify(alloc, operation, own, ty, old, pointer, operand)
}

/// `left && right`
pub fn both_hold(alloc: Global, left: Expr, right: Expr) -> Result<Expr, AllocError>
    ensures { IfOk result (λ x. expression_of x ≡ Both (expression_of left) (expression_of right)) }
{
    Expr::and(alloc, left, right)
}

/// `left || right`
pub fn either_holds(alloc: Global, left: Expr, right: Expr) -> Result<Expr, AllocError>
    ensures { IfOk result (λ x. expression_of x ≡ Either (expression_of left) (expression_of right)) }
{
    Expr::or(alloc, left, right)
}

/// `condition ? one : other`, of a type
pub fn chosen(
    alloc: Global,
    condition: Expr,
    ty: u32,
    one: Expr,
    other: Expr,
) -> Result<Expr, AllocError>
    ensures { IfOk result (λ x. expression_of x ≡ Chosen (expression_of condition) ty (expression_of one) (expression_of other)) }
{
    Expr::choice(alloc, condition, ty, one, other)
}

/// A call of a function.
#[tactic(auto, using(crate::proofs::Nodes::nodes))]
pub fn called(function: u32, arguments: Items<Expr>) -> Expr
    ensures { expression_of result ≡ Called function (expressions_of (map expression_of arguments)) }
{
    Expr::Call(function, arguments)
}
