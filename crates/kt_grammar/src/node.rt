//! Expressions made of their parts.

ghost use Rattle.std.specs.Prelude.{◌≡◌, map, IfOk};
ghost use Rattle.kt_grammar.specs.Tree.{term_of, terms_of, Called, Parenthesised, Transformed, Element, Member, Pointed, Stepped, Prefixed, Converted, Operated, Chosen, Assigned};

use super::operator::{AssignOperator, BinaryOperator, PrefixOperator, StepOperator};
use super::tree::{Expr, Name, TypeName};
use sqlite_items::{Boxed, Items};
use std::alloc::{AllocError, Global};

#[tactic(auto, using(crate::proofs::Nodes::nodes))]
pub(crate) fn called(function: Name, arguments: Items<Expr>) -> Expr
    ensures { term_of result ≡ Called function (terms_of (map term_of arguments)) }
{
    Expr::Call(function, arguments)
}

#[tactic(auto, using(crate::proofs::Nodes::nodes))]
pub(crate) fn parenthesised(alloc: Global, at: u32, inner: Expr) -> Result<Expr, AllocError>
    ensures { IfOk result (λ x. term_of x ≡ Parenthesised at (term_of inner)) }
{
    let inner = Boxed::new(alloc, inner)?;
    Ok(Expr::Paren(at, inner))
}

#[tactic(auto, using(crate::proofs::Nodes::nodes))]
pub(crate) fn transformed(alloc: Global, at: u32, inner: Expr) -> Result<Expr, AllocError>
    ensures { IfOk result (λ x. term_of x ≡ Transformed at (term_of inner)) }
{
    let inner = Boxed::new(alloc, inner)?;
    Ok(Expr::Transform(at, inner))
}

#[tactic(auto, using(crate::proofs::Nodes::nodes))]
pub(crate) fn element(alloc: Global, array: Expr, index: Expr) -> Result<Expr, AllocError>
    ensures { IfOk result (λ x. term_of x ≡ Element (term_of array) (term_of index)) }
{
    let (array, index) = both(boxed(alloc, array), boxed(alloc, index))?;
    Ok(Expr::Index(array, index))
}

#[tactic(auto, using(crate::proofs::Nodes::nodes))]
pub(crate) fn member(alloc: Global, of: Expr, field: Name) -> Result<Expr, AllocError>
    ensures { IfOk result (λ x. term_of x ≡ Member (term_of of) field) }
{
    let of = Boxed::new(alloc, of)?;
    Ok(Expr::Field(of, field))
}

#[tactic(auto, using(crate::proofs::Nodes::nodes))]
pub(crate) fn pointed(alloc: Global, pointer: Expr, field: Name) -> Result<Expr, AllocError>
    ensures { IfOk result (λ x. term_of x ≡ Pointed (term_of pointer) field) }
{
    let pointer = Boxed::new(alloc, pointer)?;
    Ok(Expr::Arrow(pointer, field))
}

#[tactic(auto, using(crate::proofs::Nodes::nodes))]
pub(crate) fn stepped(
    alloc: Global,
    operand: Expr,
    operator: StepOperator,
) -> Result<Expr, AllocError>
    ensures { IfOk result (λ x. term_of x ≡ Stepped (term_of operand) operator) }
{
    let operand = Boxed::new(alloc, operand)?;
    Ok(Expr::Step(operand, operator))
}

#[tactic(auto, using(crate::proofs::Nodes::nodes))]
pub(crate) fn prefixed(
    alloc: Global,
    at: u32,
    operator: PrefixOperator,
    operand: Expr,
) -> Result<Expr, AllocError>
    ensures { IfOk result (λ x. term_of x ≡ Prefixed at operator (term_of operand)) }
{
    let operand = Boxed::new(alloc, operand)?;
    Ok(Expr::Prefix(at, operator, operand))
}

#[tactic(auto, using(crate::proofs::Nodes::nodes))]
pub(crate) fn converted(
    alloc: Global,
    at: u32,
    type_name: TypeName,
    operand: Expr,
) -> Result<Expr, AllocError>
    ensures { IfOk result (λ x. term_of x ≡ Converted at type_name (term_of operand)) }
{
    let operand = Boxed::new(alloc, operand)?;
    Ok(Expr::Cast(at, type_name, operand))
}

#[tactic(auto, using(crate::proofs::Nodes::nodes))]
pub(crate) fn operated(
    alloc: Global,
    operator: BinaryOperator,
    left: Expr,
    right: Expr,
) -> Result<Expr, AllocError>
    ensures { IfOk result (λ x. term_of x ≡ Operated operator (term_of left) (term_of right)) }
{
    let (left, right) = both(boxed(alloc, left), boxed(alloc, right))?;
    Ok(Expr::Binary(operator, left, right))
}

#[tactic(auto, using(crate::proofs::Nodes::nodes))]
pub(crate) fn chosen(
    alloc: Global,
    condition: Expr,
    one: Expr,
    other: Expr,
) -> Result<Expr, AllocError>
    ensures { IfOk result (λ x. term_of x ≡ Chosen (term_of condition) (term_of one) (term_of other)) }
{
    let (condition, (one, other)) = both(
        boxed(alloc, condition),
        both(boxed(alloc, one), boxed(alloc, other)),
    )?;
    Ok(Expr::Choice(condition, one, other))
}

#[tactic(auto, using(crate::proofs::Nodes::nodes))]
pub(crate) fn assigned(
    alloc: Global,
    operator: AssignOperator,
    left: Expr,
    right: Expr,
) -> Result<Expr, AllocError>
    ensures { IfOk result (λ x. term_of x ≡ Assigned operator (term_of left) (term_of right)) }
{
    let (left, right) = both(boxed(alloc, left), boxed(alloc, right))?;
    Ok(Expr::Assign(operator, left, right))
}

// Both, where both are there.
fn both<A: Drop, B: Drop>(
    a: Result<A, AllocError>,
    b: Result<B, AllocError>,
) -> Result<(A, B), AllocError>
    ensures { IfOk result (λ p. (a ≡ Ok p.0) × (b ≡ Ok p.1)) }
{
    Ok((a?, b?))
}

// The value in a box. Where there is no memory, it is let go here, and not by each caller.
fn boxed<T: Drop>(alloc: Global, x: T) -> Result<Boxed<T>, AllocError>
    ensures { IfOk result (λ b. b ≡ x) }
{
    Ok(Boxed::new(alloc, x)?)
}
