//! Trees made of their parts. Each is boxed from birth, so that letting it go is one call.

ghost use Rattle.std.specs.Prelude.{◌≡◌, [], ◌∷◌, IfOk};
ghost use Rattle.kt_tree.specs.Tree.{Constant', LocalRead, LocalSet, LocalSwapped, Operated, Requested, Modified, Both, Either, Chosen, Called, NoMore, More, expression_of, expressions_of};
ghost use Rattle.kt_typing.specs.Rules.{local_changed, null_tree};

use kt_tree::{Constant, Expr, Operation, Request};
use sqlite_items::{Boxed, Items};
use std::alloc::{AllocError, Global};

// The expression in a box. Where there is no memory, it is let go here, and not by each caller.
fn boxed(alloc: Global, tree: Expr) -> Result<Boxed<Expr>, AllocError>
    ensures { IfOk result (λ b. b ≡ tree) }
{
    Boxed::new(alloc, tree)
}

/// A value that stands in the text.
pub fn constant(alloc: Global, value: Constant, ty: u32) -> Result<Boxed<Expr>, AllocError>
    ensures { IfOk result (λ e. expression_of e ≡ Constant' value ty) }
{
    boxed(alloc, Expr::Constant(value, ty))
}

/// The value of a local.
pub fn local(alloc: Global, local: u32) -> Result<Boxed<Expr>, AllocError>
    ensures { IfOk result (λ e. expression_of e ≡ LocalRead local) }
{
    boxed(alloc, Expr::Local(local))
}

/// A value that a local takes; with `old` the value of the whole is the one before.
#[tactic(auto, using(kt_tree::specs::Forms::set_form, kt_tree::specs::Forms::swap_form))]
pub fn local_changed(
    alloc: Global,
    old: bool,
    local: u32,
    value: Boxed<Expr>,
) -> Result<Boxed<Expr>, AllocError>
    ensures { IfOk result (λ e. expression_of e ≡ local_changed old local (expression_of value)) }
{
    if old {
        boxed(alloc, Expr::SwapLocal(local, value))
    } else {
        boxed(alloc, Expr::SetLocal(local, value))
    }
}

/// A list of one operand.
pub fn one_operand(alloc: Global, operand: Boxed<Expr>) -> Result<Items<Expr>, AllocError>
    ensures { IfOk result (λ es. es ≡ operand ∷ []) }
{
    let mut items = Items::new(alloc);
    items.push(operand.into_inner())?;
    Ok(items)
}

/// A list of two operands.
pub fn two_operands(
    alloc: Global,
    left: Boxed<Expr>,
    right: Boxed<Expr>,
) -> Result<Items<Expr>, AllocError>
    ensures { IfOk result (λ es. es ≡ left ∷ right ∷ []) }
{
    Ok(Items::from_vec(vec![in alloc; left.into_inner(), right.into_inner()]?))
}

/// An operation, which gives a value of that type.
pub fn operated(
    alloc: Global,
    operation: Operation,
    ty: u32,
    operands: Items<Expr>,
) -> Result<Boxed<Expr>, AllocError>
    ensures { IfOk result (λ e. expression_of e ≡ Operated operation ty (expressions_of operands)) }
{
    boxed(alloc, Expr::operation(operation, ty, operands))
}

/// A request, which gives a value of that type, or nothing.
pub fn requested(
    alloc: Global,
    request: Request,
    ty: Option<u32>,
    operands: Items<Expr>,
) -> Result<Boxed<Expr>, AllocError>
    ensures { IfOk result (λ e. expression_of e ≡ Requested request ty (expressions_of operands)) }
{
    boxed(alloc, Expr::request(request, ty, operands))
}

/// A change of the cell of type `ty` at a place, by an operation that gives a value of type `own`.
#[tactic(auto, using(kt_tree::specs::Forms::modify_form))]
pub fn modified(
    alloc: Global,
    operation: (Operation, u32),
    ty: u32,
    old: bool,
    place: Boxed<Expr>,
    operand: Boxed<Expr>,
) -> Result<Boxed<Expr>, AllocError>
    ensures { IfOk result (λ e. expression_of e ≡ Modified operation.0 operation.1 ty old (expression_of place) (expression_of operand)) }
{
    let (operation, own) = operation;
    boxed(alloc, Expr::Modify(operation, own, ty, old, place, operand))
}

/// `left && right`
#[tactic(auto, using(kt_tree::specs::Forms::and_form))]
pub fn both_hold(
    alloc: Global,
    left: Boxed<Expr>,
    right: Boxed<Expr>,
) -> Result<Boxed<Expr>, AllocError>
    ensures { IfOk result (λ e. expression_of e ≡ Both (expression_of left) (expression_of right)) }
{
    boxed(alloc, Expr::And(left, right))
}

/// `left || right`
#[tactic(auto, using(kt_tree::specs::Forms::or_form))]
pub fn either_holds(
    alloc: Global,
    left: Boxed<Expr>,
    right: Boxed<Expr>,
) -> Result<Boxed<Expr>, AllocError>
    ensures { IfOk result (λ e. expression_of e ≡ Either (expression_of left) (expression_of right)) }
{
    boxed(alloc, Expr::Or(left, right))
}

/// `test ? one : other`, of that type.
#[tactic(auto, using(kt_tree::specs::Forms::choice_form))]
pub fn chosen(
    alloc: Global,
    test: Boxed<Expr>,
    ty: u32,
    one: Boxed<Expr>,
    other: Boxed<Expr>,
) -> Result<Boxed<Expr>, AllocError>
    ensures { IfOk result (λ e. expression_of e ≡ Chosen (expression_of test) ty (expression_of one) (expression_of other)) }
{
    boxed(alloc, Expr::Choice(test, ty, one, other))
}

/// A call of the function of that number.
pub fn called(
    alloc: Global,
    function: u32,
    arguments: Items<Expr>,
) -> Result<Boxed<Expr>, AllocError>
    ensures { IfOk result (λ e. expression_of e ≡ Called function (expressions_of arguments)) }
{
    boxed(alloc, Expr::call(function, arguments))
}

/// Null as a pointer of the type; a choice of null and null still evaluates its condition.
pub fn null_tree(tree: Boxed<Expr>, alloc: Global, ty: u32) -> Result<Boxed<Expr>, AllocError>
    ensures { IfOk result (λ e. expression_of e ≡ null_tree ty (expression_of tree)) }
{
    match tree.into_inner() {
        Expr::Choice(test, _, one, other) => {
            let one = null_tree(one, alloc, ty)?;
            let other = null_tree(other, alloc, ty)?;
            chosen(alloc, test, ty, one, other)
        }
        other => {
            drop(other);
            constant(alloc, Constant::Null, ty)
        }
    }
}
