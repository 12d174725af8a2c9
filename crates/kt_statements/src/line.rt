//! Typed statements, made of their parts.

ghost use Rattle.std.specs.Prelude.{◌≡◌, [], ◌∷◌, ◌++◌, map, IfOk, Some, None};
ghost use Rattle.std.specs.Option.{option_map};
ghost use Rattle.kt_tree.specs.Tree.{Compound, Done, Conditional, Evaluated, LocalSet, Looped, Repeated, Returned, expression_of, statement_of};
ghost use Rattle.kt_program.specs.Made.{as_one, block_of};

use kt_tree::{Expr, Stmt};
use sqlite_items::{Boxed, Items};
use std::alloc::{AllocError, Global};

/// A statement alone.
pub(crate) fn one(alloc: Global, s: Stmt) -> Result<Items<Stmt>, AllocError>
    ensures { IfOk result (λ xs. xs ≡ s ∷ []) }
{
    let mut all = Items::new(alloc);
    all.push(s)?;
    Ok(all)
}

/// Statements as one: a block, where it is not one statement alone.
#[tactic(auto, using(crate::proofs::Lines::lines))]
pub(crate) fn as_one(mut lines: Items<Stmt>) -> Stmt
    ensures { statement_of result ≡ as_one (map statement_of lines) }
{
    if lines.len() != 1 {
        return Stmt::block(lines);
    }
    match lines.pop() {
        Some(only) => only,
        None => Stmt::block(lines),
    }
}

/// A block of these statements.
#[tactic(auto, using(crate::proofs::Lines::lines))]
pub(crate) fn block(alloc: Global, lines: Items<Stmt>) -> Result<Items<Stmt>, AllocError>
    ensures { IfOk result (λ xs. map statement_of xs ≡ Compound (block_of (map statement_of lines)) ∷ []) }
{
    let whole = Stmt::block(lines);
    one(alloc, whole)
}

/// `e;`
pub(crate) fn evaluated(alloc: Global, e: Boxed<Expr>) -> Result<Items<Stmt>, AllocError>
    ensures { IfOk result (λ xs. map statement_of xs ≡ Evaluated (expression_of e) ∷ []) }
{
    one(alloc, Stmt::Expr(e.into_inner()))
}

/// A local takes its initial value.
pub(crate) fn set_local(alloc: Global, x: u32, e: Boxed<Expr>) -> Result<Items<Stmt>, AllocError>
    ensures { IfOk result (λ xs. map statement_of xs ≡ Evaluated (LocalSet x (expression_of e)) ∷ []) }
{
    let set = Expr::set_local(alloc, x, e.into_inner())?;
    one(alloc, Stmt::Expr(set))
}

/// `return e;`
pub(crate) fn returned(alloc: Global, e: Boxed<Expr>) -> Result<Items<Stmt>, AllocError>
    ensures { IfOk result (λ xs. map statement_of xs ≡ Returned (Some (expression_of e)) ∷ []) }
{
    one(alloc, Stmt::Return(Some(e.into_inner())))
}

/// `if (test) a`
pub(crate) fn if_alone(
    alloc: Global,
    test: Boxed<Expr>,
    a: Items<Stmt>,
) -> Result<Items<Stmt>, AllocError>
    ensures { IfOk result (λ xs. map statement_of xs ≡ Conditional (expression_of test) (as_one (map statement_of a)) (Compound Done) ∷ []) }
{
    let nothing = Stmt::block(Items::new(alloc));
    let whole = Stmt::if_else(alloc, test.into_inner(), as_one(a), nothing)?;
    one(alloc, whole)
}

/// `if (test) a else b`
pub(crate) fn if_else(
    alloc: Global,
    test: Boxed<Expr>,
    a: Items<Stmt>,
    b: Items<Stmt>,
) -> Result<Items<Stmt>, AllocError>
    ensures { IfOk result (λ xs. map statement_of xs ≡ Conditional (expression_of test) (as_one (map statement_of a)) (as_one (map statement_of b)) ∷ []) }
{
    let whole = Stmt::if_else(alloc, test.into_inner(), as_one(a), as_one(b))?;
    one(alloc, whole)
}

/// `while (test) a`
pub(crate) fn while_loop(
    alloc: Global,
    test: Boxed<Expr>,
    a: Items<Stmt>,
) -> Result<Items<Stmt>, AllocError>
    ensures { IfOk result (λ xs. map statement_of xs ≡ Looped (Some (expression_of test)) None (as_one (map statement_of a)) ∷ []) }
{
    let whole = Stmt::looped(alloc, Some(test.into_inner()), None, as_one(a))?;
    one(alloc, whole)
}

/// `do a while (test);`
pub(crate) fn repeated(
    alloc: Global,
    a: Items<Stmt>,
    test: Boxed<Expr>,
) -> Result<Items<Stmt>, AllocError>
    ensures { IfOk result (λ xs. map statement_of xs ≡ Repeated (as_one (map statement_of a)) (expression_of test) ∷ []) }
{
    let whole = Stmt::repeat(alloc, as_one(a), test.into_inner())?;
    one(alloc, whole)
}

// The expression out of its box, where there is one.
fn unboxed(e: Option<Boxed<Expr>>) -> Option<Expr>
    ensures { result ≡ e }
{
    match e {
        Some(e) => Some(e.into_inner()),
        None => None,
    }
}

/// What stands first in a `for`, its test and step where they are there, and its body.
pub(crate) type For = (
    Items<Stmt>,
    (Option<Boxed<Expr>>, (Option<Boxed<Expr>>, Items<Stmt>)),
);

/// A `for` as a block: what stands first, and the loop.
pub(crate) fn for_loop(alloc: Global, parts: For) -> Result<Items<Stmt>, AllocError>
    ensures { IfOk result (λ xs. map statement_of xs ≡ Compound (block_of (map statement_of parts.0 ++ Looped (option_map expression_of parts.1.0) (option_map expression_of parts.1.1.0) (as_one (map statement_of parts.1.1.1)) ∷ [])) ∷ []) }
{
    let (first, (test, (step, a))) = parts;
    let mut all = first;
    let whole = Stmt::looped(alloc, unboxed(test), unboxed(step), as_one(a))?;
    all.push(whole)?;
    block(alloc, all)
}
