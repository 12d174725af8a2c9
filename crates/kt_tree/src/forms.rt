//! Expressions and statements, made of their parts: each is the tree of its parts as plain data.
ghost use Rattle.std.specs.Prelude.{◌≡◌, IfOk};
ghost use Rattle.std.specs.Option.{option_map};
ghost use Rattle.kt_tree.specs.Tree.{expression_of, expressions_of, LocalSet, LocalSwapped, Operated, Requested, Modified, Both, Either, Chosen, Called, statement_of, statements_of, Compound, Conditional, Looped, Repeated};

use super::copies::both;
use super::expr::{Expr, Operation, Request};
use super::stmt::Stmt;
use sqlite_items::{Boxed, Items};
use std::alloc::{AllocError, Global};

impl Expr {
    /// The value, which the local takes.
    #[tactic(auto, using(crate::specs::Forms::set_form))]
    pub fn set_local(alloc: Global, local: u32, value: Expr) -> Result<Expr, AllocError>
        ensures { IfOk result (λ e. expression_of e ≡ LocalSet local (expression_of value)) }
    {
        Ok(Expr::SetLocal(local, Boxed::new(alloc, value)?))
    }

    /// The value that the local had, before it takes the new one.
    #[tactic(auto, using(crate::specs::Forms::swap_form))]
    pub fn swap_local(alloc: Global, local: u32, value: Expr) -> Result<Expr, AllocError>
        ensures { IfOk result (λ e. expression_of e ≡ LocalSwapped local (expression_of value)) }
    {
        Ok(Expr::SwapLocal(local, Boxed::new(alloc, value)?))
    }

    /// An operation, which gives a value of that type.
    #[tactic(auto, using(crate::specs::Forms::operands))]
    pub fn operation(operation: Operation, ty: u32, operands: Items<Expr>) -> Expr
        ensures { expression_of result ≡ Operated operation ty (expressions_of operands) }
    {
        Expr::Operation(operation, ty, operands)
    }

    /// A request, which gives a value of that type, or nothing.
    #[tactic(auto, using(crate::specs::Forms::operands))]
    pub fn request(request: Request, ty: Option<u32>, operands: Items<Expr>) -> Expr
        ensures { expression_of result ≡ Requested request ty (expressions_of operands) }
    {
        Expr::Request(request, ty, operands)
    }

    /// A change of the cell of type `ty` at a place, by an operation that gives a value of type `own`.
    #[tactic(auto, using(crate::specs::Forms::modify_form))]
    pub fn modify(
        alloc: Global,
        operation: Operation,
        own: u32,
        ty: u32,
        old: bool,
        place: Expr,
        operand: Expr,
    ) -> Result<Expr, AllocError>
        ensures { IfOk result (λ e. expression_of e ≡ Modified operation own ty old (expression_of place) (expression_of operand)) }
    {
        let (place, operand) = both(boxed(alloc, place), boxed(alloc, operand))?;
        Ok(Expr::Modify(operation, own, ty, old, place, operand))
    }

    /// `a && b`
    #[tactic(auto, using(crate::specs::Forms::and_form))]
    pub fn and(alloc: Global, a: Expr, b: Expr) -> Result<Expr, AllocError>
        ensures { IfOk result (λ e. expression_of e ≡ Both (expression_of a) (expression_of b)) }
    {
        let (a, b) = both(boxed(alloc, a), boxed(alloc, b))?;
        Ok(Expr::And(a, b))
    }

    /// `a || b`
    #[tactic(auto, using(crate::specs::Forms::or_form))]
    pub fn or(alloc: Global, a: Expr, b: Expr) -> Result<Expr, AllocError>
        ensures { IfOk result (λ e. expression_of e ≡ Either (expression_of a) (expression_of b)) }
    {
        let (a, b) = both(boxed(alloc, a), boxed(alloc, b))?;
        Ok(Expr::Or(a, b))
    }

    /// `test ? a : b`, of that type.
    #[tactic(auto, using(crate::specs::Forms::choice_form))]
    pub fn choice(alloc: Global, test: Expr, ty: u32, a: Expr, b: Expr) -> Result<Expr, AllocError>
        ensures { IfOk result (λ e. expression_of e ≡ Chosen (expression_of test) ty (expression_of a) (expression_of b)) }
    {
        let (test, (a, b)) = both(boxed(alloc, test), both(boxed(alloc, a), boxed(alloc, b)))?;
        Ok(Expr::Choice(test, ty, a, b))
    }

    /// A call of the function of that number.
    #[tactic(auto, using(crate::specs::Forms::operands))]
    pub fn call(function: u32, arguments: Items<Expr>) -> Expr
        ensures { expression_of result ≡ Called function (expressions_of arguments) }
    {
        Expr::Call(function, arguments)
    }
}

impl Stmt {
    /// A block.
    #[tactic(auto, using(crate::specs::Forms::block))]
    pub fn block(statements: Items<Stmt>) -> Stmt
        ensures { statement_of result ≡ Compound (statements_of statements) }
    {
        Stmt::Block(statements)
    }

    /// `if (test) a else b`
    #[tactic(auto, using(crate::specs::Forms::if_form))]
    pub fn if_else(alloc: Global, test: Expr, a: Stmt, b: Stmt) -> Result<Stmt, AllocError>
        ensures { IfOk result (λ s. statement_of s ≡ Conditional (expression_of test) (statement_of a) (statement_of b)) }
    {
        let (test, (a, b)) = both(Ok(test), both(boxed(alloc, a), boxed(alloc, b)))?;
        Ok(Stmt::If(test, a, b))
    }

    /// A loop that tests before each body, and evaluates `step` after each.
    #[tactic(auto, using(crate::specs::Forms::loop_form))]
    pub fn looped(
        alloc: Global,
        test: Option<Expr>,
        step: Option<Expr>,
        body: Stmt,
    ) -> Result<Stmt, AllocError>
        ensures { IfOk result (λ s. statement_of s ≡ Looped (option_map expression_of test) (option_map expression_of step) (statement_of body)) }
    {
        let ((test, step), body) = both(Ok((test, step)), boxed(alloc, body))?;
        Ok(Stmt::Loop(test, step, body))
    }

    /// `do body while (test);`
    #[tactic(auto, using(crate::specs::Forms::repeat_form))]
    pub fn repeat(alloc: Global, body: Stmt, test: Expr) -> Result<Stmt, AllocError>
        ensures { IfOk result (λ s. statement_of s ≡ Repeated (statement_of body) (expression_of test)) }
    {
        let (body, test) = both(boxed(alloc, body), Ok(test))?;
        Ok(Stmt::Repeat(body, test))
    }
}

// The value in a box. Where there is no memory, it is let go here, and not by each caller.
fn boxed<T: Drop>(alloc: Global, x: T) -> Result<Boxed<T>, AllocError>
    ensures { IfOk result (λ b. b ≡ x) }
{
    match Boxed::new(alloc, x) {
        Ok(b) => Ok(b),
        Err(_) => Err(AllocError),
    }
}
