//! Copies of trees.
ghost use Rattle.std.specs.Prelude.{◌≡◌, Ok, IfOk};

use super::expr::{Expr, Part, Request};
use super::function::Fun;
use super::lists::Functions;
use super::stmt::Stmt;
use sqlite_items::{Boxed, Items};
use std::alloc::{AllocError, Global};

/// A copy of a part of a format.
fn copy_part(alloc: Global, part: &Part) -> Result<Part, AllocError>
    ensures { IfOk result (λ p. p ≡ part.now) }
{
    match part {
        Part::Bytes(bytes) => Ok(Part::Bytes(Items::from_slice(alloc, bytes.as_slice())?)),
        Part::Number => Ok(Part::Number),
        Part::Byte => Ok(Part::Byte),
        Part::Text => Ok(Part::Text),
    }
}

fn copy_parts(alloc: Global, parts: &[Part]) -> Result<Items<Part>, AllocError>
    ensures { IfOk result (λ ps. ps ≡ parts.now) }
{
    let mut copies = Items::new(alloc);
    for part in parts {
        copies.push(copy_part(alloc, part)?)?;
    }
    Ok(copies)
}

fn copy_request(alloc: Global, request: &Request) -> Result<Request, AllocError>
    ensures { IfOk result (λ r. r ≡ request.now) }
{
    match request {
        Request::Load => Ok(Request::Load),
        Request::Store => Ok(Request::Store),
        Request::Allocate(element, zeros) => Ok(Request::Allocate(*element, *zeros)),
        Request::Release => Ok(Request::Release),
        Request::Lock => Ok(Request::Lock),
        Request::Unlock => Ok(Request::Unlock),
        Request::InitMutex => Ok(Request::InitMutex),
        Request::GetChar => Ok(Request::GetChar),
        Request::PutChar => Ok(Request::PutChar),
        Request::Puts => Ok(Request::Puts),
        Request::Print(parts) => Ok(Request::Print(copy_parts(alloc, parts.as_slice())?)),
        Request::Create(function) => Ok(Request::Create(*function)),
        Request::Join => Ok(Request::Join),
        Request::Point(point) => Ok(Request::Point(*point)),
        Request::IsUpdating => Ok(Request::IsUpdating),
        Request::IsUpdatingFrom(point) => Ok(Request::IsUpdatingFrom(*point)),
        Request::Automigrate => Ok(Request::Automigrate),
        Request::MigrateLocal(local) => Ok(Request::MigrateLocal(*local)),
    }
}

/// A copy of an expression.
#[cycle(exprs)]
pub fn copy_expr(expr: &Expr, alloc: Global) -> Result<Expr, AllocError>
    ensures { IfOk result (λ e. e ≡ expr.now) }
{
    match expr {
        Expr::Constant(value, ty) => Ok(Expr::Constant(*value, *ty)),
        Expr::Local(local) => Ok(Expr::Local(*local)),
        Expr::SetLocal(local, value) => Ok(Expr::SetLocal(*local, copy_boxed(value, alloc)?)),
        Expr::SwapLocal(local, value) => Ok(Expr::SwapLocal(*local, copy_boxed(value, alloc)?)),
        Expr::Operation(operation, ty, operands) => {
            Ok(Expr::Operation(*operation, *ty, copy_exprs(operands, alloc)?))
        }
        Expr::Request(request, ty, operands) => {
            let (request, operands) = both(
                copy_request(alloc, request),
                copy_exprs(operands, alloc),
            )?;
            Ok(Expr::Request(request, *ty, operands))
        }
        Expr::Modify(operation, own, ty, old, place, operand) => {
            let (place, operand) = both(copy_boxed(place, alloc), copy_boxed(operand, alloc))?;
            Ok(Expr::Modify(*operation, *own, *ty, *old, place, operand))
        }
        Expr::And(a, b) => {
            let (a, b) = both(copy_boxed(a, alloc), copy_boxed(b, alloc))?;
            Ok(Expr::And(a, b))
        }
        Expr::Or(a, b) => {
            let (a, b) = both(copy_boxed(a, alloc), copy_boxed(b, alloc))?;
            Ok(Expr::Or(a, b))
        }
        Expr::Choice(test, ty, a, b) => {
            let (a, b) = both(copy_boxed(a, alloc), copy_boxed(b, alloc))?;
            let test = copy_boxed(test, alloc);
            let (test, (a, b)) = both(test, Ok((a, b)))?;
            Ok(Expr::Choice(test, *ty, a, b))
        }
        Expr::Call(function, arguments) => Ok(Expr::Call(*function, copy_exprs(arguments, alloc)?)),
    }
}

// Two copies, where both were made.
pub(crate) fn both<A: Drop, B: Drop>(
    a: Result<A, AllocError>,
    b: Result<B, AllocError>,
) -> Result<(A, B), AllocError>
    ensures { IfOk result (λ p. (a ≡ Ok p.0) × (b ≡ Ok p.1)) }
{
    match (a, b) {
        (Ok(a), Ok(b)) => Ok((a, b)),
        _ => Err(AllocError),
    }
}

#[cycle(exprs)]
fn copy_boxed(expr: &Boxed<Expr>, alloc: Global) -> Result<Boxed<Expr>, AllocError>
    ensures { IfOk result (λ e. e ≡ expr.now) }
{
    Boxed::new(alloc, copy_expr(expr.get(), alloc)?)
}

#[cycle(exprs)]
fn copy_exprs(exprs: &Items<Expr>, alloc: Global) -> Result<Items<Expr>, AllocError>
    ensures { IfOk result (λ es. es ≡ exprs.now) }
{
    let mut copies = Items::new(alloc);
    for expr in exprs.as_slice() {
        copies.push(copy_expr(expr, alloc)?)?;
    }
    Ok(copies)
}

fn copy_if_some(expr: &Option<Expr>, alloc: Global) -> Result<Option<Expr>, AllocError>
    ensures { IfOk result (λ e. e ≡ expr.now) }
{
    match expr {
        Some(expr) => Ok(Some(copy_expr(expr, alloc)?)),
        None => Ok(None),
    }
}

/// A copy of a statement.
#[cycle(stmts)]
pub fn copy_stmt(stmt: &Stmt, alloc: Global) -> Result<Stmt, AllocError>
    ensures { IfOk result (λ s. s ≡ stmt.now) }
{
    match stmt {
        Stmt::Expr(expr) => Ok(Stmt::Expr(copy_expr(expr, alloc)?)),
        Stmt::Undefine(local) => Ok(Stmt::Undefine(*local)),
        Stmt::Block(block) => Ok(Stmt::Block(copy_stmts(block, alloc)?)),
        Stmt::If(test, then, other) => {
            let (test, (then, other)) = both(
                copy_expr(test, alloc),
                both(copy_boxed_stmt(then, alloc), copy_boxed_stmt(other, alloc)),
            )?;
            Ok(Stmt::If(test, then, other))
        }
        Stmt::Loop(test, step, body) => {
            let ((test, step), body) = both(
                both(copy_if_some(test, alloc), copy_if_some(step, alloc)),
                copy_boxed_stmt(body, alloc),
            )?;
            Ok(Stmt::Loop(test, step, body))
        }
        Stmt::Repeat(body, test) => {
            let (body, test) = both(copy_boxed_stmt(body, alloc), copy_expr(test, alloc))?;
            Ok(Stmt::Repeat(body, test))
        }
        Stmt::Return(value) => Ok(Stmt::Return(copy_if_some(value, alloc)?)),
        Stmt::Break => Ok(Stmt::Break),
        Stmt::Continue => Ok(Stmt::Continue),
    }
}

#[cycle(stmts)]
fn copy_boxed_stmt(stmt: &Boxed<Stmt>, alloc: Global) -> Result<Boxed<Stmt>, AllocError>
    ensures { IfOk result (λ s. s ≡ stmt.now) }
{
    Boxed::new(alloc, copy_stmt(stmt.get(), alloc)?)
}

#[cycle(stmts)]
fn copy_stmts(stmts: &Items<Stmt>, alloc: Global) -> Result<Items<Stmt>, AllocError>
    ensures { IfOk result (λ ss. ss ≡ stmts.now) }
{
    let mut copies = Items::new(alloc);
    for stmt in stmts.as_slice() {
        copies.push(copy_stmt(stmt, alloc)?)?;
    }
    Ok(copies)
}

fn copy_function(function: &Fun, alloc: Global) -> Result<Fun, AllocError>
    ensures { IfOk result (λ f. f ≡ function.now) }
{
    let name = function.name.clone()?;
    let locals = function.locals.clone()?;
    let body = copy_stmt(&function.body, alloc)?;
    Ok(Fun {
        name,
        result: function.result,
        params: function.params,
        noted: function.noted,
        locals,
        body,
    })
}

/// A copy of functions.
pub fn copy_functions(functions: &[Fun], alloc: Global) -> Result<Functions, AllocError>
    ensures { IfOk result (λ fs. fs ≡ functions.now) }
{
    let mut copies = Vec::new(alloc);
    for function in functions {
        copies.push(copy_function(function, alloc)?)?;
    }
    Ok(Functions::from_vec(copies))
}
