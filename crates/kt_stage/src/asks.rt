//! Whether a tree asks for another thread, or for a lock.
ghost use Rattle.std.specs.Prelude.{◌≡◌};
ghost use Rattle.std.specs.Option.{option_map};
ghost use Rattle.kt_tree.specs.Tree.{expression_of, expressions_of, statement_of, statements_of};
ghost use Rattle.kt_stage.specs.Stage.{is_threaded, expression_asks, expressions_ask, optional_asks, statement_asks, statements_ask};

use kt_tree::{Expr, Request, Stmt};
use sqlite_items::{Boxed, Items};

fn is_threaded(request: &Request) -> bool
    ensures { result ≡ is_threaded request.now }
{
    match request {
        Request::Create(_) => true,
        Request::Join => true,
        Request::Lock => true,
        Request::Unlock => true,
        Request::InitMutex => true,
        Request::Load => false,
        Request::Store => false,
        Request::Allocate(_, _) => false,
        Request::Release => false,
        Request::GetChar => false,
        Request::PutChar => false,
        Request::Puts => false,
        Request::Print(_) => false,
        Request::Point(_) => false,
        Request::IsUpdating => false,
        Request::IsUpdatingFrom(_) => false,
        Request::Automigrate => false,
        Request::MigrateLocal(_) => false,
    }
}

#[cycle(asks)]
#[tactic(auto, using(crate::proofs::Asking::asking))]
fn expression_asks(expr: &Expr) -> bool
    ensures { result ≡ expression_asks is_threaded (expression_of expr.now) }
{
    match expr {
        Expr::Constant(_, _) => false,
        Expr::Local(_) => false,
        Expr::SetLocal(_, value) => boxed_asks(value),
        Expr::SwapLocal(_, value) => boxed_asks(value),
        Expr::Operation(_, _, operands) => operands_ask(operands),
        Expr::Request(request, _, operands) => is_threaded(request) || operands_ask(operands),
        Expr::Modify(_, _, _, _, place, operand) => boxed_asks(place) || boxed_asks(operand),
        Expr::And(a, b) => boxed_asks(a) || boxed_asks(b),
        Expr::Or(a, b) => boxed_asks(a) || boxed_asks(b),
        Expr::Choice(test, _, a, b) => boxed_asks(test) || (boxed_asks(a) || boxed_asks(b)),
        Expr::Call(_, arguments) => operands_ask(arguments),
    }
}

#[cycle(asks)]
fn boxed_asks(expr: &Boxed<Expr>) -> bool
    ensures { result ≡ expression_asks is_threaded (expression_of expr.now) }
{
    expression_asks(expr.get())
}

#[cycle(asks)]
fn operands_ask(operands: &Items<Expr>) -> bool
    ensures { result ≡ expressions_ask is_threaded (expressions_of operands.now) }
{
    let operands = operands.as_slice();
    for operand in operands {
        if expression_asks(operand) {
            return true;
        }
    }
    false
}

fn optional_asks(expr: &Option<Expr>) -> bool
    ensures { result ≡ optional_asks is_threaded (option_map expression_of expr.now) }
{
    match expr {
        Some(expr) => expression_asks(expr),
        None => false,
    }
}

/// Whether the statement asks for another thread, or for a lock.
#[cycle(statements)]
#[tactic(auto, using(crate::proofs::Asking::asking))]
pub fn statement_asks(stmt: &Stmt) -> bool
    ensures { result ≡ statement_asks is_threaded (statement_of stmt.now) }
{
    match stmt {
        Stmt::Expr(expr) => expression_asks(expr),
        Stmt::Undefine(_) => false,
        Stmt::Block(block) => block_asks(block),
        Stmt::If(test, then, other) => {
            expression_asks(test) || (boxed_statement_asks(then) || boxed_statement_asks(other))
        }
        Stmt::Loop(test, step, body) => {
            optional_asks(test) || (optional_asks(step) || boxed_statement_asks(body))
        }
        Stmt::Repeat(body, test) => boxed_statement_asks(body) || expression_asks(test),
        Stmt::Return(value) => optional_asks(value),
        Stmt::Break => false,
        Stmt::Continue => false,
    }
}

#[cycle(statements)]
fn boxed_statement_asks(stmt: &Boxed<Stmt>) -> bool
    ensures { result ≡ statement_asks is_threaded (statement_of stmt.now) }
{
    statement_asks(stmt.get())
}

#[cycle(statements)]
fn block_asks(block: &Items<Stmt>) -> bool
    ensures { result ≡ statements_ask is_threaded (statements_of block.now) }
{
    let block = block.as_slice();
    for stmt in block {
        if statement_asks(stmt) {
            return true;
        }
    }
    false
}
