use super::expr::Expr;
use sqlite_items::{Boxed, Items};

/// A typed statement (ISO/IEC 9899:2011, 6.8).
#[derive(Drop)]
pub enum Stmt {
    Expr(Expr),
    /// The local of that number is undefined from here on: its declaration without an initialiser is reached.
    Undefine(u32),
    Block(Items<Stmt>),
    If(Expr, Boxed<Stmt>, Boxed<Stmt>),
    /// `while`, and `for` behind its first part: a test (a missing one counts as not zero), what is evaluated after each
    /// body, and the body.
    Loop(Option<Expr>, Option<Expr>, Boxed<Stmt>),
    /// `do`
    Repeat(Boxed<Stmt>, Expr),
    Return(Option<Expr>),
    Break,
    Continue,
}
