//! Statements made of their parts.

ghost use Rattle.std.specs.Prelude.{◌≡◌, map};
ghost use Rattle.std.specs.Option.{option_map};
ghost use Rattle.kt_grammar.specs.Tree.{term_of};
ghost use Rattle.kt_syntax.specs.Tree.{statement_of, statements_of, start_of, Compound, Conditional, Alternative, Looped, Repeated, Counted};

use super::tree::{ForStart, Stmt};
use kt_grammar::Expr;
use sqlite_items::{Boxed, Items};

#[tactic(auto, using(crate::proofs::Nodes::nodes))]
pub(crate) fn compound(entries: Items<Stmt>) -> Stmt
    ensures { statement_of result ≡ Compound (statements_of (map statement_of entries)) }
{
    Stmt::Block(entries)
}

#[tactic(auto, using(crate::proofs::Nodes::nodes))]
pub(crate) fn conditional(test: Expr, body: Boxed<Stmt>) -> Stmt
    ensures { statement_of result ≡ Conditional (term_of test) (statement_of body) }
{
    Stmt::If(test, body)
}

#[tactic(auto, using(crate::proofs::Nodes::nodes))]
pub(crate) fn alternative(test: Expr, body: Boxed<Stmt>, other: Boxed<Stmt>) -> Stmt
    ensures { statement_of result ≡ Alternative (term_of test) (statement_of body) (statement_of other) }
{
    Stmt::IfElse(test, body, other)
}

#[tactic(auto, using(crate::proofs::Nodes::nodes))]
pub(crate) fn looped(test: Expr, body: Boxed<Stmt>) -> Stmt
    ensures { statement_of result ≡ Looped (term_of test) (statement_of body) }
{
    Stmt::While(test, body)
}

#[tactic(auto, using(crate::proofs::Nodes::nodes))]
pub(crate) fn repeated(body: Boxed<Stmt>, test: Expr) -> Stmt
    ensures { statement_of result ≡ Repeated (statement_of body) (term_of test) }
{
    Stmt::Do(body, test)
}

#[tactic(auto, using(crate::proofs::Nodes::nodes))]
pub(crate) fn counted(
    start: ForStart,
    test: Option<Expr>,
    step: Option<Expr>,
    body: Boxed<Stmt>,
) -> Stmt
    ensures { statement_of result ≡ Counted (start_of start) (option_map term_of test) (option_map term_of step) (statement_of body) }
{
    Stmt::For(start, test, step, body)
}
