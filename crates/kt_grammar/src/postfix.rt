//! Postfix operators, each one deeper than the one before.

ghost use Rattle.std.specs.Prelude.{◌≡◌, ◌<◌, ◌≤◌, length, IfOk};
ghost use Rattle.kt_grammar.specs.Cursor.{Gives};
ghost use Rattle.kt_grammar.specs.Tree.{term_of};
ghost use Rattle.kt_grammar.specs.Reading.{deeper, more_at, postfix_at};
ghost use Rattle.kt_grammar.specs.Heads.{postfix_of, postfix_here, field_at, arrow_at, once_at};

use super::cursor::{behind, behind_first, name};
use super::fault::{Fault, beside};
use super::levels::deep;
use super::node::{element, member, pointed, stepped};
use super::operator::{Dialect, StepOperator};
use super::sign::Sign;
use super::sign_of::step_of;
use super::symbol::Symbol;
use super::tree::Expr;
use std::alloc::Global;

/// A postfix operator.
#[derive(Clone, Copy)]
pub(crate) enum PostfixOperator {
    Index,
    Field,
    Arrow,
    Step(StepOperator),
}

/// The postfix operator that a sign begins.
#[tactic(auto, unfolding(crate::specs::Heads::postfix_of))]
fn postfix_of(dialect: Dialect, sign: Sign) -> Option<PostfixOperator>
    ensures { result ≡ postfix_of dialect sign }
{
    if sign == Sign::OpenBracket {
        Some(PostfixOperator::Index)
    } else if sign == Sign::Dot {
        Some(PostfixOperator::Field)
    } else if sign == Sign::Arrow {
        Some(PostfixOperator::Arrow)
    } else {
        step_of(dialect, sign).map(PostfixOperator::Step)
    }
}

/// The postfix operator at the front.
#[tactic(auto, unfolding(crate::specs::Heads::postfix_here))]
fn postfix_here(dialect: Dialect, symbols: &[Symbol]) -> Option<PostfixOperator>
    ensures value { result ≡ postfix_here dialect symbols.now }
{
    match symbols {
        [Symbol::Sign(_, sign), ..] => postfix_of(dialect, *sign),
        _ => None,
    }
}

/// The postfix operators behind an expression.
#[cycle(expressions)]
pub(crate) fn postfix<'t>(
    alloc: Global,
    dialect: Dialect,
    depth: u32,
    x: Expr,
    symbols: &'t [Symbol],
) -> Result<(Expr, &'t [Symbol]), Fault>
    ensures read { Gives (λ x. (term_of x.0, x.1.now)) result (postfix_at dialect (deeper dialect depth) (term_of x) symbols.now) }
    ensures shorter { IfOk result (λ x. length x.1.now ≤ length symbols.now) }
{
    let mut x = x;
    let mut rest = symbols;
    let mut depth = depth;
    while let Some(operator) = postfix_here(dialect, rest) {
        let (y, after) = once(alloc, dialect, depth, operator, x, behind_first(rest))?;
        if depth == 0 {
            return last(dialect, y, after);
        }
        depth -= 1;
        x = y;
        rest = after;
    }
    Ok((x, rest))
}

/// An expression behind which a postfix operator would be too deep.
fn last<'t>(dialect: Dialect, x: Expr, symbols: &'t [Symbol]) -> Result<(Expr, &'t [Symbol]), Fault>
    ensures read { Gives (λ x. (term_of x.0, x.1.now)) result (more_at dialect None (term_of x) symbols.now) }
    ensures shorter { IfOk result (λ x. length x.1.now ≤ length symbols.now) }
{
    if postfix_here(dialect, symbols).is_some() {
        drop(x);
        Err(Fault::TooDeep(symbols.len()))
    } else {
        Ok((x, symbols))
    }
}

/// An expression with one postfix operator more, whose first symbol stands before these.
#[tactic(auto, unfolding(crate::specs::Heads::once_at))]
#[cycle(expressions)]
fn once<'t>(
    alloc: Global,
    dialect: Dialect,
    depth: u32,
    operator: PostfixOperator,
    x: Expr,
    symbols: &'t [Symbol],
) -> Result<(Expr, &'t [Symbol]), Fault>
    ensures read { Gives (λ x. (term_of x.0, x.1.now)) result (once_at dialect (deeper dialect depth) operator (term_of x) symbols.now) }
    ensures shorter { IfOk result (λ x. length x.1.now ≤ length symbols.now) }
{
    match operator {
        PostfixOperator::Index => {
            let (x, (index, rest)) = beside(x, deep(alloc, dialect, depth, 0, symbols))?;
            let ((x, index), rest) = beside((x, index), behind(Sign::CloseBracket, rest))?;
            let x = element(alloc, x, index)?;
            Ok((x, rest))
        }
        PostfixOperator::Field => field(alloc, x, symbols),
        PostfixOperator::Arrow => arrow(alloc, x, symbols),
        PostfixOperator::Step(operator) => {
            let x = stepped(alloc, x, operator)?;
            Ok((x, symbols))
        }
    }
}

/// A field of an expression.
#[tactic(auto, unfolding(crate::specs::Heads::field_at))]
fn field(alloc: Global, x: Expr, symbols: &[Symbol]) -> Result<(Expr, &[Symbol]), Fault>
    ensures read { Gives (λ y. (term_of y.0, y.1.now)) result (field_at (term_of x) symbols.now) }
    ensures shorter { IfOk result (λ x. length x.1.now ≤ length symbols.now) }
{
    let (x, (field, rest)) = beside(x, name(symbols))?;
    let x = member(alloc, x, field)?;
    Ok((x, rest))
}

/// A field of what an expression points to.
#[tactic(auto, unfolding(crate::specs::Heads::arrow_at))]
fn arrow(alloc: Global, x: Expr, symbols: &[Symbol]) -> Result<(Expr, &[Symbol]), Fault>
    ensures read { Gives (λ y. (term_of y.0, y.1.now)) result (arrow_at (term_of x) symbols.now) }
    ensures shorter { IfOk result (λ x. length x.1.now ≤ length symbols.now) }
{
    let (x, (field, rest)) = beside(x, name(symbols))?;
    let x = pointed(alloc, x, field)?;
    Ok((x, rest))
}
