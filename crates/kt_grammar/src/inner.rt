//! Expressions one deeper, and in parentheses.

ghost use Rattle.std.specs.Prelude.{◌≡◌, ◌<◌, length, if◌then◌else◌, IfOk, IfSome};
ghost use Rattle.std.specs.Option.{option_map};
ghost use Rattle.kt_grammar.specs.Cursor.{Gives};
ghost use Rattle.kt_grammar.specs.Tree.{term_of};
ghost use Rattle.kt_grammar.specs.Conditions.{deep_expr_at, condition_at, behind_else};

use super::cursor::behind;
use super::fault::{Fault, beside};
use super::keyword::Keyword;
use super::levels::{begins_expr, expr};
use super::operator::Dialect;
use super::sign::Sign;
use super::symbol::Symbol;
use super::tree::Expr;
use std::alloc::Global;

/// What is told where nothing more may be opened: a symbol that could begin here is too deep.
pub fn refusal(begins: bool, symbols: &[Symbol]) -> Fault
    ensures { result ≡ if begins then Fault.TooDeep (length symbols.now) else Fault.Syntax (length symbols.now) }
{
    if begins {
        Fault::TooDeep(symbols.len())
    } else {
        Fault::Syntax(symbols.len())
    }
}

/// An expression, one deeper.
#[tactic(auto, using(crate::proofs::Deeper::deeper))]
pub fn deep_expr(
    alloc: Global,
    dialect: Dialect,
    depth: u32,
    symbols: &[Symbol],
) -> Result<(Expr, &[Symbol]), Fault>
    ensures read { Gives (λ x. (term_of x.0, x.1.now)) result (deep_expr_at dialect depth symbols.now) }
    ensures shorter { IfOk result (λ x. length x.1.now < length symbols.now) }
{
    if depth == 0 {
        return Err(refusal(begins_expr(dialect, symbols), symbols));
    }
    expr(alloc, dialect, depth - 1, symbols)
}

/// An expression in parentheses.
#[tactic(auto, unfolding(crate::specs::Conditions::condition_at))]
pub fn condition(
    alloc: Global,
    dialect: Dialect,
    depth: u32,
    symbols: &[Symbol],
) -> Result<(Expr, &[Symbol]), Fault>
    ensures read { Gives (λ x. (term_of x.0, x.1.now)) result (condition_at dialect depth symbols.now) }
    ensures shorter { IfOk result (λ x. length x.1.now < length symbols.now) }
{
    let inner = behind(Sign::OpenParenthesis, symbols)?;
    let (test, rest) = deep_expr(alloc, dialect, depth, inner)?;
    let (test, rest) = beside(test, behind(Sign::CloseParenthesis, rest))?;
    Ok((test, rest))
}

/// The symbols behind an `else`, where it stands.
#[tactic(auto, unfolding(crate::specs::Conditions::behind_else))]
pub fn behind_else(symbols: &[Symbol]) -> Option<&[Symbol]>
    ensures read { option_map (λ x. x.now) result ≡ behind_else symbols.now }
    ensures shorter { IfSome result (λ x. length x.now < length symbols.now) }
{
    match symbols {
        [Symbol::Keyword(_, Keyword::Else), rest @ ..] => Some(rest),
        _ => None,
    }
}
