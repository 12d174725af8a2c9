//! Expressions at the front of the symbols (ISO/IEC 9899:2011, 6.5). `depth` is how many more constructs may be opened.

ghost use Rattle.std.specs.Prelude.{◌≡◌, ◌<◌, ◌≤◌, length, IfOk, ◌||◌, if◌then◌else◌};
ghost use Rattle.std.specs.Option.{is_some};
ghost use Rattle.kt_grammar.specs.Signs.{same_sign, prefix_of};
ghost use Rattle.kt_grammar.specs.Cursor.{Gives};
ghost use Rattle.kt_grammar.specs.Tree.{term_of};
ghost use Rattle.kt_grammar.specs.Reading.{begins_expr, binary_here, assign_here, deeper, deep_level, chain_at, choice_at, assignment_at, tail_at, level_at, expr_at};

use super::cursor::{begins_sign, behind, behind_first};
use super::fault::{Fault, beside};
use super::keyword::Keyword;
use super::node::{assigned, chosen, operated};
use super::operator::{AssignOperator, BinaryOperator, Dialect};
use super::sign::Sign;
use super::sign_of::{assign_of, binary_of, precedence, prefix_of};
use super::symbol::Symbol;
use super::tree::Expr;
use super::unary::unary;
use std::alloc::Global;

/// Whether an expression begins with the first symbol.
#[tactic(auto, unfolding(crate::specs::Reading::begins_expr))]
pub fn begins_expr(dialect: Dialect, symbols: &[Symbol]) -> bool
    ensures { result ≡ begins_expr dialect symbols.now }
{
    match symbols {
        [first, ..] => match first {
            Symbol::Name(_, _) | Symbol::Number(_, _) | Symbol::Character(_, _) => true,
            Symbol::Keyword(_, Keyword::Null | Keyword::Eof) => true,
            Symbol::Keyword(_, Keyword::SizeOf) | Symbol::Text(_, _) => dialect.is_c(),
            Symbol::Keyword(_, _) | Symbol::Other(_) => false,
            Symbol::RuleWord(_, _) => !dialect.is_c(),
            Symbol::Sign(_, sign) => begins_unary(dialect, *sign),
        },
        [] => false,
    }
}

/// Why a construct is not read that would be opened one too deep.
pub fn stuck(dialect: Dialect, symbols: &[Symbol]) -> Fault
    ensures { result ≡ (if begins_expr dialect symbols.now then Fault.TooDeep (length symbols.now) else Fault.Syntax (length symbols.now)) }
{
    if begins_expr(dialect, symbols) {
        Fault::TooDeep(symbols.len())
    } else {
        Fault::Syntax(symbols.len())
    }
}

/// An expression.
#[tactic(auto, unfolding(crate::specs::Reading::expr_at))]
pub fn expr<'t>(
    alloc: Global,
    dialect: Dialect,
    depth: u32,
    symbols: &'t [Symbol],
) -> Result<(Expr, &'t [Symbol]), Fault>
    ensures read { Gives (λ x. (term_of x.0, x.1.now)) result (expr_at dialect depth symbols.now) }
    ensures shorter { IfOk result (λ x. length x.1.now < length symbols.now) }
{
    level(alloc, dialect, depth, 0, symbols)
}

/// An expression of at least a level, one deeper.
#[cycle(expressions)]
pub(crate) fn deep<'t>(
    alloc: Global,
    dialect: Dialect,
    depth: u32,
    least: u8,
    symbols: &'t [Symbol],
) -> Result<(Expr, &'t [Symbol]), Fault>
    ensures read { Gives (λ x. (term_of x.0, x.1.now)) result (deep_level dialect (deeper dialect depth) least symbols.now) }
    ensures shorter { IfOk result (λ x. length x.1.now < length symbols.now) }
{
    if depth == 0 {
        return Err(stuck(dialect, symbols));
    }
    level(alloc, dialect, depth - 1, least, symbols)
}

/// An expression of at least a level, the tightest operators first.
#[cycle(expressions)]
pub(crate) fn level<'t>(
    alloc: Global,
    dialect: Dialect,
    depth: u32,
    least: u8,
    symbols: &'t [Symbol],
) -> Result<(Expr, &'t [Symbol]), Fault>
    ensures read { Gives (λ x. (term_of x.0, x.1.now)) result (level_at dialect (deeper dialect depth) least symbols.now) }
    ensures shorter { IfOk result (λ x. length x.1.now < length symbols.now) }
{
    let (mut x, mut rest) = unary(alloc, dialect, depth, symbols)?;
    let mut above: u8 = 8;
    while least < above {
        above -= 1;
        let (y, after) = tail(alloc, dialect, depth, above, x, rest)?;
        x = y;
        rest = after;
    }
    Ok((x, rest))
}

/// What goes on at a level behind an expression of a higher one.
#[cycle(expressions)]
fn tail<'t>(
    alloc: Global,
    dialect: Dialect,
    depth: u32,
    level: u8,
    x: Expr,
    symbols: &'t [Symbol],
) -> Result<(Expr, &'t [Symbol]), Fault>
    requires { level < 8 }
    ensures read { Gives (λ x. (term_of x.0, x.1.now)) result (tail_at dialect (deeper dialect depth) level (term_of x) symbols.now) }
    ensures shorter { IfOk result (λ x. length x.1.now ≤ length symbols.now) }
{
    match level {
        0 => assignment(alloc, dialect, depth, x, symbols),
        1 => choice(alloc, dialect, depth, x, symbols),
        _ => chain(alloc, dialect, depth, level, x, symbols),
    }
}

#[tactic(auto, unfolding(crate::specs::Reading::assignment_at))]
#[cycle(expressions)]
fn assignment<'t>(
    alloc: Global,
    dialect: Dialect,
    depth: u32,
    x: Expr,
    symbols: &'t [Symbol],
) -> Result<(Expr, &'t [Symbol]), Fault>
    ensures read { Gives (λ x. (term_of x.0, x.1.now)) result (assignment_at dialect (deeper dialect depth) (term_of x) symbols.now) }
    ensures shorter { IfOk result (λ x. length x.1.now ≤ length symbols.now) }
{
    match assign_here(dialect, symbols) {
        None => Ok((x, symbols)),
        Some(operator) => {
            let right = behind_first(symbols);
            let (x, (y, rest)) = beside(x, deep(alloc, dialect, depth, 0, right))?;
            let x = assigned(alloc, operator, x, y)?;
            Ok((x, rest))
        }
    }
}

#[tactic(auto, unfolding(crate::specs::Reading::choice_at))]
#[cycle(expressions)]
fn choice<'t>(
    alloc: Global,
    dialect: Dialect,
    depth: u32,
    x: Expr,
    symbols: &'t [Symbol],
) -> Result<(Expr, &'t [Symbol]), Fault>
    ensures read { Gives (λ x. (term_of x.0, x.1.now)) result (choice_at dialect (deeper dialect depth) (term_of x) symbols.now) }
    ensures shorter { IfOk result (λ x. length x.1.now ≤ length symbols.now) }
{
    if !begins_sign(Sign::Question, symbols) {
        return Ok((x, symbols));
    }
    let inner = behind_first(symbols);
    let (x, (a, rest)) = beside(x, deep(alloc, dialect, depth, 0, inner))?;
    let (read, rest) = beside((x, a), behind(Sign::Colon, rest))?;
    let ((x, a), (b, rest)) = beside(read, deep(alloc, dialect, depth, 1, rest))?;
    let x = chosen(alloc, x, a, b)?;
    Ok((x, rest))
}

/// Binary operators of a level and their right operands, each operator one deeper than the one before.
#[cycle(expressions)]
fn chain<'t>(
    alloc: Global,
    dialect: Dialect,
    depth: u32,
    level_of: u8,
    x: Expr,
    symbols: &'t [Symbol],
) -> Result<(Expr, &'t [Symbol]), Fault>
    requires { level_of < 8 }
    ensures read { Gives (λ x. (term_of x.0, x.1.now)) result (chain_at dialect (deeper dialect depth) level_of (term_of x) symbols.now) }
    ensures shorter { IfOk result (λ x. length x.1.now ≤ length symbols.now) }
{
    let mut x = x;
    let mut rest = symbols;
    let mut depth = depth;
    while let Some(operator) = binary_here(level_of, rest) {
        let right = behind_first(rest);
        if depth == 0 {
            drop(x);
            return Err(stuck(dialect, right));
        }
        depth -= 1;
        let (left, (y, after)) = beside(x, level(alloc, dialect, depth, level_of + 1, right))?;
        x = operated(alloc, operator, left, y)?;
        rest = after;
    }
    Ok((x, rest))
}

/// The assignment operator at the front.
#[tactic(auto, unfolding(crate::specs::Reading::assign_here))]
fn assign_here(dialect: Dialect, symbols: &[Symbol]) -> Option<AssignOperator>
    ensures { result ≡ assign_here dialect symbols.now }
{
    match symbols {
        [Symbol::Sign(_, sign), ..] => assign_of(dialect, *sign),
        _ => None,
    }
}

/// The binary operator of a level at the front.
#[tactic(auto, unfolding(crate::specs::Reading::binary_here))]
fn binary_here(level: u8, symbols: &[Symbol]) -> Option<BinaryOperator>
    ensures { result ≡ binary_here level symbols.now }
{
    match symbols {
        [Symbol::Sign(_, sign), ..] => binary_of(*sign).filter(|operator| precedence(*operator)
            == level),
        _ => None,
    }
}

fn begins_unary(dialect: Dialect, sign: Sign) -> bool
    ensures { result ≡ (same_sign sign Sign.OpenParenthesis || is_some (prefix_of dialect sign)) }
{
    sign == Sign::OpenParenthesis || prefix_of(dialect, sign).is_some()
}
