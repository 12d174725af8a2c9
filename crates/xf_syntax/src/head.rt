//! What an act begins with, and assignments.

ghost use Rattle.std.specs.Prelude.{◌≡◌, ◌<◌, length, IfOk};
ghost use Rattle.kt_grammar.specs.Cursor.{Gives};
ghost use Rattle.xf_syntax.specs.Tree.{action_of};
ghost use Rattle.xf_syntax.specs.Reading.{begins_if, begins_act, assigned_at, sign_place, sign_at};

use super::tree::Act;
use kt_grammar::{
    Dialect, Fault, Keyword, Sign, Symbol, begins_expr, begins_sign, behind, behind_first, beside,
    deep_expr, expr,
};
use std::alloc::Global;

#[tactic(auto, unfolding(crate::specs::Reading::begins_if))]
fn begins_if(symbols: &[Symbol]) -> bool
    ensures { result ≡ begins_if symbols.now }
{
    matches!(symbols, [Symbol::Keyword(_, Keyword::If), ..])
}

/// Whether an act begins with the first symbol.
pub(crate) fn begins_act(symbols: &[Symbol]) -> bool
    ensures { result ≡ begins_act symbols.now }
{
    begins_sign(Sign::OpenBrace, symbols)
        || begins_sign(Sign::Semicolon, symbols)
        || begins_if(symbols)
        || begins_expr(Dialect::Rules, symbols)
}

/// An assignment.
#[tactic(auto, unfolding(crate::specs::Reading::assigned_at))]
pub(crate) fn assigned(
    alloc: Global,
    depth: u32,
    symbols: &[Symbol],
) -> Result<(Act, &[Symbol]), Fault>
    ensures read { Gives (λ x. (action_of x.0, x.1.now)) result (assigned_at depth symbols.now) }
    ensures shorter { IfOk result (λ x. length x.1.now < length symbols.now) }
{
    let (left, rest) = expr(alloc, Dialect::Rules, depth, symbols)?;
    let (left, rest) = beside(left, behind(Sign::Assign, rest))?;
    let (left, (value, rest)) = beside(left, deep_expr(alloc, Dialect::Rules, depth, rest))?;
    let ((left, value), rest) = beside((left, value), behind(Sign::Semicolon, rest))?;
    Ok((Act::Assign(left, value), rest))
}

/// A sign's place, and the symbols behind it.
#[tactic(auto, using(crate::proofs::Signs::signs))]
pub(crate) fn sign(sign: Sign, symbols: &[Symbol]) -> Result<(u32, &[Symbol]), Fault>
    ensures read { Gives (λ x. (x.0, x.1.now)) result (sign_at sign symbols.now) }
    ensures shorter { IfOk result (λ x. length x.1.now < length symbols.now) }
{
    if !begins_sign(sign, symbols) {
        return Err(Fault::Syntax(symbols.len()));
    }
    Ok((place(symbols), behind_first(symbols)))
}

/// The place of the sign that the first symbol is.
fn place(symbols: &[Symbol]) -> u32
    ensures { result ≡ sign_place symbols.now }
{
    match symbols {
        [Symbol::Sign(at, _), ..] => *at,
        _ => 0,
    }
}
