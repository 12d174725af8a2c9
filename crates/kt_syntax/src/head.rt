//! What stands before the parts of a statement, and whether one begins.

ghost use Rattle.std.specs.Prelude.{◌≡◌, ◌<◌, ◌≤◌, length, if◌then◌else◌, IfOk, IfSome};
ghost use Rattle.std.specs.Option.{option_map};
ghost use Rattle.kt_grammar.specs.Cursor.{Gives};
ghost use Rattle.kt_grammar.specs.Tree.{term_of};
ghost use Rattle.kt_syntax.specs.Tree.{start_of, statement_of};
ghost use Rattle.kt_syntax.specs.Reading.{begins_so, begins_keyword, begins_statement, begins_entry, deep_expr_at, condition_at, ended_at, behind_else, behind_while, start_at, evaluated_at};

use super::local::locals;
use super::tree::{ForStart, Stmt};
use kt_grammar::{
    Dialect, Expr, Fault, Keyword, Sign, Symbol, begins_base, begins_expr, begins_sign, behind,
    behind_first, beside, expr,
};
use std::alloc::Global;

fn begins_so(word: Keyword) -> bool
    ensures { result ≡ begins_so word }
{
    matches!(
        word,
        Keyword::Return
            | Keyword::Break
            | Keyword::Continue
            | Keyword::If
            | Keyword::While
            | Keyword::Do
            | Keyword::For
    )
}

#[tactic(auto, unfolding(crate::specs::Reading::begins_keyword))]
fn begins_keyword(symbols: &[Symbol]) -> bool
    ensures { result ≡ begins_keyword symbols.now }
{
    match symbols {
        [Symbol::Keyword(_, word), ..] => begins_so(*word),
        _ => false,
    }
}

/// Whether a statement begins with the first symbol.
pub(crate) fn begins_statement(symbols: &[Symbol]) -> bool
    ensures { result ≡ begins_statement symbols.now }
{
    begins_sign(Sign::OpenBrace, symbols)
        || begins_sign(Sign::Semicolon, symbols)
        || begins_keyword(symbols)
        || begins_expr(Dialect::C, symbols)
}

/// Whether an entry of a block begins with the first symbol.
pub(crate) fn begins_entry(symbols: &[Symbol]) -> bool
    ensures { result ≡ begins_entry symbols.now }
{
    begins_base(symbols) || begins_statement(symbols)
}

/// What is told where nothing more may be opened: a symbol that could begin here is too deep.
pub(crate) fn refusal(begins: bool, symbols: &[Symbol]) -> Fault
    ensures { result ≡ if begins then Fault.TooDeep (length symbols.now) else Fault.Syntax (length symbols.now) }
{
    if begins {
        Fault::TooDeep(symbols.len())
    } else {
        Fault::Syntax(symbols.len())
    }
}

/// An expression, one deeper.
#[tactic(auto, using(crate::proofs::Deep::deep))]
fn deep_expr(alloc: Global, depth: u32, symbols: &[Symbol]) -> Result<(Expr, &[Symbol]), Fault>
    ensures read { Gives (λ x. (term_of x.0, x.1.now)) result (deep_expr_at depth symbols.now) }
    ensures shorter { IfOk result (λ x. length x.1.now < length symbols.now) }
{
    if depth == 0 {
        return Err(refusal(begins_expr(Dialect::C, symbols), symbols));
    }
    expr(alloc, Dialect::C, depth - 1, symbols)
}

/// An expression in parentheses.
#[tactic(auto, unfolding(crate::specs::Reading::condition_at))]
pub(crate) fn condition(
    alloc: Global,
    depth: u32,
    symbols: &[Symbol],
) -> Result<(Expr, &[Symbol]), Fault>
    ensures read { Gives (λ x. (term_of x.0, x.1.now)) result (condition_at depth symbols.now) }
    ensures shorter { IfOk result (λ x. length x.1.now < length symbols.now) }
{
    let inner = behind(Sign::OpenParenthesis, symbols)?;
    let (test, rest) = deep_expr(alloc, depth, inner)?;
    let (test, rest) = beside(test, behind(Sign::CloseParenthesis, rest))?;
    Ok((test, rest))
}

/// An expression and this sign, or the sign alone.
#[tactic(auto, unfolding(crate::specs::Reading::ended_at))]
pub(crate) fn ended(
    alloc: Global,
    depth: u32,
    sign: Sign,
    symbols: &[Symbol],
) -> Result<(Option<Expr>, &[Symbol]), Fault>
    ensures read { Gives (λ x. (option_map term_of x.0, x.1.now)) result (ended_at depth sign symbols.now) }
    ensures shorter { IfOk result (λ x. length x.1.now < length symbols.now) }
{
    if begins_sign(sign, symbols) {
        return Ok((None, behind_first(symbols)));
    }
    let (value, rest) = expr(alloc, Dialect::C, depth, symbols)?;
    let (value, rest) = beside(value, behind(sign, rest))?;
    Ok((Some(value), rest))
}

/// The symbols behind an `else`, where it stands.
#[tactic(auto, unfolding(crate::specs::Reading::behind_else))]
pub(crate) fn behind_else(symbols: &[Symbol]) -> Option<&[Symbol]>
    ensures read { option_map (λ x. x.now) result ≡ behind_else symbols.now }
    ensures shorter { IfSome result (λ x. length x.now < length symbols.now) }
{
    match symbols {
        [Symbol::Keyword(_, Keyword::Else), rest @ ..] => Some(rest),
        _ => None,
    }
}

/// The symbols behind a `while`.
#[tactic(auto, unfolding(crate::specs::Reading::behind_while))]
pub(crate) fn behind_while(symbols: &[Symbol]) -> Result<&[Symbol], Fault>
    ensures read { Gives (λ x. x.now) result (behind_while symbols.now) }
    ensures shorter { IfOk result (λ x. length x.now < length symbols.now) }
{
    match symbols {
        [Symbol::Keyword(_, Keyword::While), rest @ ..] => Ok(rest),
        _ => Err(Fault::Syntax(symbols.len())),
    }
}

/// What stands first between the parentheses of `for`, with its semicolon.
#[tactic(auto, unfolding(crate::specs::Reading::start_at))]
pub(crate) fn start(
    alloc: Global,
    depth: u32,
    symbols: &[Symbol],
) -> Result<(ForStart, &[Symbol]), Fault>
    ensures read { Gives (λ x. (start_of x.0, x.1.now)) result (start_at depth symbols.now) }
    ensures shorter { IfOk result (λ x. length x.1.now < length symbols.now) }
{
    if begins_sign(Sign::Semicolon, symbols) {
        return Ok((ForStart::Nothing, behind_first(symbols)));
    }
    if begins_base(symbols) {
        let (locals, rest) = locals(alloc, depth, symbols)?;
        let (locals, rest) = beside(locals, behind(Sign::Semicolon, rest))?;
        return Ok((ForStart::Locals(locals), rest));
    }
    let (value, rest) = expr(alloc, Dialect::C, depth, symbols)?;
    let (value, rest) = beside(value, behind(Sign::Semicolon, rest))?;
    Ok((ForStart::Expr(value), rest))
}

/// An expression and a semicolon.
#[tactic(auto, unfolding(crate::specs::Reading::evaluated_at))]
pub(crate) fn evaluated(
    alloc: Global,
    depth: u32,
    symbols: &[Symbol],
) -> Result<(Stmt, &[Symbol]), Fault>
    ensures read { Gives (λ x. (statement_of x.0, x.1.now)) result (evaluated_at depth symbols.now) }
    ensures shorter { IfOk result (λ x. length x.1.now < length symbols.now) }
{
    let (value, rest) = expr(alloc, Dialect::C, depth, symbols)?;
    let (value, rest) = beside(value, behind(Sign::Semicolon, rest))?;
    Ok((Stmt::Expr(value), rest))
}
