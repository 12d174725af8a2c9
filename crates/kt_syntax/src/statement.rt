//! Statements and blocks. `depth`: how many more constructs may be opened.

ghost use Rattle.std.specs.Prelude.{◌≡◌, ◌<◌, ◌≤◌, length, map, IfOk};
ghost use Rattle.kt_grammar.specs.Cursor.{Gives};
ghost use Rattle.kt_grammar.specs.Tree.{term_of};
ghost use Rattle.kt_syntax.specs.Tree.{statement_of};
ghost use Rattle.kt_syntax.specs.Reading.{blocks, part_at, block_behind, else_at, if_behind, while_behind, do_behind, for_behind, worded_at, statement_at, entry_at, entries_at};

use super::head::{
    begins_entry, begins_statement, behind_else, behind_while, condition, ended, evaluated,
    refusal, start,
};
use super::local::locals;
use super::node;
use super::tree::Stmt;
use kt_grammar::{
    Expr, Fault, Keyword, Sign, Symbol, begins_base, begins_sign, behind, behind_first, beside,
};
use sqlite_items::{Boxed, Items};
use std::alloc::Global;

/// A statement that is part of another.
#[tactic(auto, using(crate::proofs::Deep::deep), unfolding(crate::specs::Reading::part_at, crate::specs::Reading::blocks))]
#[cycle(statements)]
fn part<'s>(
    alloc: Global,
    depth: u32,
    symbols: &'s [Symbol],
) -> Result<(Boxed<Stmt>, &'s [Symbol]), Fault>
    ensures read { Gives (λ x. (statement_of x.0, x.1.now)) result (part_at (blocks depth) symbols.now) }
    ensures shorter { IfOk result (λ x. length x.1.now < length symbols.now) }
{
    if depth == 0 {
        return Err(refusal(begins_statement(symbols), symbols));
    }
    let (statement, rest) = statement(alloc, depth - 1, symbols)?;
    let statement = Boxed::new(alloc, statement)?;
    Ok((statement, rest))
}

/// Behind the statement of an `if`.
#[tactic(auto, unfolding(crate::specs::Reading::else_at))]
#[cycle(statements)]
fn otherwise<'s>(
    alloc: Global,
    depth: u32,
    test: Expr,
    body: Boxed<Stmt>,
    symbols: &'s [Symbol],
) -> Result<(Stmt, &'s [Symbol]), Fault>
    ensures read { Gives (λ x. (statement_of x.0, x.1.now)) result (else_at (blocks depth) (term_of test) (statement_of body) symbols.now) }
    ensures shorter { IfOk result (λ x. length x.1.now ≤ length symbols.now) }
{
    match behind_else(symbols) {
        None => Ok((node::conditional(test, body), symbols)),
        Some(rest) => {
            let ((test, body), (other, rest)) = beside((test, body), part(alloc, depth, rest))?;
            Ok((node::alternative(test, body, other), rest))
        }
    }
}

/// Behind `if`.
#[tactic(auto, unfolding(crate::specs::Reading::if_behind))]
#[cycle(statements)]
fn conditional<'s>(
    alloc: Global,
    depth: u32,
    symbols: &'s [Symbol],
) -> Result<(Stmt, &'s [Symbol]), Fault>
    ensures read { Gives (λ x. (statement_of x.0, x.1.now)) result (if_behind depth (blocks depth) symbols.now) }
    ensures shorter { IfOk result (λ x. length x.1.now < length symbols.now) }
{
    let (test, rest) = condition(alloc, depth, symbols)?;
    let (test, (body, rest)) = beside(test, part(alloc, depth, rest))?;
    otherwise(alloc, depth, test, body, rest)
}

/// Behind `while`.
#[tactic(auto, unfolding(crate::specs::Reading::while_behind))]
#[cycle(statements)]
fn looped<'s>(
    alloc: Global,
    depth: u32,
    symbols: &'s [Symbol],
) -> Result<(Stmt, &'s [Symbol]), Fault>
    ensures read { Gives (λ x. (statement_of x.0, x.1.now)) result (while_behind depth (blocks depth) symbols.now) }
    ensures shorter { IfOk result (λ x. length x.1.now < length symbols.now) }
{
    let (test, rest) = condition(alloc, depth, symbols)?;
    let (test, (body, rest)) = beside(test, part(alloc, depth, rest))?;
    Ok((node::looped(test, body), rest))
}

/// Behind `do`.
#[tactic(auto, unfolding(crate::specs::Reading::do_behind))]
#[cycle(statements)]
fn repeated<'s>(
    alloc: Global,
    depth: u32,
    symbols: &'s [Symbol],
) -> Result<(Stmt, &'s [Symbol]), Fault>
    ensures read { Gives (λ x. (statement_of x.0, x.1.now)) result (do_behind depth (blocks depth) symbols.now) }
    ensures shorter { IfOk result (λ x. length x.1.now < length symbols.now) }
{
    let (body, rest) = part(alloc, depth, symbols)?;
    let (body, rest) = beside(body, behind_while(rest))?;
    let (body, (test, rest)) = beside(body, condition(alloc, depth, rest))?;
    let ((body, test), rest) = beside((body, test), behind(Sign::Semicolon, rest))?;
    Ok((node::repeated(body, test), rest))
}

/// Behind `for`.
#[tactic(auto, unfolding(crate::specs::Reading::for_behind))]
#[cycle(statements)]
fn counted<'s>(
    alloc: Global,
    depth: u32,
    symbols: &'s [Symbol],
) -> Result<(Stmt, &'s [Symbol]), Fault>
    ensures read { Gives (λ x. (statement_of x.0, x.1.now)) result (for_behind depth (blocks depth) symbols.now) }
    ensures shorter { IfOk result (λ x. length x.1.now < length symbols.now) }
{
    let inner = behind(Sign::OpenParenthesis, symbols)?;
    let (start, rest) = start(alloc, depth, inner)?;
    let (start, (test, rest)) = beside(start, ended(alloc, depth, Sign::Semicolon, rest))?;
    let (front, (step, rest)) = beside(
        (start, test),
        ended(alloc, depth, Sign::CloseParenthesis, rest),
    )?;
    let ((front, step), (body, rest)) = beside((front, step), part(alloc, depth, rest))?;
    let (start, test) = front;
    Ok((node::counted(start, test, step, body), rest))
}

/// A statement that begins with a keyword.
#[tactic(auto, unfolding(crate::specs::Reading::worded_at))]
#[cycle(statements)]
fn worded<'s>(
    alloc: Global,
    depth: u32,
    at: u32,
    word: Keyword,
    symbols: &'s [Symbol],
    rest: &'s [Symbol],
) -> Result<(Stmt, &'s [Symbol]), Fault>
    requires { length rest.now < length symbols.now }
    ensures read { Gives (λ x. (statement_of x.0, x.1.now)) result (worded_at depth (blocks depth) at word symbols.now rest.now) }
    ensures shorter { IfOk result (λ x. length x.1.now < length symbols.now) }
{
    match word {
        Keyword::Return => {
            let (value, rest) = ended(alloc, depth, Sign::Semicolon, rest)?;
            Ok((Stmt::Return(at, value), rest))
        }
        Keyword::Break => {
            let rest = behind(Sign::Semicolon, rest)?;
            Ok((Stmt::Break(at), rest))
        }
        Keyword::Continue => {
            let rest = behind(Sign::Semicolon, rest)?;
            Ok((Stmt::Continue(at), rest))
        }
        Keyword::If => conditional(alloc, depth, rest),
        Keyword::While => looped(alloc, depth, rest),
        Keyword::Do => repeated(alloc, depth, rest),
        Keyword::For => counted(alloc, depth, rest),
        _ => evaluated(alloc, depth, symbols),
    }
}

#[tactic(auto, unfolding(crate::specs::Reading::statement_at, crate::specs::Reading::signed_at))]
#[cycle(statements)]
fn statement<'s>(
    alloc: Global,
    depth: u32,
    symbols: &'s [Symbol],
) -> Result<(Stmt, &'s [Symbol]), Fault>
    ensures read { Gives (λ x. (statement_of x.0, x.1.now)) result (statement_at depth (blocks depth) symbols.now) }
    ensures shorter { IfOk result (λ x. length x.1.now < length symbols.now) }
{
    match symbols {
        [] => Err(Fault::Syntax(0)),
        [Symbol::Keyword(at, word), rest @ ..] => worded(alloc, depth, *at, *word, symbols, rest),
        [Symbol::Sign(_, Sign::OpenBrace), rest @ ..] => {
            let (entries, rest) = block(alloc, depth, rest)?;
            Ok((node::compound(entries), rest))
        }
        [Symbol::Sign(_, Sign::Semicolon), rest @ ..] => Ok((Stmt::Empty, rest)),
        _ => evaluated(alloc, depth, symbols),
    }
}

#[tactic(auto, unfolding(crate::specs::Reading::entry_at))]
#[cycle(statements)]
fn entry<'s>(
    alloc: Global,
    depth: u32,
    symbols: &'s [Symbol],
) -> Result<(Stmt, &'s [Symbol]), Fault>
    ensures read { Gives (λ x. (statement_of x.0, x.1.now)) result (entry_at depth (blocks depth) symbols.now) }
    ensures shorter { IfOk result (λ x. length x.1.now < length symbols.now) }
{
    if !begins_base(symbols) {
        return statement(alloc, depth, symbols);
    }
    let (locals, rest) = locals(alloc, depth, symbols)?;
    let (locals, rest) = beside(locals, behind(Sign::Semicolon, rest))?;
    Ok((Stmt::Locals(locals), rest))
}

/// Entries and the closing brace.
#[tactic(auto, unfolding(crate::specs::Reading::entries_at))]
#[cycle(statements)]
fn entries<'s>(
    alloc: Global,
    depth: u32,
    symbols: &'s [Symbol],
) -> Result<(Items<Stmt>, &'s [Symbol]), Fault>
    ensures read { Gives (λ x. (map statement_of x.0, x.1.now)) result (entries_at depth (blocks depth) symbols.now) }
    ensures shorter { IfOk result (λ x. length x.1.now < length symbols.now) }
{
    let mut done = Items::new(alloc);
    let mut rest = symbols;
    while !begins_sign(Sign::CloseBrace, rest) {
        let (entry, behind) = entry(alloc, depth, rest)?;
        done.push(entry)?;
        rest = behind;
    }
    Ok((done, behind_first(rest)))
}

/// Entries and the closing brace, behind the opening one.
#[tactic(auto, using(crate::proofs::Deep::deep), unfolding(crate::specs::Reading::block_behind, crate::specs::Reading::blocks))]
#[cycle(statements)]
pub(crate) fn block<'s>(
    alloc: Global,
    depth: u32,
    symbols: &'s [Symbol],
) -> Result<(Items<Stmt>, &'s [Symbol]), Fault>
    ensures read { Gives (λ x. (map statement_of x.0, x.1.now)) result (block_behind (blocks depth) symbols.now) }
    ensures shorter { IfOk result (λ x. length x.1.now < length symbols.now) }
{
    if depth > 0 {
        return entries(alloc, depth - 1, symbols);
    }
    if begins_sign(Sign::CloseBrace, symbols) {
        return Ok((Items::new(alloc), behind_first(symbols)));
    }
    Err(refusal(begins_entry(symbols), symbols))
}
