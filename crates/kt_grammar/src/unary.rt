//! Unary expressions and arguments.

ghost use Rattle.std.specs.Prelude.{◌≡◌, ◌<◌, ◌≤◌, [], length, map, IfOk};
ghost use Rattle.kt_grammar.specs.Cursor.{Gives, listed_at};
ghost use Rattle.kt_grammar.specs.Tree.{term_of};
ghost use Rattle.kt_grammar.specs.Reading.{deeper, level_at, arguments_at, unary_at};
ghost use Rattle.kt_grammar.specs.Heads.{front_of, behind_head};

use super::cursor::{begins_sign, behind, behind_first};
use super::fault::{Fault, beside};
use super::head::{Head, apply, enclose, front};
use super::levels::{deep, level, stuck};
use super::node::called;
use super::operator::Dialect;
use super::postfix::postfix;
use super::sign::Sign;
use super::symbol::Symbol;
use super::tree::Expr;
use sqlite_items::Items;
use std::alloc::Global;

/// A unary expression.
#[cycle(expressions)]
pub(crate) fn unary<'t>(
    alloc: Global,
    dialect: Dialect,
    depth: u32,
    symbols: &'t [Symbol],
) -> Result<(Expr, &'t [Symbol]), Fault>
    ensures read { Gives (λ x. (term_of x.0, x.1.now)) result (unary_at dialect (deeper dialect depth) symbols.now) }
    ensures shorter { IfOk result (λ x. length x.1.now < length symbols.now) }
{
    let (head, rest) = front(alloc, dialect, symbols)?;
    behind_head(alloc, dialect, depth, head, rest)
}

/// What stands behind the front of a unary expression.
#[tactic(auto, unfolding(crate::specs::Heads::behind_head))]
#[cycle(expressions)]
fn behind_head<'t>(
    alloc: Global,
    dialect: Dialect,
    depth: u32,
    head: Head,
    symbols: &'t [Symbol],
) -> Result<(Expr, &'t [Symbol]), Fault>
    ensures read { Gives (λ x. (term_of x.0, x.1.now)) result (behind_head dialect (deeper dialect depth) (front_of head) symbols.now) }
    ensures shorter { IfOk result (λ x. length x.1.now ≤ length symbols.now) }
{
    match head {
        Head::Whole(x) => postfix(alloc, dialect, depth, x, symbols),
        Head::Call(name) => {
            let (name, (arguments, rest)) = beside(
                name,
                arguments(alloc, dialect, depth, symbols),
            )?;
            postfix(alloc, dialect, depth, called(name, arguments), rest)
        }
        Head::Enclosing(enclosing) => {
            let (a, rest) = deep(alloc, dialect, depth, 0, symbols)?;
            let (a, rest) = beside(a, behind(Sign::CloseParenthesis, rest))?;
            let x = enclose(alloc, enclosing, a)?;
            postfix(alloc, dialect, depth, x, rest)
        }
        Head::Prefixing(prefixing) => {
            let (prefixing, (a, rest)) = beside(
                prefixing,
                deep(alloc, dialect, depth, 8, symbols),
            )?;
            let x = apply(alloc, prefixing, a)?;
            Ok((x, rest))
        }
    }
}

/// Arguments and the closing parenthesis, behind the opening one.
#[tactic(auto, unfolding(crate::specs::Reading::arguments_at))]
#[cycle(expressions)]
fn arguments<'t>(
    alloc: Global,
    dialect: Dialect,
    depth: u32,
    symbols: &'t [Symbol],
) -> Result<(Items<Expr>, &'t [Symbol]), Fault>
    ensures read { Gives (λ x. (map term_of x.0, x.1.now)) result (arguments_at dialect (deeper dialect depth) symbols.now) }
    ensures shorter { IfOk result (λ x. length x.1.now < length symbols.now) }
{
    if begins_sign(Sign::CloseParenthesis, symbols) {
        return Ok((Items::new(alloc), behind_first(symbols)));
    }
    if depth == 0 {
        return Err(stuck(dialect, symbols));
    }
    let (arguments, rest) = listed(alloc, dialect, depth - 1, symbols)?;
    let rest = behind(Sign::CloseParenthesis, rest)?;
    Ok((arguments, rest))
}

/// Expressions with commas between them.
#[cycle(expressions)]
fn listed<'t>(
    alloc: Global,
    dialect: Dialect,
    depth: u32,
    symbols: &'t [Symbol],
) -> Result<(Items<Expr>, &'t [Symbol]), Fault>
    ensures read { Gives (λ x. (map term_of x.0, x.1.now)) result (listed_at (level_at dialect (deeper dialect depth) 0) (length symbols.now) [] symbols.now) }
    ensures shorter { IfOk result (λ x. length x.1.now < length symbols.now) }
{
    let mut items = Items::new(alloc);
    let mut rest = symbols;
    loop {
        let (item, after) = level(alloc, dialect, depth, 0, rest)?;
        items.push(item)?;
        if !begins_sign(Sign::Comma, after) {
            return Ok((items, after));
        }
        rest = behind_first(after);
    }
}
