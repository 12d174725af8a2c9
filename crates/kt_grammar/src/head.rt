//! The front of a unary expression, as far as its first expression inside.

ghost use Rattle.std.specs.Prelude.{◌≡◌, ◌<◌, ◌≤◌, ◌∷◌, length, IfOk};
ghost use Rattle.kt_grammar.specs.Cursor.{Gives};
ghost use Rattle.kt_grammar.specs.Tree.{term_of};
ghost use Rattle.kt_grammar.specs.Reading.{old_symbol_at, number_at, fresh_at, new_object_at};
ghost use Rattle.kt_grammar.specs.Heads.{front_of, enclosed, applied, name_head, open_head, prefix_head, rule_head, sign_head, head_at};

use super::cursor::{begins_sign, behind, behind_first, name};
use super::fault::{Fault, beside};
use super::keyword::{Keyword, RuleWord};
use super::node::{converted, parenthesised, prefixed, transformed};
use super::operator::{Dialect, PrefixOperator};
use super::sign::Sign;
use super::sign_of::prefix_of;
use super::symbol::Symbol;
use super::tree::{Expr, Fresh, Name, TypeName};
use super::types::{begins_base, between, type_name};
use kt_lex::Number;
use sqlite_items::Items;
use std::alloc::{AllocError, Global};

/// What encloses an expression, and where it begins.
#[derive(Clone, Copy)]
pub(crate) enum Enclosing {
    Parenthesis(u32),
    Transform(u32),
}

/// What stands before an operand, and where it begins.
#[derive(Drop)]
pub(crate) enum Prefixing {
    Prefix(u32, PrefixOperator),
    Cast(u32, TypeName),
}

/// The front of a unary expression.
#[derive(Drop)]
pub(crate) enum Head {
    /// All of a primary expression.
    Whole(Expr),
    /// A name, and the opening parenthesis of its arguments.
    Call(Name),
    Enclosing(Enclosing),
    Prefixing(Prefixing),
}

pub(crate) fn enclose(alloc: Global, enclosing: Enclosing, inner: Expr) -> Result<Expr, AllocError>
    ensures { IfOk result (λ x. term_of x ≡ enclosed enclosing (term_of inner)) }
{
    match enclosing {
        Enclosing::Parenthesis(at) => parenthesised(alloc, at, inner),
        Enclosing::Transform(at) => transformed(alloc, at, inner),
    }
}

pub(crate) fn apply(alloc: Global, prefixing: Prefixing, operand: Expr) -> Result<Expr, AllocError>
    ensures { IfOk result (λ x. term_of x ≡ applied prefixing (term_of operand)) }
{
    match prefixing {
        Prefixing::Prefix(at, operator) => prefixed(alloc, at, operator, operand),
        Prefixing::Cast(at, type_name) => converted(alloc, at, type_name, operand),
    }
}

/// At a sign.
#[tactic(auto, unfolding(crate::specs::Heads::sign_head))]
fn signed<'t>(
    dialect: Dialect,
    at: u32,
    sign: Sign,
    symbols: &'t [Symbol],
    rest: &'t [Symbol],
) -> Result<(Head, &'t [Symbol]), Fault>
    ensures read { Gives (λ x. (front_of x.0, x.1.now)) result (sign_head dialect at sign symbols.now rest.now) }
    ensures shorter { IfOk result (λ x. length x.1.now ≤ length rest.now) }
{
    if sign == Sign::OpenParenthesis {
        open(at, rest)
    } else {
        prefix(at, prefix_of(dialect, sign), symbols, rest)
    }
}

/// Behind an opening parenthesis: a type name is a cast's.
#[tactic(auto, unfolding(crate::specs::Heads::open_head))]
fn open(at: u32, symbols: &[Symbol]) -> Result<(Head, &[Symbol]), Fault>
    ensures read { Gives (λ x. (front_of x.0, x.1.now)) result (open_head at symbols.now) }
    ensures shorter { IfOk result (λ x. length x.1.now ≤ length symbols.now) }
{
    if !begins_base(symbols) {
        return Ok((Head::Enclosing(Enclosing::Parenthesis(at)), symbols));
    }
    let (type_name, rest) = type_name(symbols)?;
    let (type_name, rest) = beside(type_name, behind(Sign::CloseParenthesis, rest))?;
    Ok((Head::Prefixing(Prefixing::Cast(at, type_name)), rest))
}

#[tactic(auto, unfolding(crate::specs::Heads::prefix_head))]
fn prefix<'t>(
    at: u32,
    operator: Option<PrefixOperator>,
    symbols: &'t [Symbol],
    rest: &'t [Symbol],
) -> Result<(Head, &'t [Symbol]), Fault>
    ensures read { Gives (λ x. (front_of x.0, x.1.now)) result (prefix_head at operator symbols.now rest.now) }
    ensures shorter { IfOk result (λ x. length x.1.now ≤ length rest.now) }
{
    match operator {
        None => Err(Fault::Syntax(symbols.len())),
        Some(operator) => Ok((Head::Prefixing(Prefixing::Prefix(at, operator)), rest)),
    }
}

/// The front of a unary expression.
#[tactic(auto, unfolding(crate::specs::Heads::head_at))]
pub(crate) fn front(
    alloc: Global,
    dialect: Dialect,
    symbols: &[Symbol],
) -> Result<(Head, &[Symbol]), Fault>
    ensures read { Gives (λ x. (front_of x.0, x.1.now)) result (head_at dialect symbols.now) }
    ensures shorter { IfOk result (λ x. length x.1.now < length symbols.now) }
{
    match symbols {
        [Symbol::Sign(at, sign), rest @ ..] => signed(dialect, *at, *sign, symbols, rest),
        [Symbol::Name(at, word), rest @ ..] => {
            let word = word.clone()?;
            named(dialect, Name { at: *at, word }, rest)
        }
        [Symbol::Number(at, number), rest @ ..] => {
            Ok((Head::Whole(Expr::Number(*at, *number)), rest))
        }
        [Symbol::Character(at, byte), rest @ ..] => {
            Ok((Head::Whole(Expr::Character(*at, *byte)), rest))
        }
        [Symbol::Text(at, bytes), rest @ ..] if dialect.is_c() => {
            let bytes = Items::from_slice(alloc, bytes.as_slice())?;
            Ok((Head::Whole(Expr::Text(*at, bytes)), rest))
        }
        [Symbol::Keyword(at, Keyword::Null), rest @ ..] => Ok((Head::Whole(Expr::Null(*at)), rest)),
        [Symbol::Keyword(at, Keyword::Eof), rest @ ..] => Ok((Head::Whole(Expr::Eof(*at)), rest)),
        [Symbol::Keyword(at, Keyword::SizeOf), rest @ ..] if dialect.is_c() => {
            let (type_name, rest) = between(rest)?;
            Ok((Head::Whole(Expr::SizeOf(*at, type_name)), rest))
        }
        [Symbol::RuleWord(at, word), rest @ ..] if !dialect.is_c() => rule(*at, *word, rest),
        _ => Err(Fault::Syntax(symbols.len())),
    }
}

/// Behind a name.
#[tactic(auto, unfolding(crate::specs::Heads::name_head))]
fn named(dialect: Dialect, name: Name, symbols: &[Symbol]) -> Result<(Head, &[Symbol]), Fault>
    ensures read { Gives (λ x. (front_of x.0, x.1.now)) result (name_head dialect name symbols.now) }
    ensures shorter { IfOk result (λ x. length x.1.now ≤ length symbols.now) }
{
    if dialect.is_c() && begins_sign(Sign::OpenParenthesis, symbols) {
        Ok((Head::Call(name), behind_first(symbols)))
    } else {
        Ok((Head::Whole(Expr::Name(name)), symbols))
    }
}

/// Behind a rule word.
#[tactic(auto, unfolding(crate::specs::Heads::rule_head))]
fn rule(at: u32, word: RuleWord, symbols: &[Symbol]) -> Result<(Head, &[Symbol]), Fault>
    ensures read { Gives (λ x. (front_of x.0, x.1.now)) result (rule_head at word symbols.now) }
    ensures shorter { IfOk result (λ x. length x.1.now ≤ length symbols.now) }
{
    match word {
        RuleWord::In | RuleWord::Out | RuleWord::Base => {
            Ok((Head::Whole(Expr::Rule(at, word)), symbols))
        }
        RuleWord::OldSymbol => {
            let (x, rest) = old_symbol(at, symbols)?;
            Ok((Head::Whole(x), rest))
        }
        RuleWord::Transform => {
            let rest = behind(Sign::OpenParenthesis, symbols)?;
            Ok((Head::Enclosing(Enclosing::Transform(at)), rest))
        }
        RuleWord::New => {
            let (x, rest) = new_object(at, symbols)?;
            Ok((Head::Whole(x), rest))
        }
    }
}

/// `$oldsym(g)`, behind its word.
#[tactic(auto, unfolding(crate::specs::Reading::old_symbol_at))]
fn old_symbol(at: u32, symbols: &[Symbol]) -> Result<(Expr, &[Symbol]), Fault>
    ensures read { Gives (λ x. (term_of x.0, x.1.now)) result (old_symbol_at at symbols.now) }
    ensures shorter { IfOk result (λ x. length x.1.now < length symbols.now) }
{
    let rest = behind(Sign::OpenParenthesis, symbols)?;
    let (name, rest) = name(rest)?;
    let (name, rest) = beside(name, behind(Sign::CloseParenthesis, rest))?;
    Ok((Expr::OldSymbol(at, name), rest))
}

/// A number and its place.
#[tactic(auto, unfolding(crate::specs::Reading::number_at))]
fn number(symbols: &[Symbol]) -> Result<((u32, Number), &[Symbol]), Fault>
    ensures read { Gives (λ x. (x.0, x.1.now)) result (number_at symbols.now) }
    ensures shorter { IfOk result (λ x. length x.1.now < length symbols.now) }
{
    match symbols {
        [Symbol::Number(at, number), rest @ ..] => Ok(((*at, *number), rest)),
        _ => Err(Fault::Syntax(symbols.len())),
    }
}

/// What stands between the parentheses of `$new`.
#[tactic(auto, unfolding(crate::specs::Reading::fresh_at))]
fn fresh(symbols: &[Symbol]) -> Result<(Fresh, &[Symbol]), Fault>
    ensures read { Gives (λ x. (x.0, x.1.now)) result (fresh_at symbols.now) }
    ensures shorter { IfOk result (λ x. length x.1.now < length symbols.now) }
{
    let (type_name, rest) = type_name(symbols)?;
    let (type_name, rest) = beside(type_name, behind(Sign::Comma, rest))?;
    let (type_name, ((at, count), rest)) = beside(type_name, number(rest))?;
    Ok((
        Fresh {
            type_name,
            at,
            count,
        },
        rest,
    ))
}

/// `$new(T, n)`, behind its word.
#[tactic(auto, unfolding(crate::specs::Reading::new_object_at))]
fn new_object(at: u32, symbols: &[Symbol]) -> Result<(Expr, &[Symbol]), Fault>
    ensures read { Gives (λ x. (term_of x.0, x.1.now)) result (new_object_at at symbols.now) }
    ensures shorter { IfOk result (λ x. length x.1.now < length symbols.now) }
{
    let rest = behind(Sign::OpenParenthesis, symbols)?;
    let (fresh, rest) = fresh(rest)?;
    let (fresh, rest) = beside(fresh, behind(Sign::CloseParenthesis, rest))?;
    Ok((Expr::New(at, fresh), rest))
}
