//! Acts and blocks. `depth`: how many more constructs may be opened.

ghost use Rattle.std.specs.Prelude.{◌≡◌, ◌<◌, ◌≤◌, length, map, IfOk};
ghost use Rattle.kt_grammar.specs.Cursor.{Gives};
ghost use Rattle.kt_grammar.specs.Tree.{term_of};
ghost use Rattle.xf_syntax.specs.Tree.{action_of};
ghost use Rattle.xf_syntax.specs.Reading.{blocks, part_at, block_at, else_at, if_behind, compound_behind, act_at, acts_at};

use super::head::{assigned, begins_act};
use super::node;
use super::tree::Act;
use kt_grammar::{
    Dialect, Expr, Fault, Keyword, Sign, Symbol, begins_sign, behind, behind_else, beside,
    condition, refusal,
};
use sqlite_items::{Boxed, Items};
use std::alloc::Global;

/// An act that is part of another.
#[tactic(auto, using(crate::proofs::Deep::deep), unfolding(crate::specs::Reading::part_at, crate::specs::Reading::blocks))]
#[cycle(acts)]
fn part<'s>(
    alloc: Global,
    depth: u32,
    symbols: &'s [Symbol],
) -> Result<(Boxed<Act>, &'s [Symbol]), Fault>
    ensures read { Gives (λ x. (action_of x.0, x.1.now)) result (part_at (blocks depth) symbols.now) }
    ensures shorter { IfOk result (λ x. length x.1.now < length symbols.now) }
{
    if depth == 0 {
        return Err(refusal(begins_act(symbols), symbols));
    }
    let (act, rest) = act(alloc, depth - 1, symbols)?;
    let act = Boxed::new(alloc, act)?;
    Ok((act, rest))
}

/// Behind the act of an `if`.
#[tactic(auto, unfolding(crate::specs::Reading::else_at))]
#[cycle(acts)]
fn otherwise<'s>(
    alloc: Global,
    depth: u32,
    test: Expr,
    body: Boxed<Act>,
    symbols: &'s [Symbol],
) -> Result<(Act, &'s [Symbol]), Fault>
    ensures read { Gives (λ x. (action_of x.0, x.1.now)) result (else_at (blocks depth) (term_of test) (action_of body) symbols.now) }
    ensures shorter { IfOk result (λ x. length x.1.now ≤ length symbols.now) }
{
    match behind_else(symbols) {
        None => Ok((node::conditional(test, body), symbols)),
        Some(rest) => {
            let ((test, body), (other, rest)) = beside((test, body), part(alloc, depth, rest))?;
            Ok((node::alternative(test, body, other), rest))
        }
    }
}

/// Behind `if`.
#[tactic(auto, unfolding(crate::specs::Reading::if_behind))]
#[cycle(acts)]
fn conditional<'s>(
    alloc: Global,
    depth: u32,
    symbols: &'s [Symbol],
) -> Result<(Act, &'s [Symbol]), Fault>
    ensures read { Gives (λ x. (action_of x.0, x.1.now)) result (if_behind depth (blocks depth) symbols.now) }
    ensures shorter { IfOk result (λ x. length x.1.now < length symbols.now) }
{
    let (test, rest) = condition(alloc, Dialect::Rules, depth, symbols)?;
    let (test, (body, rest)) = beside(test, part(alloc, depth, rest))?;
    otherwise(alloc, depth, test, body, rest)
}

/// A block behind its opening brace.
#[tactic(auto, unfolding(crate::specs::Reading::compound_behind))]
#[cycle(acts)]
fn compound<'s>(
    alloc: Global,
    depth: u32,
    symbols: &'s [Symbol],
) -> Result<(Act, &'s [Symbol]), Fault>
    ensures read { Gives (λ x. (action_of x.0, x.1.now)) result (compound_behind (blocks depth) symbols.now) }
    ensures shorter { IfOk result (λ x. length x.1.now < length symbols.now) }
{
    let (acts, rest) = block(alloc, depth, symbols)?;
    let (acts, rest) = beside(acts, behind(Sign::CloseBrace, rest))?;
    Ok((node::compound(acts), rest))
}

#[tactic(auto, unfolding(crate::specs::Reading::act_at, crate::specs::Reading::signed_at))]
#[cycle(acts)]
fn act<'s>(alloc: Global, depth: u32, symbols: &'s [Symbol]) -> Result<(Act, &'s [Symbol]), Fault>
    ensures read { Gives (λ x. (action_of x.0, x.1.now)) result (act_at depth (blocks depth) symbols.now) }
    ensures shorter { IfOk result (λ x. length x.1.now < length symbols.now) }
{
    match symbols {
        [] => Err(Fault::Syntax(0)),
        [Symbol::Keyword(_, Keyword::If), rest @ ..] => conditional(alloc, depth, rest),
        [Symbol::Sign(_, Sign::OpenBrace), rest @ ..] => compound(alloc, depth, rest),
        [Symbol::Sign(_, Sign::Semicolon), rest @ ..] => Ok((Act::Empty, rest)),
        _ => assigned(alloc, depth, symbols),
    }
}

/// Acts up to a closing brace.
#[tactic(auto, unfolding(crate::specs::Reading::acts_at))]
#[cycle(acts)]
fn acts<'s>(
    alloc: Global,
    depth: u32,
    symbols: &'s [Symbol],
) -> Result<(Items<Act>, &'s [Symbol]), Fault>
    ensures read { Gives (λ x. (map action_of x.0, x.1.now)) result (acts_at depth (blocks depth) symbols.now) }
    ensures shorter { IfOk result (λ x. length x.1.now ≤ length symbols.now) }
{
    let mut done = Items::new(alloc);
    let mut rest = symbols;
    while !begins_sign(Sign::CloseBrace, rest) {
        let (act, behind) = act(alloc, depth, rest)?;
        done.push(act)?;
        rest = behind;
    }
    Ok((done, rest))
}

/// The acts of a block, behind its opening brace.
#[tactic(auto, using(crate::proofs::Deep::deep), unfolding(crate::specs::Reading::block_at, crate::specs::Reading::blocks))]
#[cycle(acts)]
pub(crate) fn block<'s>(
    alloc: Global,
    depth: u32,
    symbols: &'s [Symbol],
) -> Result<(Items<Act>, &'s [Symbol]), Fault>
    ensures read { Gives (λ x. (map action_of x.0, x.1.now)) result (block_at (blocks depth) symbols.now) }
    ensures shorter { IfOk result (λ x. length x.1.now ≤ length symbols.now) }
{
    if depth > 0 {
        return acts(alloc, depth - 1, symbols);
    }
    if begins_sign(Sign::CloseBrace, symbols) {
        return Ok((Items::new(alloc), symbols));
    }
    Err(refusal(begins_act(symbols), symbols))
}
