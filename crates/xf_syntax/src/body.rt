//! The end of a rule: a semicolon, or a colon and a body.

ghost use Rattle.std.specs.Prelude.{◌≡◌, ◌<◌, length, IfOk};
ghost use Rattle.std.specs.Option.{option_map};
ghost use Rattle.kt_grammar.specs.Cursor.{Gives};
ghost use Rattle.xf_syntax.specs.Tree.{code_of};
ghost use Rattle.xf_syntax.specs.Reading.{code_at, ending_at};

use super::act::block;
use super::head::sign;
use super::tree::Body;
use kt_grammar::{Fault, Sign, Symbol, begins_sign, behind, behind_first, beside};
use std::alloc::Global;

/// A body with its braces.
#[tactic(auto, unfolding(crate::specs::Reading::code_at))]
fn body(alloc: Global, depth: u32, symbols: &[Symbol]) -> Result<(Body, &[Symbol]), Fault>
    ensures read { Gives (λ x. (code_of x.0, x.1.now)) result (code_at depth symbols.now) }
    ensures shorter { IfOk result (λ x. length x.1.now < length symbols.now) }
{
    let (first, rest) = sign(Sign::OpenBrace, symbols)?;
    let (acts, rest) = block(alloc, depth, rest)?;
    let (acts, (last, rest)) = beside(acts, sign(Sign::CloseBrace, rest))?;
    Ok((Body { first, last, acts }, rest))
}

/// What ends a rule.
#[tactic(auto, unfolding(crate::specs::Reading::ending_at))]
pub(crate) fn ending(
    alloc: Global,
    depth: u32,
    symbols: &[Symbol],
) -> Result<(Option<Body>, &[Symbol]), Fault>
    ensures read { Gives (λ x. (option_map code_of x.0, x.1.now)) result (ending_at depth symbols.now) }
    ensures shorter { IfOk result (λ x. length x.1.now < length symbols.now) }
{
    if begins_sign(Sign::Semicolon, symbols) {
        return Ok((None, behind_first(symbols)));
    }
    let rest = behind(Sign::Colon, symbols)?;
    let (body, rest) = body(alloc, depth, rest)?;
    Ok((Some(body), rest))
}
