//! Functions.

ghost use Rattle.std.specs.Prelude.{◌≡◌, ◌<◌, ◌≤◌, true, false, Some, map, length, IfOk};
ghost use Rattle.std.specs.Option.{option_map};
ghost use Rattle.kt_grammar.specs.Cursor.{Gives};
ghost use Rattle.kt_syntax.specs.Tree.{definition_of, external_of};
ghost use Rattle.kt_syntax.specs.Reading.{parameters_behind, definition_behind, body_at, function_behind};

use super::declarator::parameters;
use super::statement::block;
use super::tree::{Body, Function, Item, Parameter, Stars};
use kt_grammar::{Base, Fault, Keyword, Name, Sign, Symbol, begins_sign, behind, behind_first};
use sqlite_items::Items;
use std::alloc::Global;

/// Parameters and the closing parenthesis, behind the opening one.
#[tactic(auto, unfolding(crate::specs::Reading::parameters_behind))]
fn parameters_behind(
    alloc: Global,
    symbols: &[Symbol],
) -> Result<(Items<Parameter>, &[Symbol]), Fault>
    ensures read { Gives (λ x. (x.0, x.1.now)) result (parameters_behind symbols.now) }
    ensures shorter { IfOk result (λ x. length x.1.now < length symbols.now) }
{
    match symbols {
        [Symbol::Keyword(_, Keyword::Void), rest @ ..] => {
            let after = behind(Sign::CloseParenthesis, rest)?;
            Ok((Items::new(alloc), after))
        }
        _ if begins_sign(Sign::CloseParenthesis, symbols) => {
            Ok((Items::new(alloc), behind_first(symbols)))
        }
        _ => {
            let (parameters, rest) = parameters(alloc, symbols)?;
            let rest = behind(Sign::CloseParenthesis, rest)?;
            Ok((parameters, rest))
        }
    }
}

/// Behind the opening brace of a function's body.
#[tactic(auto, unfolding(crate::specs::Reading::definition_behind))]
fn definition(
    alloc: Global,
    depth: u32,
    noted: bool,
    symbols: &[Symbol],
) -> Result<(Option<Body>, &[Symbol]), Fault>
    ensures read { Gives (λ x. (option_map definition_of x.0, x.1.now)) result (definition_behind depth noted symbols.now) }
    ensures shorter { IfOk result (λ x. length x.1.now < length symbols.now) }
{
    let (entries, rest) = block(alloc, depth, symbols)?;
    Ok((Some(Body { noted, entries }), rest))
}

/// A semicolon, or the body of a function.
#[tactic(auto, unfolding(crate::specs::Reading::body_at))]
fn body(alloc: Global, depth: u32, symbols: &[Symbol]) -> Result<(Option<Body>, &[Symbol]), Fault>
    ensures read { Gives (λ x. (option_map definition_of x.0, x.1.now)) result (body_at depth symbols.now) }
    ensures shorter { IfOk result (λ x. length x.1.now < length symbols.now) }
{
    match symbols {
        [Symbol::Keyword(_, Keyword::NoteLocals), rest @ ..] => {
            let inner = behind(Sign::OpenBrace, rest)?;
            definition(alloc, depth, true, inner)
        }
        _ if begins_sign(Sign::Semicolon, symbols) => Ok((None, behind_first(symbols))),
        _ => {
            let inner = behind(Sign::OpenBrace, symbols)?;
            definition(alloc, depth, false, inner)
        }
    }
}

/// A function behind its name and opening parenthesis.
#[tactic(auto, unfolding(crate::specs::Reading::function_behind))]
pub(crate) fn function(
    alloc: Global,
    depth: u32,
    returned: Option<Base>,
    stars: Option<Stars>,
    name: Name,
    symbols: &[Symbol],
) -> Result<(Item, &[Symbol]), Fault>
    ensures read { Gives (λ x. (external_of x.0, x.1.now)) result (function_behind depth returned stars name symbols.now) }
    ensures shorter { IfOk result (λ x. length x.1.now < length symbols.now) }
{
    let (parameters, rest) = parameters_behind(alloc, symbols)?;
    let (body, rest) = body(alloc, depth, rest)?;
    let function = Function {
        result: returned,
        stars,
        name,
        parameters,
        body,
    };
    Ok((Item::Function(function), rest))
}
