//! Stars and `E_PTRARRAY` of a declarator.

ghost use Rattle.std.specs.Prelude.{◌≡◌, ◌<◌, ◌≤◌, length, IfOk};
ghost use Rattle.kt_grammar.specs.Cursor.{Gives};
ghost use Rattle.kt_syntax.specs.Reading.{stars_at, extent_name_at, extent_behind, extent_at, pointer_at};

use super::tree::{Extent, Pointer, Stars};
use kt_grammar::{Fault, Keyword, Name, Sign, Symbol, behind, count_sign};

/// The stars at the front.
#[tactic(auto, unfolding(crate::specs::Reading::stars_at))]
pub(crate) fn stars(symbols: &[Symbol]) -> (Option<Stars>, &[Symbol])
    ensures value { (result.0, result.1.now) ≡ stars_at symbols.now }
    ensures shorter { length result.1.now ≤ length symbols.now }
{
    match symbols {
        [Symbol::Sign(at, Sign::Star), rest @ ..] => {
            let more = count_sign(Sign::Star, rest);
            let stars = Stars {
                at: *at,
                count: more + 1,
            };
            (Some(stars), &rest[more..])
        }
        _ => (None, symbols),
    }
}

#[tactic(auto, unfolding(crate::specs::Reading::extent_name_at))]
fn extent_name(symbols: &[Symbol]) -> Result<(Extent, &[Symbol]), Fault>
    ensures read { Gives (λ x. (x.0, x.1.now)) result (extent_name_at symbols.now) }
    ensures shorter { IfOk result (λ x. length x.1.now < length symbols.now) }
{
    match symbols {
        [Symbol::Name(at, word), rest @ ..] => {
            let word = word.clone()?;
            Ok((Extent::Name(Name { at: *at, word }), rest))
        }
        [Symbol::Number(at, number), rest @ ..] => Ok((Extent::Number(*at, *number), rest)),
        _ => Err(Fault::Syntax(symbols.len())),
    }
}

/// Behind `E_PTRARRAY`.
fn extent_behind(symbols: &[Symbol]) -> Result<(Extent, &[Symbol]), Fault>
    ensures read { Gives (λ x. (x.0, x.1.now)) result (extent_behind symbols.now) }
    ensures shorter { IfOk result (λ x. length x.1.now < length symbols.now) }
{
    let inner = behind(Sign::OpenParenthesis, symbols)?;
    let (extent, rest) = extent_name(inner)?;
    let rest = behind(Sign::CloseParenthesis, rest)?;
    Ok((extent, rest))
}

#[tactic(auto, unfolding(crate::specs::Reading::extent_at))]
fn extent(symbols: &[Symbol]) -> Result<(Option<Extent>, &[Symbol]), Fault>
    ensures read { Gives (λ x. (x.0, x.1.now)) result (extent_at symbols.now) }
    ensures shorter { IfOk result (λ x. length x.1.now ≤ length symbols.now) }
{
    match symbols {
        [Symbol::Keyword(_, Keyword::PointerArray), rest @ ..] => {
            let (extent, rest) = extent_behind(rest)?;
            Ok((Some(extent), rest))
        }
        _ => Ok((None, symbols)),
    }
}

/// The stars and extent of a declarator, where they stand.
#[tactic(auto, unfolding(crate::specs::Reading::pointer_behind))]
pub(crate) fn pointer(symbols: &[Symbol]) -> Result<(Option<Pointer>, &[Symbol]), Fault>
    ensures read { Gives (λ x. (x.0, x.1.now)) result (pointer_at symbols.now) }
    ensures shorter { IfOk result (λ x. length x.1.now ≤ length symbols.now) }
{
    let (stars, rest) = stars(symbols);
    match stars {
        None => Ok((None, rest)),
        Some(stars) => {
            let (extent, rest) = extent(rest)?;
            Ok((Some(Pointer { stars, extent }), rest))
        }
    }
}
