//! Initial values of globals.

ghost use Rattle.std.specs.Prelude.{◌≡◌, ◌<◌, ◌≤◌, length, IfOk};
ghost use Rattle.kt_grammar.specs.Cursor.{Gives};
ghost use Rattle.kt_syntax.specs.Reading.{negative_at, constant_at, initial_at};

use super::tree::Constant;
use kt_grammar::{Fault, Keyword, Sign, Symbol, begins_sign, behind_first};
use sqlite_items::Items;
use std::alloc::Global;

/// A number behind a minus sign.
#[tactic(auto, unfolding(crate::specs::Reading::negative_at))]
fn negative(symbols: &[Symbol]) -> Result<(Constant, &[Symbol]), Fault>
    ensures read { Gives (λ x. (x.0, x.1.now)) result (negative_at symbols.now) }
    ensures shorter { IfOk result (λ x. length x.1.now < length symbols.now) }
{
    match symbols {
        [Symbol::Number(_, number), rest @ ..] => Ok((Constant::Negative(*number), rest)),
        _ => Err(Fault::Syntax(symbols.len())),
    }
}

#[tactic(auto, unfolding(crate::specs::Reading::constant_at))]
fn constant(alloc: Global, symbols: &[Symbol]) -> Result<(Constant, &[Symbol]), Fault>
    ensures read { Gives (λ x. (x.0, x.1.now)) result (constant_at symbols.now) }
    ensures shorter { IfOk result (λ x. length x.1.now < length symbols.now) }
{
    match symbols {
        [Symbol::Number(_, number), rest @ ..] => Ok((Constant::Number(*number), rest)),
        [Symbol::Sign(_, Sign::Minus), rest @ ..] => negative(rest),
        [Symbol::Character(_, byte), rest @ ..] => Ok((Constant::Character(*byte), rest)),
        [Symbol::Text(at, bytes), rest @ ..] => {
            let bytes = Items::from_slice(alloc, bytes.as_slice())?;
            Ok((Constant::Text(*at, bytes), rest))
        }
        [Symbol::Keyword(_, Keyword::Null), rest @ ..] => Ok((Constant::Null, rest)),
        [Symbol::Keyword(_, Keyword::Eof), rest @ ..] => Ok((Constant::Eof, rest)),
        [Symbol::Keyword(_, Keyword::MutexInitializer), rest @ ..] => {
            Ok((Constant::MutexInitializer, rest))
        }
        _ => Err(Fault::Syntax(symbols.len())),
    }
}

/// The initial value of a global, where it stands.
#[tactic(auto, unfolding(crate::specs::Reading::initial_at))]
pub(crate) fn initial(
    alloc: Global,
    symbols: &[Symbol],
) -> Result<(Option<Constant>, &[Symbol]), Fault>
    ensures read { Gives (λ x. (x.0, x.1.now)) result (initial_at symbols.now) }
    ensures shorter { IfOk result (λ x. length x.1.now ≤ length symbols.now) }
{
    if begins_sign(Sign::Assign, symbols) {
        let (constant, rest) = constant(alloc, behind_first(symbols))?;
        Ok((Some(constant), rest))
    } else {
        Ok((None, symbols))
    }
}
