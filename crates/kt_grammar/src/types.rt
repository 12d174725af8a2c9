//! Types at the front of the symbols.

ghost use Rattle.std.specs.Prelude.{◌≡◌, ◌<◌, ◌≤◌, length, IfOk};
ghost use Rattle.kt_grammar.specs.Cursor.{Gives};
ghost use Rattle.kt_grammar.specs.Reading.{begins_base, behind_const, bare_base_at, base_at, type_at, between_at};

use super::cursor::{behind, count_sign, name};
use super::fault::{Fault, beside};
use super::keyword::Keyword;
use super::sign::Sign;
use super::symbol::Symbol;
use super::tree::{Base, TypeName};

/// Whether a type begins with the first symbol.
#[tactic(auto, unfolding(crate::specs::Reading::begins_base))]
pub fn begins_base(symbols: &[Symbol]) -> bool
    ensures { result ≡ begins_base symbols.now }
{
    match symbols {
        [Symbol::Keyword(_, word), ..] => matches!(
            word,
            Keyword::Const
                | Keyword::Char
                | Keyword::Int
                | Keyword::Long
                | Keyword::Mutex
                | Keyword::Struct
        ),
        _ => false,
    }
}

#[tactic(auto, unfolding(crate::specs::Reading::behind_const))]
fn behind_const(symbols: &[Symbol]) -> &[Symbol]
    ensures value { result.now ≡ behind_const symbols.now }
    ensures shorter { length result.now ≤ length symbols.now }
{
    match symbols {
        [Symbol::Keyword(_, Keyword::Const), rest @ ..] => rest,
        _ => symbols,
    }
}

/// A type without stars and without a `const` before it.
#[tactic(auto, unfolding(crate::specs::Reading::bare_base_at))]
pub fn bare_base(symbols: &[Symbol]) -> Result<(Base, &[Symbol]), Fault>
    ensures read { Gives (λ x. (x.0, x.1.now)) result (bare_base_at symbols.now) }
    ensures shorter { IfOk result (λ x. length x.1.now < length symbols.now) }
{
    match symbols {
        [Symbol::Keyword(_, Keyword::Char), rest @ ..] => Ok((Base::Char, rest)),
        [Symbol::Keyword(_, Keyword::Int), rest @ ..] => Ok((Base::Int, rest)),
        [Symbol::Keyword(_, Keyword::Long), rest @ ..] => Ok((Base::Long, rest)),
        [Symbol::Keyword(_, Keyword::Mutex), rest @ ..] => Ok((Base::Mutex, rest)),
        [Symbol::Keyword(_, Keyword::Struct), rest @ ..] => {
            let (name, rest) = name(rest)?;
            Ok((Base::Struct(name), rest))
        }
        _ => Err(Fault::Syntax(symbols.len())),
    }
}

/// A type without stars, with or without `const`.
pub fn base(symbols: &[Symbol]) -> Result<(Base, &[Symbol]), Fault>
    ensures read { Gives (λ x. (x.0, x.1.now)) result (base_at symbols.now) }
    ensures shorter { IfOk result (λ x. length x.1.now < length symbols.now) }
{
    bare_base(behind_const(symbols))
}

/// A type name, as in a cast.
pub fn type_name(symbols: &[Symbol]) -> Result<(TypeName, &[Symbol]), Fault>
    ensures read { Gives (λ x. (x.0, x.1.now)) result (type_at symbols.now) }
    ensures shorter { IfOk result (λ x. length x.1.now < length symbols.now) }
{
    let (base, rest) = base(symbols)?;
    let stars = count_sign(Sign::Star, rest);
    Ok((TypeName { base, stars }, &rest[stars..]))
}

/// A type name in parentheses.
pub(crate) fn between(symbols: &[Symbol]) -> Result<(TypeName, &[Symbol]), Fault>
    ensures read { Gives (λ x. (x.0, x.1.now)) result (between_at symbols.now) }
    ensures shorter { IfOk result (λ x. length x.1.now < length symbols.now) }
{
    let inner = behind(Sign::OpenParenthesis, symbols)?;
    let (type_name, rest) = type_name(inner)?;
    beside(type_name, behind(Sign::CloseParenthesis, rest))
}
