//! Reading symbols from the left.

ghost use Rattle.std.specs.Prelude.{◌≡◌, ◌<◌, ◌≤◌, ◌-◌, true, length, drop, IfOk};
ghost use Rattle.kt_grammar.specs.Cursor.{Gives, begins_sign, behind, name_at, count_sign};

use super::fault::Fault;
use super::sign::Sign;
use super::sign_of::same_sign;
use super::symbol::Symbol;
use super::tree::Name;

/// Whether the first symbol is this sign.
#[tactic(auto, unfolding(crate::specs::Cursor::begins_sign))]
pub fn begins_sign(sign: Sign, symbols: &[Symbol]) -> bool
    ensures value { result ≡ begins_sign sign symbols.now }
    ensures some { result ≡ true → 0 < length symbols.now }
{
    match symbols {
        [Symbol::Sign(_, first), ..] => same_sign(*first, sign),
        _ => false,
    }
}

/// The symbols behind the first.
pub fn behind_first(symbols: &[Symbol]) -> &[Symbol]
    ensures value { result.now ≡ drop 1 symbols.now }
    ensures shorter { length result.now ≡ length symbols.now - 1 }
{
    match symbols {
        [] => symbols,
        [_, rest @ ..] => rest,
    }
}

/// The symbols behind this sign.
#[tactic(auto, unfolding(crate::specs::Cursor::behind))]
pub fn behind(sign: Sign, symbols: &[Symbol]) -> Result<&[Symbol], Fault>
    ensures read { Gives (λ x. x.now) result (behind sign symbols.now) }
    ensures shorter { IfOk result (λ x. length x.now < length symbols.now) }
{
    if begins_sign(sign, symbols) {
        Ok(behind_first(symbols))
    } else {
        Err(Fault::Syntax(symbols.len()))
    }
}

/// The name at the front, and the symbols behind it.
#[tactic(auto, unfolding(crate::specs::Cursor::name_at))]
pub fn name(symbols: &[Symbol]) -> Result<(Name, &[Symbol]), Fault>
    ensures read { Gives (λ x. (x.0, x.1.now)) result (name_at symbols.now) }
    ensures shorter { IfOk result (λ x. length x.1.now < length symbols.now) }
{
    match symbols {
        [Symbol::Name(at, word), rest @ ..] => {
            let word = word.clone()?;
            Ok((Name { at: *at, word }, rest))
        }
        _ => Err(Fault::Syntax(symbols.len())),
    }
}

/// How many of this sign stand at the front.
#[tactic(auto, unfolding(crate::specs::Cursor::count_sign))]
pub fn count_sign(sign: Sign, symbols: &[Symbol]) -> usize
    ensures value { result ≡ count_sign sign symbols.now }
    ensures within { result ≤ length symbols.now }
{
    let mut count = 0;
    let mut rest = symbols;
    while begins_sign(sign, rest) {
        rest = behind_first(rest);
        count += 1;
    }
    count
}
