//! The symbols of tokens.

ghost use Rattle.std.specs.Prelude.{◌≡◌, IfOk, if◌then◌else◌};
ghost use Rattle.kt_lex.specs.Quotes.{string_value};
ghost use Rattle.kt_grammar.specs.Identifiers.{is_identifier};
ghost use Rattle.kt_grammar.specs.Symbols.{spelling_of, or_other, spelled, symbol_of, symbols_of_tokens};

use super::spelled::{keyword_of, rule_word_of, sign_of};
use super::symbol::Symbol;
use super::word::Word;
use kt_lex::{Kind, Token, character_of, number_of, string_of};
use sqlite_items::Items;
use std::alloc::{AllocError, Global};

/// The bytes of a token.
#[tactic(auto, unfolding(crate::specs::Symbols::spelling_of))]
fn spelling<'t>(token: &Token, bytes: &'t [u8]) -> &'t [u8]
    ensures { result.now ≡ spelling_of bytes.now token.now }
{
    let behind = bytes.get(token.at as usize..).unwrap_or(&[]);
    let length = token.end.saturating_sub(token.at);
    behind.get(..length as usize).unwrap_or(behind)
}

/// The name that is spelled so.
fn named(alloc: Global, at: u32, word: &[u8]) -> Result<Symbol, AllocError>
    ensures { IfOk result (λ s. s ≡ (if is_identifier word.now then Symbol.Name at word.now else Symbol.Other at)) }
{
    let bytes = Vec::from_slice(alloc, word)?;
    Ok(match Word::new(bytes) {
        Some(word) => Symbol::Name(at, word),
        None => Symbol::Other(at),
    })
}

/// The string that is spelled so.
fn text(alloc: Global, at: u32, word: &[u8]) -> Result<Symbol, AllocError>
    ensures { IfOk result (λ s. s ≡ or_other at Symbol.Text (string_value word.now)) }
{
    Ok(match string_of(alloc, word)? {
        Some(bytes) => Symbol::Text(at, Items::from_vec(bytes)),
        None => Symbol::Other(at),
    })
}

/// What a spelling of a kind stands for.
#[tactic(auto, unfolding(crate::specs::Symbols::spelled))]
fn spelled(alloc: Global, at: u32, kind: Kind, word: &[u8]) -> Result<Symbol, AllocError>
    ensures { IfOk result (λ s. s ≡ spelled at kind word.now) }
{
    let found = match kind {
        Kind::Identifier => return named(alloc, at, word),
        Kind::Text => return text(alloc, at, word),
        Kind::Keyword => keyword_of(word).map(|keyword| Symbol::Keyword(at, keyword)),
        Kind::Number => number_of(word).map(|number| Symbol::Number(at, number)),
        Kind::Character => character_of(word).map(|byte| Symbol::Character(at, byte)),
        Kind::RuleWord => rule_word_of(word).map(|word| Symbol::RuleWord(at, word)),
        Kind::Sign => sign_of(word).map(|sign| Symbol::Sign(at, sign)),
    };
    Ok(found.unwrap_or(Symbol::Other(at)))
}

/// What the tokens of a text stand for.
#[tactic(auto, unfolding(crate::specs::Symbols::symbol_of))]
pub fn symbols(alloc: Global, tokens: &[Token], bytes: &[u8]) -> Result<Vec<Symbol>, AllocError>
    ensures { IfOk result (λ symbols. symbols.items ≡ symbols_of_tokens bytes.now tokens.now) }
{
    let mut symbols = Vec::new(alloc);
    for token in tokens {
        let word = spelling(token, bytes);
        symbols.push(spelled(alloc, token.at, token.kind, word)?)?;
    }
    Ok(symbols)
}
