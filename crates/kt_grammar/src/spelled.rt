//! Which keyword, rule word or sign bytes spell, and whether they are an identifier.

ghost use Rattle.std.specs.Prelude.{◌≡◌, ◌&&◌, not};
ghost use Rattle.std.specs.Char.{is_ascii_digit};
ghost use Rattle.std.specs.List.{list_all};
ghost use Rattle.std.specs.Str.{bytes_eq};
ghost use Rattle.kt_lex.specs.Bytes.{is_word_byte};
ghost use Rattle.kt_lex.specs.Words.{is_among, keywords};
ghost use Rattle.kt_grammar.specs.Identifiers.{is_identifier};
ghost use Rattle.kt_grammar.specs.Symbols.{or_else, type_keyword, statement_keyword, other_keyword, keyword_of, rule_word_of, bracket_of, operator_of, before_equal, doubled, sign_of_two, sign_of};

use super::keyword::{Keyword, RuleWord};
use super::sign::Sign;

fn is(word: &[u8], spelling: &[u8]) -> bool
    ensures { result ≡ bytes_eq word.now spelling.now }
{
    word == spelling
}

#[tactic(auto, unfolding(crate::specs::Symbols::type_keyword))]
fn type_keyword(word: &[u8]) -> Option<Keyword>
    ensures { result ≡ type_keyword word.now }
{
    if is(b"char", word) {
        Some(Keyword::Char)
    } else if is(b"int", word) {
        Some(Keyword::Int)
    } else if is(b"long", word) {
        Some(Keyword::Long)
    } else if is(b"void", word) {
        Some(Keyword::Void)
    } else if is(b"struct", word) {
        Some(Keyword::Struct)
    } else if is(b"const", word) {
        Some(Keyword::Const)
    } else if is(b"static", word) {
        Some(Keyword::Static)
    } else {
        None
    }
}

#[tactic(auto, unfolding(crate::specs::Symbols::statement_keyword))]
fn statement_keyword(word: &[u8]) -> Option<Keyword>
    ensures { result ≡ statement_keyword word.now }
{
    if is(b"if", word) {
        Some(Keyword::If)
    } else if is(b"else", word) {
        Some(Keyword::Else)
    } else if is(b"while", word) {
        Some(Keyword::While)
    } else if is(b"do", word) {
        Some(Keyword::Do)
    } else if is(b"for", word) {
        Some(Keyword::For)
    } else if is(b"return", word) {
        Some(Keyword::Return)
    } else if is(b"break", word) {
        Some(Keyword::Break)
    } else if is(b"continue", word) {
        Some(Keyword::Continue)
    } else {
        None
    }
}

#[tactic(auto, unfolding(crate::specs::Symbols::other_keyword))]
fn other_keyword(word: &[u8]) -> Option<Keyword>
    ensures { result ≡ other_keyword word.now }
{
    if is(b"sizeof", word) {
        Some(Keyword::SizeOf)
    } else if is(b"pthread_mutex_t", word) {
        Some(Keyword::Mutex)
    } else if is(b"NULL", word) {
        Some(Keyword::Null)
    } else if is(b"EOF", word) {
        Some(Keyword::Eof)
    } else if is(b"PTHREAD_MUTEX_INITIALIZER", word) {
        Some(Keyword::MutexInitializer)
    } else if is(b"E_NOTELOCALS", word) {
        Some(Keyword::NoteLocals)
    } else if is(b"E_PTRARRAY", word) {
        Some(Keyword::PointerArray)
    } else if is(b"INIT", word) {
        Some(Keyword::Init)
    } else {
        None
    }
}

/// The keyword that is spelled so.
#[tactic(auto, unfolding(crate::specs::Symbols::keyword_of))]
pub(crate) fn keyword_of(word: &[u8]) -> Option<Keyword>
    ensures { result ≡ keyword_of word.now }
{
    if let Some(keyword) = type_keyword(word) {
        return Some(keyword);
    }
    if let Some(keyword) = statement_keyword(word) {
        return Some(keyword);
    }
    other_keyword(word)
}

/// The rule word that is spelled so.
#[tactic(auto, unfolding(crate::specs::Symbols::rule_word_of))]
pub(crate) fn rule_word_of(word: &[u8]) -> Option<RuleWord>
    ensures { result ≡ rule_word_of word.now }
{
    if is(b"$in", word) {
        Some(RuleWord::In)
    } else if is(b"$out", word) {
        Some(RuleWord::Out)
    } else if is(b"$base", word) {
        Some(RuleWord::Base)
    } else if is(b"$oldsym", word) {
        Some(RuleWord::OldSymbol)
    } else if is(b"$xform", word) {
        Some(RuleWord::Transform)
    } else if is(b"$new", word) {
        Some(RuleWord::New)
    } else {
        None
    }
}

fn is_word_byte(byte: u8) -> bool
    ensures { result ≡ is_word_byte byte }
{
    byte.is_ascii_alphanumeric() || byte == b'_'
}

fn are_word_bytes(word: &[u8]) -> bool
    ensures { result ≡ list_all is_word_byte word.now }
{
    word.iter().all(|byte| is_word_byte(*byte))
}

#[tactic(auto, using(crate::proofs::Words::words))]
fn is_known(word: &[u8]) -> bool
    ensures { result ≡ is_among keywords word.now }
{
    keyword_of(word).is_some()
}

/// Whether a word that begins with this byte is an identifier.
fn is_word(first: u8, word: &[u8]) -> bool
    ensures { result ≡ (not (is_ascii_digit first) && list_all is_word_byte word.now && not (is_among keywords word.now)) }
{
    if first.is_ascii_digit() {
        return false;
    }
    if !are_word_bytes(word) {
        return false;
    }
    !is_known(word)
}

/// Whether the bytes are an identifier.
pub fn is_identifier(word: &[u8]) -> bool
    ensures { result ≡ is_identifier word.now }
{
    match word {
        [] => false,
        [first, ..] => is_word(*first, word),
    }
}

#[tactic(auto, unfolding(crate::specs::Symbols::bracket_of))]
fn bracket_of(byte: u8) -> Option<Sign>
    ensures { result ≡ bracket_of byte }
{
    match byte {
        b'{' => Some(Sign::OpenBrace),
        b'}' => Some(Sign::CloseBrace),
        b'(' => Some(Sign::OpenParenthesis),
        b')' => Some(Sign::CloseParenthesis),
        b'[' => Some(Sign::OpenBracket),
        b']' => Some(Sign::CloseBracket),
        b';' => Some(Sign::Semicolon),
        b',' => Some(Sign::Comma),
        b'.' => Some(Sign::Dot),
        _ => None,
    }
}

#[tactic(auto, unfolding(crate::specs::Symbols::operator_of))]
fn operator_of(byte: u8) -> Option<Sign>
    ensures { result ≡ operator_of byte }
{
    match byte {
        b':' => Some(Sign::Colon),
        b'?' => Some(Sign::Question),
        b'=' => Some(Sign::Assign),
        b'<' => Some(Sign::Less),
        b'>' => Some(Sign::Greater),
        b'+' => Some(Sign::Plus),
        b'-' => Some(Sign::Minus),
        b'*' => Some(Sign::Star),
        b'/' => Some(Sign::Slash),
        b'%' => Some(Sign::Percent),
        b'!' => Some(Sign::Not),
        b'&' => Some(Sign::And),
        _ => None,
    }
}

/// What this byte and `=` are.
#[tactic(auto, unfolding(crate::specs::Symbols::before_equal))]
fn before_equal(byte: u8) -> Option<Sign>
    ensures { result ≡ before_equal byte }
{
    match byte {
        b'=' => Some(Sign::Equal),
        b'!' => Some(Sign::NotEqual),
        b'<' => Some(Sign::LessEqual),
        b'>' => Some(Sign::GreaterEqual),
        b'+' => Some(Sign::PlusAssign),
        b'-' => Some(Sign::MinusAssign),
        b'*' => Some(Sign::StarAssign),
        b'/' => Some(Sign::SlashAssign),
        b'%' => Some(Sign::PercentAssign),
        _ => None,
    }
}

/// What two of this byte are.
#[tactic(auto, unfolding(crate::specs::Symbols::doubled))]
fn doubled(byte: u8) -> Option<Sign>
    ensures { result ≡ doubled byte }
{
    match byte {
        b':' => Some(Sign::DoubleColon),
        b'+' => Some(Sign::PlusPlus),
        b'-' => Some(Sign::MinusMinus),
        b'&' => Some(Sign::AndAnd),
        b'|' => Some(Sign::OrOr),
        _ => None,
    }
}

#[tactic(auto, unfolding(crate::specs::Symbols::sign_of_two))]
fn sign_of_two(a: u8, b: u8) -> Option<Sign>
    ensures { result ≡ sign_of_two a b }
{
    if b == b'=' {
        before_equal(a)
    } else if a == b {
        doubled(a)
    } else if a == b'-' && b == b'>' {
        Some(Sign::Arrow)
    } else {
        None
    }
}

fn sign_of_one(byte: u8) -> Option<Sign>
    ensures { result ≡ or_else (bracket_of byte) (operator_of byte) }
{
    match bracket_of(byte) {
        Some(sign) => Some(sign),
        None => operator_of(byte),
    }
}

/// The sign that is spelled so.
#[tactic(auto, unfolding(crate::specs::Symbols::sign_of))]
pub(crate) fn sign_of(word: &[u8]) -> Option<Sign>
    ensures { result ≡ sign_of word.now }
{
    match word {
        [a] => sign_of_one(*a),
        [a, b] => sign_of_two(*a, *b),
        _ => None,
    }
}
