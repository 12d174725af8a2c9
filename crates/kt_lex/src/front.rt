ghost use Rattle.std.specs.Prelude.{◌≡◌, ◌<◌, ◌+◌, ◌^◌, length, false};
ghost use Rattle.std.specs.Option.{is_some};
ghost use Rattle.kt_lex.specs.Bytes.{apostrophe, double_quote};
ghost use Rattle.kt_lex.specs.Quotes.{character_in, bytes_in};
ghost use Rattle.kt_lex.specs.Tokens.{front, comment, directive, number, name, rule_word, quoted, sign, size_of};

use super::bytes::{is_blank, is_word_byte};
use super::gap::{comment_length, is_include, line_length};
use super::number::number_of;
use super::quote::{body_length, character_in, is_string_body};
use super::token::{Kind, LexFault};
use super::word::{is_keyword, is_rule_word, sign_length, word_length};

/// What stands at the front of a rest, and how many bytes it has.
#[derive(Clone, Copy)]
pub(crate) enum Piece {
    /// A blank, a comment or a skipped line.
    Gap(usize),
    Word(Kind, usize),
}

impl Piece {
    pub(crate) fn size(self) -> usize
        ensures { result ≡ size_of self }
    {
        match self {
            Piece::Gap(size) | Piece::Word(_, size) => size,
        }
    }
}

/// The front of the bytes, which stand at `at`; `indented`: only spaces and tabs stand before them on their line.
#[tactic(auto, unfolding(crate::specs::Tokens::front))]
pub(crate) fn front(at: u32, indented: bool, bytes: &[u8]) -> Result<Piece, LexFault>
    requires { 0 < length bytes.now }
    ensures { result ≡ front at indented bytes.now }
{
    let first = bytes[0];
    if is_blank(first) {
        Ok(Piece::Gap(1))
    } else if bytes.starts_with(b"//") {
        Ok(Piece::Gap(line_length(bytes)))
    } else if bytes.starts_with(b"/*") {
        comment(at, bytes)
    } else if first == b'#' {
        directive(at, indented, bytes)
    } else if first.is_ascii_digit() {
        number(at, bytes)
    } else if is_word_byte(first) {
        Ok(name(bytes))
    } else if first == b'$' {
        rule_word(at, bytes)
    } else if first == b'\'' {
        character(at, bytes)
    } else if first == b'"' {
        string(at, bytes)
    } else {
        sign(at, bytes)
    }
}

#[tactic(auto, unfolding(crate::specs::Tokens::comment))]
fn comment(at: u32, bytes: &[u8]) -> Result<Piece, LexFault>
    requires { 1 < length bytes.now }
    ensures { result ≡ comment at bytes.now }
{
    match comment_length(&bytes[2..]) {
        Some(size) => Ok(Piece::Gap(size + 4)),
        None => Err(LexFault::Unclosed { at }),
    }
}

#[tactic(auto, unfolding(crate::specs::Tokens::directive))]
fn directive(at: u32, indented: bool, bytes: &[u8]) -> Result<Piece, LexFault>
    requires { 0 < length bytes.now }
    ensures { result ≡ directive at indented bytes.now }
{
    if !indented {
        Err(LexFault::Byte { at })
    } else if is_include(&bytes[1..]) {
        Ok(Piece::Gap(line_length(bytes)))
    } else {
        Err(LexFault::Directive { at })
    }
}

#[tactic(auto, unfolding(crate::specs::Tokens::number))]
fn number(at: u32, bytes: &[u8]) -> Result<Piece, LexFault>
    ensures { result ≡ number at bytes.now }
{
    let size = word_length(bytes);
    if number_of(&bytes[..size]).is_some() {
        Ok(Piece::Word(Kind::Number, size))
    } else {
        Err(LexFault::Literal { at })
    }
}

#[tactic(auto, unfolding(crate::specs::Tokens::name))]
fn name(bytes: &[u8]) -> Piece
    ensures { result ≡ name bytes.now }
{
    let size = word_length(bytes);
    if is_keyword(&bytes[..size]) {
        Piece::Word(Kind::Keyword, size)
    } else {
        Piece::Word(Kind::Identifier, size)
    }
}

#[tactic(auto, unfolding(crate::specs::Tokens::rule_word))]
fn rule_word(at: u32, bytes: &[u8]) -> Result<Piece, LexFault>
    requires { 0 < length bytes.now }
    ensures { result ≡ rule_word at bytes.now }
{
    let size = word_length(&bytes[1..]);
    if is_rule_word(&bytes[1..1 + size]) {
        Ok(Piece::Word(Kind::RuleWord, 1 + size))
    } else {
        Err(LexFault::Byte { at })
    }
}

#[tactic(auto, unfolding(crate::specs::Tokens::quoted))]
fn character(at: u32, bytes: &[u8]) -> Result<Piece, LexFault>
    requires { 0 < length bytes.now }
    ensures { result ≡ quoted at Kind.Character apostrophe (λ body. is_some (character_in body)) bytes.now }
{
    match body_length(b'\'', &bytes[1..]) {
        None => Err(LexFault::Unclosed { at }),
        Some(size) if character_in(&bytes[1..1 + size]).is_some() => {
            Ok(Piece::Word(Kind::Character, size + 2))
        }
        Some(_) => Err(LexFault::Literal { at }),
    }
}

#[tactic(auto, unfolding(crate::specs::Tokens::quoted))]
fn string(at: u32, bytes: &[u8]) -> Result<Piece, LexFault>
    requires { 0 < length bytes.now }
    ensures { result ≡ quoted at Kind.Text double_quote (λ body. is_some (bytes_in false body)) bytes.now }
{
    match body_length(b'"', &bytes[1..]) {
        None => Err(LexFault::Unclosed { at }),
        Some(size) if is_string_body(&bytes[1..1 + size]) => Ok(Piece::Word(Kind::Text, size + 2)),
        Some(_) => Err(LexFault::Literal { at }),
    }
}

#[tactic(auto, unfolding(crate::specs::Tokens::sign))]
fn sign(at: u32, bytes: &[u8]) -> Result<Piece, LexFault>
    ensures { result ≡ sign at bytes.now }
{
    match sign_length(bytes) {
        0 => Err(LexFault::Byte { at }),
        size => Ok(Piece::Word(Kind::Sign, size)),
    }
}
