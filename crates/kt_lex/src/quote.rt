ghost use Rattle.std.specs.Prelude.{◌≡◌, ◌<◌, false, length, IfOk, IfSome};
ghost use Rattle.std.specs.Option.{is_some, option_map};
ghost use Rattle.kt_lex.specs.Quotes.{body_length, escape_value, is_printable, is_plain_character, is_plain_in_string, begins_escape, value_at, character_in, bytes_in, character_value, string_value};

use std::alloc::{AllocError, Global};

/// How many bytes stand before the quote that closes on this line.
#[tactic(auto, unfolding(crate::specs::Quotes::body_length))]
pub(crate) fn body_length(quote: u8, bytes: &[u8]) -> Option<usize>
    ensures value { result ≡ body_length quote false bytes.now }
    ensures within { IfSome result (λ n. n < length bytes.now) }
{
    let mut escaped = false;
    for (i, byte) in bytes.iter().enumerate() {
        if *byte == b'\n' {
            return None;
        }
        if *byte == quote && !escaped {
            return Some(i);
        }
        escaped = begins_escape(escaped, *byte);
    }
    None
}

/// Whether the byte is a backslash that begins an escape: none such stands before it.
fn begins_escape(escaped: bool, byte: u8) -> bool
    ensures { result ≡ begins_escape escaped byte }
{
    byte == b'\\' && !escaped
}

/// What a backslash and a byte stand for.
#[tactic(auto, unfolding(crate::specs::Quotes::escape_value))]
fn escape_value(byte: u8) -> Option<u8>
    ensures { result ≡ escape_value byte }
{
    match byte {
        b'n' => Some(b'\n'),
        b't' => Some(b'\t'),
        b'r' => Some(b'\r'),
        b'0' => Some(0),
        b'\\' | b'\'' | b'"' => Some(byte),
        _ => None,
    }
}

/// Space and the graphic bytes of ASCII.
fn is_printable(byte: u8) -> bool
    ensures { result ≡ is_printable byte }
{
    byte == b' ' || byte.is_ascii_graphic()
}

#[tactic(auto, unfolding(crate::specs::Quotes::is_plain_character))]
fn is_plain_character(byte: u8) -> bool
    ensures { result ≡ is_plain_character byte }
{
    is_printable(byte) && byte != b'\'' && byte != b'\\'
}

#[tactic(auto, unfolding(crate::specs::Quotes::is_plain_in_string))]
fn is_plain_in_string(byte: u8) -> bool
    ensures { result ≡ is_plain_in_string byte }
{
    is_printable(byte) && byte != b'"' && byte != b'\\' || byte == b'\t' || byte >= 128
}

/// The byte that stands between the quotes of a character constant.
#[tactic(auto, unfolding(crate::specs::Quotes::character_in))]
pub(crate) fn character_in(body: &[u8]) -> Option<u8>
    ensures { result ≡ character_in body.now }
{
    match body {
        [byte] if is_plain_character(*byte) => Some(*byte),
        [b'\\', byte] => escape_value(*byte),
        _ => None,
    }
}

/// What a byte of a string stands for, with the backslash before it where there is one.
#[tactic(auto, unfolding(crate::specs::Quotes::value_at))]
fn value_at(escaped: bool, byte: u8) -> Option<u8>
    ensures { result ≡ value_at escaped byte }
{
    if escaped {
        escape_value(byte)
    } else if is_plain_in_string(byte) {
        Some(byte)
    } else {
        None
    }
}

/// Whether bytes may stand between the quotes of a string.
#[tactic(auto, unfolding(crate::specs::Quotes::bytes_in))]
pub(crate) fn is_string_body(body: &[u8]) -> bool
    ensures { result ≡ is_some (bytes_in false body.now) }
{
    let mut escaped = false;
    for byte in body {
        let begins = begins_escape(escaped, *byte);
        if !begins && value_at(escaped, *byte).is_none() {
            return false;
        }
        escaped = begins;
    }
    !escaped
}

/// The byte of a character constant, or none where the spelling is none.
#[tactic(auto, unfolding(crate::specs::Quotes::character_value))]
pub fn character_of(spelling: &[u8]) -> Option<u8>
    ensures { result ≡ character_value spelling.now }
{
    match spelling {
        [_, body @ .., _] => character_in(body),
        _ => None,
    }
}

/// The bytes of a string without the zero at its end, or none where the spelling is no string.
#[tactic(auto, unfolding(crate::specs::Quotes::string_value))]
pub fn string_of(alloc: Global, spelling: &[u8]) -> Result<Option<Vec<u8>>, AllocError>
    ensures { IfOk result (λ text. option_map (λ v. v.items) text ≡ string_value spelling.now) }
{
    match spelling {
        [_, body @ .., _] => bytes_in(alloc, body),
        _ => Ok(None),
    }
}

#[tactic(auto, unfolding(crate::specs::Quotes::bytes_in))]
fn bytes_in(alloc: Global, body: &[u8]) -> Result<Option<Vec<u8>>, AllocError>
    ensures { IfOk result (λ text. option_map (λ v. v.items) text ≡ bytes_in false body.now) }
{
    let mut bytes = Vec::new(alloc);
    let mut escaped = false;
    for byte in body {
        let begins = begins_escape(escaped, *byte);
        if !begins {
            let Some(value) = value_at(escaped, *byte) else {
                return Ok(None);
            };
            bytes.push(value)?;
        }
        escaped = begins;
    }
    Ok(if escaped { None } else { Some(bytes) })
}
