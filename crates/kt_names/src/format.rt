//! The format of `printf` (ISO/IEC 9899:2011, 7.21.6.1): `%d`, `%ld`, `%c`, `%s` and `%%` alone.

ghost use Rattle.std.specs.Prelude.{◌≡◌};
ghost use Rattle.std.specs.Option.{option_map};
ghost use Rattle.kt_names.specs.declared.fault.CheckFault.TheVariants.{BadType};
ghost use Rattle.kt_names.specs.Checked.{found};
ghost use Rattle.kt_names.specs.Formats.{short_piece, long_piece, percent_piece, first_piece, format_of};
ghost use Rattle.kt_names.specs.Judges.{Judges};

use crate::fault::CheckFault;
use sqlite_items::Items;
use std::alloc::Global;

/// A piece of a format: a plain byte, or a conversion.
#[derive(Clone, Copy)]
pub enum Conversion {
    Plain(u8),
    Decimal,
    LongDecimal,
    Byte,
    Text,
}

/// A conversion of one letter, or `%%`.
fn short_piece(c: u8) -> Option<Conversion>
    ensures { result ≡ short_piece c }
{
    if c == b'd' {
        return Some(Conversion::Decimal);
    }
    if c == b'c' {
        return Some(Conversion::Byte);
    }
    if c == b's' {
        return Some(Conversion::Text);
    }
    if c == b'%' {
        return Some(Conversion::Plain(b'%'));
    }
    None
}

/// The piece of a format that begins with `%l`, and what is behind it.
fn long_piece(format: &[u8]) -> Option<(Conversion, &[u8])>
    ensures { option_map (λ p. (p.0, p.1.now)) result ≡ long_piece format.now }
{
    match format.split_first() {
        None => None,
        Some((d, rest)) => {
            if *d == b'd' {
                Some((Conversion::LongDecimal, rest))
            } else {
                None
            }
        }
    }
}

/// The piece of a format that begins with `%`, and what is behind it.
fn percent_piece(format: &[u8]) -> Option<(Conversion, &[u8])>
    ensures { option_map (λ p. (p.0, p.1.now)) result ≡ percent_piece format.now }
{
    match format.split_first() {
        None => None,
        Some((c, rest)) => {
            if *c == b'l' {
                return long_piece(rest);
            }
            match short_piece(*c) {
                None => None,
                Some(piece) => Some((piece, rest)),
            }
        }
    }
}

/// The first piece of a format, and what is behind it.
fn first_piece(format: &[u8]) -> Option<(Conversion, &[u8])>
    ensures { option_map (λ p. (p.0, p.1.now)) result ≡ first_piece format.now }
{
    match format.split_first() {
        None => None,
        Some((b, rest)) => {
            if *b == b'%' {
                percent_piece(rest)
            } else {
                Some((Conversion::Plain(*b), rest))
            }
        }
    }
}

/// The pieces of a format; a fault where it has another conversion.
pub fn format_of(alloc: Global, up: u32, format: &[u8]) -> Result<Items<Conversion>, CheckFault>
    ensures { Judges (λ pieces. pieces) result (found (format_of format.now) (BadType up)) }
{
    let mut pieces = Items::new(alloc);
    let mut rest = format;
    while !rest.is_empty() {
        match first_piece(rest) {
            None => return Err(CheckFault::BadType { at: up }),
            Some((piece, behind)) => {
                pieces.push(piece)?;
                rest = behind;
            }
        }
    }
    Ok(pieces)
}
