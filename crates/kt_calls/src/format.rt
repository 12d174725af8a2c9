//! The format of `printf` (ISO/IEC 9899:2011, 7.21.6.1): `%d`, `%ld`, `%c`, `%s` and `%%` alone.

ghost use Rattle.std.specs.Prelude.{◌≡◌, ◌≤◌, ◌++◌, ◌∷◌, [], List, ℕ, length, IfOk};
ghost use Rattle.kt_typing.specs.declared.format.Conversion.{Conversion};
ghost use Rattle.kt_typing.specs.Formats.{format_from, format_of, taken_by, is_taken, are_taken};
ghost use Rattle.std.specs.Option.{option_map};
ghost use Rattle.kt_calls.specs.declared.format.Standpoint.TheVariants as standpoint;
ghost use Rattle.kt_operands.specs.Views.{scope_of};
ghost use Rattle.kt_calls.specs.Standpoints.{standpoint_of, read_so, with_piece, are_taken_behind};

use kt_operands::environment::Environment;
use kt_operands::types::{CHAR, LONG};
use kt_typing::Conversion;
use std::alloc::{AllocError, Global};

/// Where reading stands in a format: between pieces, behind `%`, behind `%l`.
#[derive(Clone, Copy)]
pub enum Standpoint {
    Between,
    Percent,
    Long,
}

// What a byte behind `%` is: a piece, or the first of two letters.
fn behind_percent(b: u8) -> Option<(Option<Conversion>, Standpoint)>
    ensures { (rest : List ℕ) → read_so result rest ≡ format_from (standpoint_of standpoint.Percent) (b ∷ rest) }
{
    match b {
        b'd' => Some((Some(Conversion::Decimal), Standpoint::Between)),
        b'c' => Some((Some(Conversion::Byte), Standpoint::Between)),
        b's' => Some((Some(Conversion::Text), Standpoint::Between)),
        b'%' => Some((Some(Conversion::Plain(b'%')), Standpoint::Between)),
        b'l' => Some((None, Standpoint::Long)),
        _ => None,
    }
}

// What a byte is at a standpoint: a piece, or a step to another standpoint; none where it is no conversion.
fn read(standpoint: Standpoint, b: u8) -> Option<(Option<Conversion>, Standpoint)>
    ensures { (rest : List ℕ) → read_so result rest ≡ format_from (standpoint_of standpoint) (b ∷ rest) }
{
    match standpoint {
        Standpoint::Between => {
            if b == b'%' {
                Some((None, Standpoint::Percent))
            } else {
                Some((Some(Conversion::Plain(b)), Standpoint::Between))
            }
        }
        Standpoint::Percent => behind_percent(b),
        Standpoint::Long => {
            if b == b'd' {
                Some((Some(Conversion::LongDecimal), Standpoint::Between))
            } else {
                None
            }
        }
    }
}

// The pieces, and one more.
fn pushed(mut pieces: Vec<Conversion>, piece: Conversion) -> Result<Vec<Conversion>, AllocError>
    ensures { IfOk result (λ ps. ps.items ≡ pieces.items ++ piece ∷ []) }
{
    pieces.push(piece)?;
    Ok(pieces)
}

// The pieces, and one more, where there is one.
fn with_piece(
    pieces: Vec<Conversion>,
    piece: Option<Conversion>,
) -> Result<Vec<Conversion>, AllocError>
    ensures { IfOk result (λ ps. ps.items ≡ with_piece pieces.items piece) }
{
    match piece {
        Some(piece) => pushed(pieces, piece),
        None => Ok(pieces),
    }
}

/// The pieces of a format, where it has no other conversion.
pub(crate) fn format_of(alloc: Global, format: &[u8]) -> Result<Option<Vec<Conversion>>, AllocError>
    ensures { IfOk result (λ pieces. option_map (λ cs. cs.items) pieces ≡ format_of format.now) }
{
    let mut pieces = Vec::new(alloc);
    let mut standpoint = Standpoint::Between;
    for b in format {
        match read(standpoint, *b) {
            None => return Ok(None),
            Some((piece, next)) => {
                pieces = with_piece(pieces, piece)?;
                standpoint = next;
            }
        }
    }
    match standpoint {
        Standpoint::Between => Ok(Some(pieces)),
        Standpoint::Percent => Ok(None),
        Standpoint::Long => Ok(None),
    }
}

// How many arguments a piece takes.
fn taken_by_one(piece: Conversion) -> usize
    ensures { result ≡ taken_by (piece ∷ []) }
{
    match piece {
        Conversion::Plain(_) => 0,
        Conversion::Decimal => 1,
        Conversion::LongDecimal => 1,
        Conversion::Byte => 1,
        Conversion::Text => 1,
    }
}

/// How many arguments the pieces take.
pub(crate) fn taken_by(pieces: &[Conversion]) -> usize
    ensures taken { result ≡ taken_by pieces.now }
    ensures at_most { result ≤ length pieces.now }
{
    let mut taken = 0;
    for piece in pieces {
        taken += taken_by_one(*piece);
    }
    taken
}

// The piece takes an argument of the type.
fn is_taken(env: &Environment<'_>, piece: Conversion, t: u32) -> bool
    ensures { result ≡ is_taken (scope_of env.now) piece t }
{
    match piece {
        Conversion::Plain(_) => false,
        Conversion::Decimal => env.is_integer(t) && t != LONG,
        Conversion::LongDecimal => t == LONG,
        Conversion::Byte => env.is_integer(t) && t != LONG,
        Conversion::Text => env.points_to(t, CHAR),
    }
}

// The types that a piece leaves; none where it doesn't take the first.
fn behind<'t>(env: &Environment<'_>, piece: Conversion, types: &'t [u32]) -> Option<&'t [u32]>
    ensures { (more : List Conversion) → are_taken_behind (scope_of env.now) more (option_map (λ rest. rest.now) result) ≡ are_taken (scope_of env.now) (piece ∷ more) types.now }
{
    match piece {
        Conversion::Plain(_) => Some(types),
        _ => match types {
            [t, rest @ ..] => {
                if is_taken(env, piece, *t) {
                    Some(rest)
                } else {
                    None
                }
            }
            _ => None,
        },
    }
}

/// Each piece but the plain ones takes one argument, of its types.
pub(crate) fn are_taken(env: &Environment<'_>, pieces: &[Conversion], types: &[u32]) -> bool
    ensures { result ≡ are_taken (scope_of env.now) pieces.now types.now }
{
    let mut rest = types;
    for piece in pieces {
        match behind(env, *piece, rest) {
            Some(behind) => rest = behind,
            None => return false,
        }
    }
    rest.is_empty()
}
