//! Calls of `printf` (ISO/IEC 9899:2011, 7.21.6.3).

ghost use Rattle.std.specs.Prelude.{◌≡◌, ◌++◌, ◌∷◌, [], List, drop, Ok, IfOk, IfErr};
ghost use Rattle.std.specs.Option.{option_map};
ghost use Rattle.kt_tree.specs.Tree.{Expressions};
ghost use Rattle.kt_tree.specs.declared.expr.Request.TheVariants as request;
ghost use Rattle.kt_names.specs.declared.format.Conversion.{Conversion};
ghost use Rattle.kt_names.specs.declared.fault.CheckFault.TheVariants.{NoMemory};
ghost use Rattle.kt_names.specs.Checked.{and_then};
ghost use Rattle.kt_names.specs.Types.{int};
ghost use Rattle.kt_names.specs.Judges.{Judges};
ghost use Rattle.kt_names.specs.Views.{environment_of, operand_of};
ghost use Rattle.kt_names.specs.Builtins.{gives, with_bytes, parts_of, format_values, printed};
ghost use Rattle.kt_terms.specs.Arguments.{TypedArguments, AreJudged, wanted_by, in_order};
ghost use Rattle.kt_terms.specs.Spellings.{spelled};
ghost use Rattle.kt_terms.specs.Specials.{printed_by};

use crate::argument::{Argument, Wanted};
use crate::spelling::Spelling;
use crate::taken::behind_first;
use crate::wanted::all_wanted;
use kt_names::ctype::CType;
use kt_names::environment::Environment;
use kt_names::fault::CheckFault;
use kt_names::format::{Conversion, format_of};
use kt_names::node;
use kt_names::operand::Operand;
use kt_tree::{Expr, Part, Request};
use sqlite_items::Items;
use std::alloc::{AllocError, Global};

/// What the pieces so far are written by: the parts, and the plain bytes behind them.
#[derive(Drop)]
struct Writing {
    parts: Items<Part>,
    plain: Items<u8>,
}

/// What is wanted, and what a piece of a format wants.
fn with_wanted_by(mut wanted: Items<Wanted>, piece: Conversion) -> Result<Items<Wanted>, AllocError>
    ensures { IfOk result (λ ws. ws ≡ wanted ++ wanted_by (piece ∷ [])) }
{
    match piece {
        Conversion::Plain(_) => Ok(wanted),
        Conversion::Decimal => pushed(wanted, Wanted::Piece(piece)),
        Conversion::LongDecimal => pushed(wanted, Wanted::Piece(piece)),
        Conversion::Byte => pushed(wanted, Wanted::Piece(piece)),
        Conversion::Text => pushed(wanted, Wanted::Piece(piece)),
    }
}

/// What is wanted, and one thing more.
fn pushed(mut wanted: Items<Wanted>, more: Wanted) -> Result<Items<Wanted>, AllocError>
    ensures { IfOk result (λ ws. ws ≡ wanted ++ more ∷ []) }
{
    wanted.push(more)?;
    Ok(wanted)
}

/// What the pieces of a format want.
fn wanted_by(alloc: Global, pieces: &[Conversion]) -> Result<Items<Wanted>, AllocError>
    ensures { IfOk result (λ ws. ws ≡ wanted_by pieces.now) }
{
    let mut wanted = Items::new(alloc);
    for piece in pieces {
        wanted = with_wanted_by(wanted, *piece)?;
    }
    Ok(wanted)
}

/// The parts, with the plain bytes, if there are any, as one more.
fn with_plain(writing: Writing) -> Result<Items<Part>, AllocError>
    ensures { IfOk result (λ ps. ps ≡ writing.parts ++ with_bytes writing.plain []) }
{
    let Writing { mut parts, plain } = writing;
    if !plain.is_empty() {
        parts.push(Part::Bytes(plain))?;
    }
    Ok(parts)
}

/// What is written with one more part.
fn with_part(alloc: Global, writing: Writing, part: Part) -> Result<Writing, AllocError>
    ensures { IfOk result (λ w. (w.plain ≡ []) × (w.parts ≡ writing.parts ++ with_bytes writing.plain [] ++ part ∷ [])) }
{
    let mut parts = with_plain(writing)?;
    parts.push(part)?;
    Ok(Writing {
        parts,
        plain: Items::new(alloc),
    })
}

/// What is written with one more plain byte.
fn with_byte(writing: Writing, byte: u8) -> Result<Writing, AllocError>
    ensures { IfOk result (λ w. (w.plain ≡ writing.plain ++ byte ∷ []) × (w.parts ≡ writing.parts)) }
{
    let Writing { parts, mut plain } = writing;
    plain.push(byte)?;
    Ok(Writing { parts, plain })
}

/// What is written with one more piece of the format.
fn with_piece(alloc: Global, writing: Writing, piece: Conversion) -> Result<Writing, AllocError>
    ensures { IfOk result (λ w. (more : List Conversion) → w.parts ++ parts_of w.plain more ≡ writing.parts ++ parts_of writing.plain (piece ∷ more)) }
{
    match piece {
        Conversion::Plain(byte) => with_byte(writing, byte),
        Conversion::Decimal => with_part(alloc, writing, Part::Number),
        Conversion::LongDecimal => with_part(alloc, writing, Part::Number),
        Conversion::Byte => with_part(alloc, writing, Part::Byte),
        Conversion::Text => with_part(alloc, writing, Part::Text),
    }
}

/// The parts of a format.
fn parts_of(alloc: Global, pieces: &[Conversion]) -> Result<Items<Part>, AllocError>
    ensures { IfOk result (λ ps. ps ≡ parts_of [] pieces.now) }
{
    let mut writing = Writing {
        parts: Items::new(alloc),
        plain: Items::new(alloc),
    };
    for piece in pieces {
        writing = with_piece(alloc, writing, *piece)?;
    }
    with_plain(writing)
}

/// The call of a format's pieces and the values that they take.
fn printing(
    env: &Environment<'_>,
    pieces: &[Conversion],
    values: Items<Expr>,
) -> Result<Operand, CheckFault>
    ensures { Judges operand_of result (Ok (gives (environment_of env.now) (request.Print (parts_of [] pieces.now)) int (in_order values))) }
{
    let parts = parts_of(env.alloc, pieces)?;
    let ty = env.place(CType::int());
    let whole = node::requested_with(Request::Print(parts), Some(ty), values);
    Ok(Operand::Valued(CType::int(), whole))
}

/// The values that a format's pieces take of these arguments.
fn format_values(
    env: &Environment<'_>,
    up: u32,
    pieces: &[Conversion],
    arguments: Items<Argument>,
) -> Result<Items<Expr>, CheckFault>
    ensures { (specs : TypedArguments) → AreJudged arguments specs → Judges in_order result (format_values (environment_of env.now) up pieces.now specs) }
{
    match wanted_by(env.alloc, pieces) {
        Ok(wanted) => all_wanted(env, up, wanted.as_slice(), arguments),
        Err(_) => Err(CheckFault::NoMemory),
    }
}

/// The call of a format's pieces with these arguments.
fn printed_pieces(
    env: &Environment<'_>,
    up: u32,
    pieces: &[Conversion],
    arguments: Items<Argument>,
) -> Result<Operand, CheckFault>
    ensures { (specs : TypedArguments) → AreJudged arguments specs → Judges operand_of result (and_then (format_values (environment_of env.now) up pieces.now specs) (λ es. Ok (gives (environment_of env.now) (request.Print (parts_of [] pieces.now)) int es))) }
{
    match format_values(env, up, pieces, arguments) {
        Ok(values) => printing(env, pieces, values),
        Err(fault) => Err(fault),
    }
}

/// The call of a format with these arguments.
fn printed(
    env: &Environment<'_>,
    up: u32,
    format: &[u8],
    arguments: Items<Argument>,
) -> Result<Operand, CheckFault>
    ensures { (specs : TypedArguments) → AreJudged arguments specs → Judges operand_of result (printed (environment_of env.now) up format.now specs) }
{
    match format_of(env.alloc, up, format) {
        Ok(pieces) => printed_pieces(env, up, pieces.as_slice(), arguments),
        Err(fault) => Err(fault),
    }
}

/// The call of a format, which is the first of these arguments, with the others.
fn printed_with(
    env: &Environment<'_>,
    up: u32,
    format: &[u8],
    arguments: Items<Argument>,
) -> Result<Operand, CheckFault>
    ensures { (specs : TypedArguments) → AreJudged arguments specs → Judges operand_of result (printed (environment_of env.now) up format.now (drop 1 specs)) }
{
    printed(env, up, format, behind_first(arguments))
}

/// `printf`, whose first argument is written so.
pub(crate) fn printed_by(
    env: &Environment<'_>,
    up: u32,
    spelling: Option<Spelling<'_>>,
    arguments: Items<Argument>,
) -> Result<Operand, CheckFault>
    ensures { (specs : TypedArguments) → AreJudged arguments specs → Judges operand_of result (printed_by (environment_of env.now) up (option_map spelled spelling.entry) specs) }
{
    match spelling {
        None => Err(CheckFault::BadType { at: up }),
        Some(Spelling::Text(format)) => printed_with(env, up, format, arguments),
        Some(Spelling::Size(_, _)) => Err(CheckFault::BadType { at: up }),
        Some(Spelling::Name(_)) => Err(CheckFault::BadType { at: up }),
        Some(Spelling::Null) => Err(CheckFault::BadType { at: up }),
        Some(Spelling::Other) => Err(CheckFault::BadType { at: up }),
    }
}
