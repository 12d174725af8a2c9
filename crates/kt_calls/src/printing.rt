//! Calls of `printf` (ISO/IEC 9899:2011, 7.21.6.3).

ghost use Rattle.std.specs.Prelude.{◌≡◌, ◌++◌, ◌∷◌, [], List, Some, IfOk};
ghost use Rattle.kt_typing.specs.declared.format.Conversion.{Conversion};
ghost use Rattle.kt_typing.specs.Formats.{with_bytes, parts_of};
ghost use Rattle.kt_typing.specs.Calls.{plain_values, written};
ghost use Rattle.kt_operands.specs.Judged.{Follows};
ghost use Rattle.kt_operands.specs.Views.{environment_of, scope_of, operand_of};
ghost use Rattle.kt_calls.specs.Arguments.{operands_of, values_of};

use crate::argument::Answer;
use crate::format::are_taken;
use crate::values::{Apart, plain_values, set_apart};
use kt_operands::environment::Environment;
use kt_operands::given::requested_with;
use kt_operands::operand::{Operand, Value, bad_type};
use kt_operands::refusal::Refusal;
use kt_operands::types::INT;
use kt_tree::{Part, Request};
use kt_typing::Conversion;
use sqlite_items::Items;
use std::alloc::{AllocError, Global};

// What the pieces so far are written by: the parts, and the plain bytes behind them.
#[derive(Drop)]
struct Writing {
    parts: Items<Part>,
    plain: Items<u8>,
}

// The parts, with the plain bytes, if there are any, as one more.
fn with_plain(writing: Writing) -> Result<Items<Part>, AllocError>
    ensures { IfOk result (λ ps. ps ≡ writing.parts ++ with_bytes writing.plain []) }
{
    let Writing { mut parts, plain } = writing;
    if !plain.is_empty() {
        parts.push(Part::Bytes(plain))?;
    }
    Ok(parts)
}

// What is written with one more part.
fn with_part(alloc: Global, writing: Writing, part: Part) -> Result<Writing, AllocError>
    ensures { IfOk result (λ w. (w.plain ≡ []) × (w.parts ≡ writing.parts ++ with_bytes writing.plain [] ++ part ∷ [])) }
{
    let mut parts = with_plain(writing)?;
    parts.push(part)?;
    Ok(Writing {
        parts,
        plain: Items::new(alloc),
    })
}

// What is written with one more plain byte.
fn with_byte(writing: Writing, byte: u8) -> Result<Writing, AllocError>
    ensures { IfOk result (λ w. (w.plain ≡ writing.plain ++ byte ∷ []) × (w.parts ≡ writing.parts)) }
{
    let Writing { parts, mut plain } = writing;
    plain.push(byte)?;
    Ok(Writing { parts, plain })
}

// What is written with one more piece of the format.
fn with_piece(alloc: Global, writing: Writing, piece: Conversion) -> Result<Writing, AllocError>
    ensures { IfOk result (λ w. (more : List Conversion) → w.parts ++ parts_of w.plain more ≡ writing.parts ++ parts_of writing.plain (piece ∷ more)) }
{
    match piece {
        Conversion::Plain(byte) => with_byte(writing, byte),
        Conversion::Decimal => with_part(alloc, writing, Part::Number),
        Conversion::LongDecimal => with_part(alloc, writing, Part::Number),
        Conversion::Byte => with_part(alloc, writing, Part::Byte),
        Conversion::Text => with_part(alloc, writing, Part::Text),
    }
}

// The parts of a format.
fn parts_of(alloc: Global, pieces: &[Conversion]) -> Result<Items<Part>, AllocError>
    ensures { IfOk result (λ ps. ps ≡ parts_of [] pieces.now) }
{
    let mut writing = Writing {
        parts: Items::new(alloc),
        plain: Items::new(alloc),
    };
    for piece in pieces {
        writing = with_piece(alloc, writing, *piece)?;
    }
    with_plain(writing)
}

// Values written by the pieces of a format.
fn written(env: &Environment<'_>, at: u32, pieces: &[Conversion], values: Vec<Value>) -> Answer
    ensures { Follows operand_of (written (environment_of env.now) at pieces.now (Some (values_of values))) result }
{
    let Apart { types, trees } = set_apart(env.alloc, values)?;
    if !are_taken(env, pieces, types.as_slice()) {
        drop(trees);
        return Err(bad_type(at));
    }
    match parts_of(env.alloc, pieces) {
        Ok(parts) => {
            let request = Request::Print(parts);
            requested_with(env, at, request, Some(INT), types.as_slice(), trees)
        }
        Err(_) => {
            drop(trees);
            Err(Refusal::NoMemory)
        }
    }
}

/// `printf` of the pieces of a format, with the arguments behind it.
#[tactic(auto, using(crate::proofs::Askings::askings))]
pub(crate) fn printed(
    env: &Environment<'_>,
    at: u32,
    pieces: &[Conversion],
    arguments: Vec<Operand>,
) -> Answer
    ensures { Follows operand_of (written (environment_of env.now) at pieces.now (plain_values (scope_of env.now) (operands_of arguments))) result }
{
    match plain_values(env, at, arguments) {
        Ok(values) => written(env, at, pieces, values),
        Err(e) => Err(e),
    }
}
