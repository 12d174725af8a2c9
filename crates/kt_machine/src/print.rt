//! Output.
ghost use Rattle.std.specs.Prelude.{◌≡◌, [], ◌∷◌, drop, IfOk, List, OnOk};
ghost use Rattle.std.specs.Option.{option_copied, option_map};
ghost use Rattle.kt_heap.specs.Heap.{memory};
ghost use Rattle.kt_heap.specs.Objects.{shown};
ghost use Rattle.kt_mem.specs.Memory.{Cell as CellSpec};
ghost use Rattle.kt_exec.specs.Renaming.{ReplyIn};
ghost use Rattle.kt_meaning.specs.Effects as plain;
ghost use Rattle.kt_meaning.specs.Requests.{byte_of};
ghost use Rattle.kt_machine.specs.Printing.{text_from, with_text, IsPut};

use itoa::Buffer;
use kt_heap::{Heap, Obj};
use kt_mem::{Cell, Name, Piece, Reply, Trap, Value};
use kt_types::Ty;
use std::alloc::AllocError;

/// How many bytes may be written in all.
const OUTPUT_LIMIT: usize = 16_777_216;

/// The pieces are written, in order: a trap, or too much output, leaves it as it is. It holds at most one byte more than
/// may be written.
pub(crate) fn print(
    heap: &Heap,
    pieces: &[Piece],
    output: &mut Vec<u8>,
) -> Result<Reply, AllocError>
    ensures names { IfOk result (λ r. ReplyIn (λ a. ⊥) r) }
    ensures text { IfOk result (λ r. (s : plain.Shared) → plain.writes (record s { output = output.old.items }) (plain.pieces_text (memory heap.now) pieces.now) ≡ plain.Replies r (record s { output = output.new.items })) }
{
    let start = output.len();
    if let Some(trap) = put_pieces(heap, pieces, output)? {
        output.truncate(start);
        return Ok(Reply::Trapped(trap));
    }
    if output.len() > OUTPUT_LIMIT {
        output.truncate(start);
        return Ok(Reply::Trapped(Trap::Output));
    }
    let written = output.len() - start;
    Ok(Reply::Got(Value::Num(written as i64)))
}

/// Puts the pieces behind the output, in order, up to the first trap.
fn put_pieces(
    heap: &Heap,
    pieces: &[Piece],
    output: &mut Vec<u8>,
) -> Result<Option<Trap>, AllocError>
    ensures { IfOk result (λ trap. IsPut (plain.pieces_text (memory heap.now) pieces.now) trap output.old.items output.new.items) }
{
    for piece in pieces {
        if let Some(trap) = put_piece(heap, piece, output)? {
            return Ok(Some(trap));
        }
    }
    Ok(None)
}

fn put_piece(heap: &Heap, piece: &Piece, output: &mut Vec<u8>) -> Result<Option<Trap>, AllocError>
    ensures { IfOk result (λ trap. IsPut (plain.piece_text (memory heap.now) piece.now) trap output.old.items output.new.items) }
{
    match piece {
        Piece::Bytes(bytes) => put_all(bytes.as_bytes(), output),
        Piece::Number(n) => {
            let mut buffer = Buffer::new();
            put_all(buffer.format(*n).as_bytes(), output)
        }
        Piece::Byte(byte) => put_all(&[*byte], output),
        Piece::TextAt(p) => put_text_at(heap, *p, output),
    }
}

/// Puts bytes behind the output.
fn put_all(bytes: &[u8], output: &mut Vec<u8>) -> Result<Option<Trap>, AllocError>
    ensures { IfOk result (λ trap. IsPut (Ok bytes.now) trap output.old.items output.new.items) }
{
    let room = (OUTPUT_LIMIT + 1).saturating_sub(output.len());
    output.extend_from_slice(&bytes[..bytes.len().min(room)])?;
    Ok(None)
}

/// Puts a byte behind the output.
fn put_byte(byte: u8, output: &mut Vec<u8>) -> Result<(), AllocError>
    ensures { OnOk result (output.new.items ≡ with_text output.old.items (byte ∷ [])) }
{
    if output.len() <= OUTPUT_LIMIT {
        output.push(byte)?;
    }
    Ok(())
}

/// Puts the text at a pointer behind the output: `null`, `dead`, `bounds`, `uninit`.
fn put_text_at(heap: &Heap, p: Value, output: &mut Vec<u8>) -> Result<Option<Trap>, AllocError>
    ensures { IfOk result (λ trap. IsPut (plain.text_at (memory heap.now) p) trap output.old.items output.new.items) }
{
    match p {
        Value::Null => Ok(Some(Trap::Null)),
        Value::Ptr(name, offset) => match object_named(heap, name) {
            None => Ok(Some(Trap::Dead)),
            Some(object) => put_text(cells_from(object, offset), output),
        },
        _ => Ok(Some(Trap::Dead)),
    }
}

/// The object under a name.
fn object_named(heap: &Heap, name: Name) -> Option<&Obj>
    ensures { option_map shown (option_copied result) ≡ (memory heap.now).at name }
{
    match name {
        Name::Glob(i) => heap.global(i),
        Name::Lit(v, i) => heap.literal(v, i),
        Name::Heap(a) => heap.object(a),
    }
}

/// The cells of an object from an offset on.
fn cells_from(object: &Obj, offset: u32) -> &[Cell]
    ensures { result.now ≡ drop offset object.now.cells }
{
    let cells = object.cells.as_slice();
    let start = cells.len().min(offset as usize);
    &cells[start..]
}

/// Puts the text in these cells behind the output, which ends before a zero.
fn put_text(cells: &[Cell], output: &mut Vec<u8>) -> Result<Option<Trap>, AllocError>
    ensures { IfOk result (λ trap. IsPut (plain.text_of cells.now) trap output.old.items output.new.items) }
{
    for cell in cells {
        match text_byte(cell) {
            Err(trap) => return Ok(Some(trap)),
            Ok(None) => return Ok(None),
            Ok(Some(byte)) => put_byte(byte, output)?,
        }
    }
    Ok(Some(Trap::Bounds))
}

/// The byte of a cell of a text, none where the text ends there: `bounds` where it is no `char`, `uninit`.
fn text_byte(cell: &Cell) -> Result<Option<u8>, Trap>
    ensures { (rest : List CellSpec) → plain.text_of (cell.now ∷ rest) ≡ text_from result (plain.text_of rest) }
{
    if cell.ty() != Ty::Char {
        return Err(Trap::Bounds);
    }
    match cell.value() {
        Value::Num(0) => Ok(None),
        Value::Num(z) => Ok(Some(byte_of(z))),
        _ => Err(Trap::Uninit),
    }
}

/// The number modulo 256.
fn byte_of(z: i64) -> u8
    ensures { result ≡ byte_of z }
{
    z.rem_euclid(256) as u8
}
