//! The acts that requests are.
ghost use Rattle.std.specs.Prelude.{◌≡◌, ◌≤◌, length, [], ◌∷◌, None, Some, IfOk, if◌then◌else◌};
ghost use Rattle.kt_meaning.specs.Requests.{act_of, byte_of, pieces, printed};
ghost use Rattle.kt_code.specs.Requests.{operand_count, part_count, untyped};
ghost use Rattle.kt_code.specs.Settling.{head_of};
ghost use Rattle.kt_exec.specs.Apart.{does, taken};
ghost use Rattle.kt_exec.specs.Requests.{operand_piece, act_without, act_with, act_of_number};

use kt_code::{Frame, Head, Instr, Private};
use kt_mem::{Act, Piece, Pieces, Stored, Trap, Value};
use kt_tree::{Part, Request};
use kt_types::Text;
use sqlite_items::Items;
use std::alloc::{AllocError, Global};

/// How many operands the parts of a format take.
fn part_operands(parts: &[Part]) -> usize
    ensures { result ≡ part_count parts.now }
{
    let mut count = 0;
    for part in parts {
        if takes_operand(part) {
            count += 1;
        }
    }
    count
}

/// Whether a part of a format takes an operand.
fn takes_operand(part: &Part) -> bool
    ensures { part_count (part.now ∷ []) ≡ (if result then 1 else 0) }
{
    !matches!(part, Part::Bytes(_))
}

/// How many operands a request takes.
pub(crate) fn operand_count(request: &Request) -> usize
    ensures { result ≡ operand_count request.now }
{
    match request {
        Request::Load => 1,
        Request::Store => 2,
        Request::Allocate(_, _) => 1,
        Request::Release => 1,
        Request::Lock => 1,
        Request::Unlock => 1,
        Request::InitMutex => 1,
        Request::GetChar => 0,
        Request::PutChar => 1,
        Request::Puts => 1,
        Request::Print(parts) => part_operands(parts.as_slice()),
        Request::Create(_) => 1,
        Request::Join => 1,
        Request::Point(_) => 0,
        Request::IsUpdating => 0,
        Request::IsUpdatingFrom(_) => 0,
        Request::Automigrate => 0,
        Request::MigrateLocal(_) => 0,
    }
}

/// The byte that `putchar` and `%c` write.
pub(crate) fn low_byte(n: i64) -> u8
    ensures { result ≡ byte_of n }
{
    n.rem_euclid(256) as u8
}

/// The piece that a part of a format writes for its operand.
fn operand_piece(part: &Part, value: Value) -> Option<Piece>
    ensures { result ≡ operand_piece part.now value }
{
    match (part, value) {
        (Part::Number, Value::Num(n)) => Some(Piece::Number(n)),
        (Part::Byte, Value::Num(n)) => Some(Piece::Byte(low_byte(n))),
        (Part::Text, pointer) => Some(Piece::TextAt(pointer)),
        _ => None,
    }
}

/// What `printf` writes, or the trap.
fn pieces(
    alloc: Global,
    parts: &[Part],
    values: &[Stored],
) -> Result<Result<Pieces, Trap>, AllocError>
    ensures { IfOk result (λ told. told ≡ pieces parts.now values.now) }
{
    let mut made = Vec::new(alloc);
    let mut left = values;
    for part in parts {
        if let Part::Bytes(bytes) = part {
            made.push(Piece::Bytes(text(alloc, bytes)?))?;
        } else {
            let Some((operand, others)) = left.split_first() else {
                return Ok(Err(Trap::Uninit));
            };
            let Some(piece) = operand_piece(part, operand.value()) else {
                return Ok(Err(Trap::Uninit));
            };
            made.push(piece)?;
            left = others;
        }
    }
    if left.is_empty() {
        Ok(Ok(Pieces::from_vec(made)))
    } else {
        Ok(Err(Trap::Uninit))
    }
}

/// These bytes.
fn text(alloc: Global, bytes: &Items<u8>) -> Result<Text, AllocError>
    ensures { IfOk result (λ text. text ≡ bytes.now) }
{
    Ok(Text::from_vec(Vec::from_slice(alloc, bytes.as_slice())?))
}

/// What `printf` is.
fn print(alloc: Global, parts: &[Part], values: &[Stored]) -> Result<Result<Act, Trap>, AllocError>
    ensures { IfOk result (λ told. told ≡ printed (pieces parts.now values.now)) }
{
    match pieces(alloc, parts, values)? {
        Ok(pieces) => Ok(Ok(Act::Print(pieces))),
        Err(trap) => Ok(Err(trap)),
    }
}

/// What `putchar` writes.
fn byte(alloc: Global, n: i64) -> Result<Pieces, AllocError>
    ensures { IfOk result (λ pieces. pieces ≡ Piece.Byte (byte_of n) ∷ []) }
{
    let made = vec![in alloc; Piece::Byte(low_byte(n))]?;
    Ok(Pieces::from_vec(made))
}

/// What `puts` writes.
fn line(alloc: Global, pointer: Value) -> Result<Pieces, AllocError>
    ensures { IfOk result (λ pieces. pieces ≡ Piece.TextAt pointer ∷ Piece.Bytes (10 ∷ []) ∷ []) }
{
    let end = Text::from_vec(Vec::from_slice(alloc, b"\n")?);
    let made = vec![in alloc; Piece::TextAt(pointer), Piece::Bytes(end)]?;
    Ok(Pieces::from_vec(made))
}

/// The act that a request is that takes no operand.
fn act_without(function: u32, request: &Request) -> Result<Act, Trap>
    ensures { result ≡ act_without function request.now }
{
    match request {
        Request::GetChar => Ok(Act::GetChar),
        Request::Point(n) => Ok(Act::Point(*n)),
        Request::IsUpdating => Ok(Act::UpdatingTest(None)),
        Request::IsUpdatingFrom(n) => Ok(Act::UpdatingTest(Some(*n))),
        Request::Automigrate => Ok(Act::Automigrate),
        Request::MigrateLocal(n) => Ok(Act::MigrateLocal(function, *n)),
        _ => Err(Trap::Uninit),
    }
}

/// The act that a request is that takes one operand.
fn act_with(alloc: Global, request: &Request, value: Value) -> Result<Result<Act, Trap>, AllocError>
    ensures { IfOk result (λ told. told ≡ act_with request.now value) }
{
    match request {
        Request::Release => Ok(Ok(Act::Release(value))),
        Request::Lock => Ok(Ok(Act::Lock(value))),
        Request::Unlock => Ok(Ok(Act::Unlock(value))),
        Request::InitMutex => Ok(Ok(Act::InitMutex(value))),
        Request::Puts => Ok(Ok(Act::Print(line(alloc, value)?))),
        Request::Create(function) => Ok(Ok(Act::Create(*function, value))),
        _ => match value {
            Value::Num(n) => act_of_number(alloc, request, n),
            _ => Ok(Err(Trap::Uninit)),
        },
    }
}

/// The act that a request is that takes a number.
fn act_of_number(alloc: Global, request: &Request, n: i64) -> Result<Result<Act, Trap>, AllocError>
    ensures { IfOk result (λ told. told ≡ act_of_number request.now n) }
{
    match request {
        Request::Allocate(element, zeros) => Ok(Ok(Act::Allocate(*element, n, *zeros))),
        Request::PutChar => Ok(Ok(Act::Print(byte(alloc, n)?))),
        Request::Join => Ok(Ok(Act::Join(n))),
        _ => Ok(Err(Trap::Uninit)),
    }
}

/// The act that a request is with the values of its operands, or the trap.
pub(crate) fn act_of(
    alloc: Global,
    function: u32,
    request: &Request,
    values: &[Stored],
) -> Result<Result<Act, Trap>, AllocError>
    ensures { IfOk result (λ told. told ≡ act_of untyped function request.now None values.now) }
{
    if let Request::Print(parts) = request {
        return print(alloc, parts.as_slice(), values);
    }
    match values {
        [] => Ok(act_without(function, request)),
        [operand] => act_with(alloc, request, operand.value()),
        _ => Ok(Err(Trap::Uninit)),
    }
}

/// What an `Ask` is: its act, or the trap.
pub(crate) fn ask(
    alloc: Global,
    request: &Request,
    frame: &Frame,
    rest: &Private,
) -> Result<Head, AllocError>
    requires { operand_count request.now ≤ length rest.now.operands }
    ensures { IfOk result (λ head. head_of (does (Instr.Ask request.now) (taken frame.now rest.now) rest.now.operands) ≡ Some head) }
{
    let count = operand_count(request);
    match act_of(alloc, frame.function, request, rest.operands.last(count))? {
        Ok(act) => Ok(Head::Act(act)),
        Err(trap) => Ok(Head::Trap(trap)),
    }
}
