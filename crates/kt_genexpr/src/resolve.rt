//! Single instructions, and what they carry: types, numbers of cells and of locals, from the version's tables.
ghost use Rattle.std.specs.Prelude.{◌≡◌, ◌≤◌, IfOk, slice_get, length};
ghost use Rattle.kt_types.specs.Layout.{cells_before};
ghost use Rattle.kt_types.specs.Table.{fields_of};
ghost use Rattle.kt_meaning.specs.Operations.{width};
ghost use Rattle.kt_meaning.specs.Requests.{cell_type};
ghost use Rattle.kt_genexpr.specs.ExpressionCode.{or_char, type_at, cells_to, locals_of, constant_code, operation_code, request_code};

use crate::copies::copy_request;
use kt_code::Instr;
use kt_tree::{Constant, Operation, Request, Version};
use kt_types::{FieldDecl, Ty, TypeTable};
use sqlite_items::Boxed;
use std::alloc::{AllocError, Global};

/// The type at a place.
pub fn type_at(types: &TypeTable, ty: u32) -> Ty
    ensures { result ≡ type_at types.now ty }
{
    match types.get(ty) {
        Some(ty) => ty,
        None => Ty::Char,
    }
}

// The type of a cell that a request loads or stores.
fn type_of_cell(types: &TypeTable, ty: Option<u32>) -> Ty
    ensures { result ≡ or_char (cell_type types.now ty) }
{
    match ty {
        Some(ty) => type_at(types, ty),
        None => Ty::Char,
    }
}

// How many cells an element of the type has.
fn width(types: &TypeTable, element: u32) -> u32
    ensures { result ≡ width types.now element }
{
    if types.is_complete(element) {
        types.cells_of(element)
    } else {
        0
    }
}

// How many cells stand before a field; 2^32 or more are want of memory.
fn cells_before(types: &TypeTable, fields: &[FieldDecl], index: u32) -> Result<u32, AllocError>
    ensures { IfOk result (λ n. n ≡ cells_before types.now fields.now index) }
{
    let mut cells: u32 = 0;
    let before = fields.len().min(index as usize);
    for field in &fields[..before] {
        cells = cells.checked_add(width(types, field.ty)).ok_or(AllocError)?;
    }
    Ok(cells)
}

// The same, of the field's struct.
fn cells_to(types: &TypeTable, number: u32, index: u32) -> Result<u32, AllocError>
    ensures { IfOk result (λ n. n ≡ cells_to types.now (fields_of types.now number) index) }
{
    match types.fields(number) {
        Some(fields) => cells_before(types, fields, index),
        None => Ok(0),
    }
}

/// The instruction that puts a constant.
pub fn constant(value: Constant) -> Instr
    ensures { result ≡ constant_code value }
{
    match value {
        Constant::Number(number) => Instr::Number(number),
        Constant::Null => Instr::Null,
        Constant::Global(global) => Instr::Global(global),
        Constant::Literal(literal) => Instr::Literal(literal),
    }
}

/// The instruction of an operation that gives a value of that type.
pub fn operation(types: &TypeTable, operation: Operation, ty: u32) -> Result<Instr, AllocError>
    ensures { IfOk result (λ i. i ≡ operation_code types.now operation ty) }
{
    match operation {
        Operation::Add => Ok(Instr::Add(type_at(types, ty))),
        Operation::Subtract => Ok(Instr::Subtract(type_at(types, ty))),
        Operation::Multiply => Ok(Instr::Multiply(type_at(types, ty))),
        Operation::Divide => Ok(Instr::Divide(type_at(types, ty))),
        Operation::Remainder => Ok(Instr::Remainder(type_at(types, ty))),
        Operation::Less => Ok(Instr::Less),
        Operation::Greater => Ok(Instr::Greater),
        Operation::LessEqual => Ok(Instr::LessEqual),
        Operation::GreaterEqual => Ok(Instr::GreaterEqual),
        Operation::Equal => Ok(Instr::Equal),
        Operation::NotEqual => Ok(Instr::NotEqual),
        Operation::Not => Ok(Instr::Not),
        Operation::Convert => Ok(Instr::Convert(type_at(types, ty))),
        Operation::ElementAfter(element) => Ok(Instr::ElementAfter(width(types, element))),
        Operation::ElementBefore(element) => Ok(Instr::ElementBefore(width(types, element))),
        Operation::ElementsBetween(element) => Ok(Instr::ElementsBetween(width(types, element))),
        Operation::Field(number, index) => Ok(Instr::Field(cells_to(types, number, index)?)),
    }
}

/// The instruction of a request that gives a value of that type, or nothing.
pub fn request(
    alloc: Global,
    types: &TypeTable,
    request: &Request,
    ty: Option<u32>,
) -> Result<Instr, AllocError>
    ensures { IfOk result (λ i. i ≡ request_code types.now request.now ty) }
{
    match request {
        Request::Load => Ok(Instr::Load(type_of_cell(types, ty))),
        Request::Store => Ok(Instr::Store(type_of_cell(types, ty))),
        _ => {
            let request = copy_request(alloc, request)?;
            Ok(Instr::Ask(Boxed::new(alloc, request)?))
        }
    }
}

/// How many locals a function of the version has; 2^32 or more are want of memory.
pub fn locals_of(version: &Version, function: u32) -> Result<u32, AllocError>
    ensures { IfOk result (λ n. n ≡ locals_of (slice_get version.now.functions function)) }
{
    match version.functions().get(function as usize) {
        Some(function) => {
            u32::try_from(function.locals.as_slice().len()).map_err(|_| AllocError)
        }
        None => Ok(0),
    }
}
