//! The objects with which a version begins: its globals and its string literals.
ghost use Rattle.std.specs.Prelude.{◌≡◌, ◌*◌, ◌++◌, ◌≤◌, [], ◌∷◌, length, map, IfOk};
ghost use Rattle.kt_types.specs.Layout.{cells, IsComplete};
ghost use Rattle.kt_mem.specs.Memory as mem;
ghost use Rattle.kt_heap.specs.Objects.{shown};
ghost use Rattle.kt_lone.specs.Update as plain;

use kt_heap::Obj;
use kt_mem::{Cell, Cells, Name, Value};
use kt_tree::{GlobalDecl, Init};
use kt_types::{Ty, TypeTable};
use std::alloc::{AllocError, Global};

/// The place of `char` in every table of types.
const CHAR_TYPE: u32 = 0;

/// A global of version `v` with its initial values.
pub fn global_object(
    alloc: Global,
    v: u8,
    types: &TypeTable,
    global: &GlobalDecl,
) -> Result<Obj, AllocError>
    requires complete { IsComplete types.now global.now.ty }
    requires within { global.now.count * length (cells types.now global.now.ty) ≤ 65536 }
    ensures { IfOk result (λ object. shown object ≡ plain.global_object v types.now global.now) }
{
    let element = first_cells(alloc, v, types, global)?;
    let cells = repeated(alloc, &element, global.count)?;
    Ok(Obj {
        ty: global.ty,
        count: global.count,
        serial: 0,
        cells,
    })
}

/// A string literal.
pub fn literal_object(alloc: Global, bytes: &[u8]) -> Result<Obj, AllocError>
    ensures { IfOk result (λ object. shown object ≡ plain.literal_object bytes.now) }
{
    let cells = literal_cells(alloc, bytes)?;
    let count = u32::try_from(bytes.len() + 1).map_err(|_| AllocError)?;
    Ok(Obj {
        ty: CHAR_TYPE,
        count,
        serial: 0,
        cells: Cells::from_vec(cells),
    })
}

/// The cells of the first element of a global.
fn first_cells(
    alloc: Global,
    v: u8,
    types: &TypeTable,
    global: &GlobalDecl,
) -> Result<Vec<Cell>, AllocError>
    requires { IsComplete types.now global.now.ty }
    ensures { IfOk result (λ element. element.items ≡ map (plain.initial_cell v global.now.init) (cells types.now global.now.ty)) }
{
    let count = types.cells_of(global.ty);
    let mut element = Vec::with_capacity(alloc, count as usize)?;
    for i in 0..count {
        element.push(initial_cell(v, global.init, types.cell_type(global.ty, i)))?;
    }
    Ok(element)
}

/// What a cell of this type starts with.
fn initial_cell(v: u8, init: Init, ty: Ty) -> Cell
    ensures { result ≡ plain.initial_cell v init ty }
{
    let value = match init {
        Init::Zero => zero_value(ty),
        Init::Number(n) => Value::Num(n),
        Init::Null => Value::Null,
        Init::Literal(n) => Value::Ptr(Name::Lit(v, n), 0),
        Init::Free => Value::Free,
    };
    Cell::new(ty, value)
}

/// What a cell of this type holds without an initialiser.
fn zero_value(ty: Ty) -> Value
    ensures { result ≡ mem.zero_value ty }
{
    match ty {
        Ty::Char | Ty::Int | Ty::Long => Value::Num(0),
        Ty::Mutex => Value::Free,
        Ty::Ptr(_) => Value::Null,
        Ty::Struct(_) | Ty::Array(..) => Value::Undef,
    }
}

/// The cells of so many elements that are equal.
fn repeated(alloc: Global, element: &[Cell], count: u32) -> Result<Cells, AllocError>
    requires { count * length element.now ≤ 65536 }
    ensures { IfOk result (λ cells. cells ≡ mem.repeated count element.now) }
{
    let mut cells = Vec::with_capacity(alloc, count as usize * element.len())?;
    for _ in 0..count {
        cells.extend_from_slice(element)?;
    }
    Ok(Cells::from_vec(cells))
}

/// The cells of a string literal: those of its bytes, and a zero behind them.
fn literal_cells(alloc: Global, bytes: &[u8]) -> Result<Vec<Cell>, AllocError>
    ensures { IfOk result (λ cells. cells.items ≡ map plain.char_cell (bytes.now ++ 0 ∷ [])) }
{
    let mut cells = Vec::with_capacity(alloc, bytes.len() + 1)?;
    for byte in bytes {
        cells.push(char_cell(*byte))?;
    }
    cells.push(char_cell(0))?;
    Ok(cells)
}

/// The cell of a byte as a `char`, which is signed.
fn char_cell(byte: u8) -> Cell
    ensures { result ≡ plain.char_cell byte }
{
    let number = if byte < 128 {
        i64::from(byte)
    } else {
        i64::from(byte) - 256
    };
    Cell::new(Ty::Char, Value::Num(number))
}
