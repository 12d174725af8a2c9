//! Objects.
ghost use Rattle.std.specs.Prelude.{◌≡◌, ◌*◌, ◌≤◌, ◌++◌, length, map, Some, Err, IfOk, IsOk, OnOk, IfErr, OnErr};
ghost use Rattle.kt_mem.specs.Memory.{value_in, fresh_cell, repeated, zero_value};
ghost use Rattle.kt_heap.specs.Objects.{shown, obj_with};

use kt_mem::{Cell, Cells, Stored, Trap, Value};
use kt_types::Ty;
use std::alloc::{AllocError, Global};

/// An object: the place of its element type in the table of types, its count of elements, its heap number, which is 0
/// for an object that is not on the heap, and its cells.
#[derive(Drop)]
pub struct Obj {
    pub ty: u32,
    pub count: u32,
    pub serial: u64,
    pub cells: Cells,
}

impl Obj {
    /// What the cell at an offset holds: `bounds` past the object, and at a cell of another type.
    #[inline]
    pub(crate) fn stored(&self, offset: u32, ty: Ty) -> Result<Stored, Trap>
        ensures { result ≡ value_in (Some (shown self.now)) offset ty }
    {
        match self.cells.as_slice().get(offset as usize) {
            None => Err(Trap::Bounds),
            Some(cell) => cell.stored(ty).ok_or(Trap::Bounds),
        }
    }

    /// Writes a cell in its place: `bounds` past the object, and at a cell of another type.
    pub(crate) fn store(&mut self, offset: u32, cell: Cell) -> Result<(), Trap>
        ensures written { OnOk result (self.new ≡ obj_with offset cell self.old) }
        ensures there { OnOk result (IsOk (value_in (Some (shown self.old)) offset cell.ty)) }
        ensures trap { IfErr result (λ t. value_in (Some (shown self.old)) offset cell.ty ≡ Err t) }
        ensures kept { OnErr result (self.new ≡ self.old) }
    {
        self.stored(offset, cell.ty())?;
        self.cells.set(offset as usize, cell);
        Ok(())
    }
}

/// What a cell of the type holds where zeros are asked for.
fn zero_value(ty: Ty) -> Value
    ensures { result ≡ zero_value ty }
{
    match ty {
        Ty::Char | Ty::Int | Ty::Long => Value::Num(0),
        Ty::Mutex => Value::Free,
        Ty::Ptr(_) => Value::Null,
        Ty::Struct(_) | Ty::Array(..) => Value::Undef,
    }
}

/// A new cell: zero, or undefined.
fn fresh_cell(ty: Ty, zero: bool) -> Cell
    ensures { result ≡ fresh_cell zero ty }
{
    let value = if zero { zero_value(ty) } else { Value::Undef };
    Cell::new(ty, value)
}

/// The cells of so many new elements, where an element has cells of these types, in one vector.
pub fn fresh_cells(alloc: Global, types: &[Ty], count: u32, zero: bool) -> Result<Cells, AllocError>
    requires { count * length types.now ≤ 65536 }
    ensures { IfOk result (λ cs. cs ≡ repeated count (map (fresh_cell zero) types.now)) }
{
    let mut cells = Vec::with_capacity(alloc, count as usize * types.len())?;
    for _ in 0..count {
        push_element(&mut cells, types, zero)?;
    }
    Ok(Cells::from_vec(cells))
}

/// Adds the cells of a new element.
fn push_element(cells: &mut Vec<Cell>, types: &[Ty], zero: bool) -> Result<(), AllocError>
    ensures { OnOk result (cells.new.items ≡ cells.old.items ++ map (fresh_cell zero) types.now) }
{
    for ty in types {
        cells.push(fresh_cell(*ty, zero))?;
    }
    Ok(())
}
