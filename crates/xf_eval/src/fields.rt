//! How many cells a type has, and how many stand before a field.
ghost use Rattle.std.specs.Prelude.{◌≡◌, ◌≤◌, Some};
ghost use Rattle.kt_types.specs.Layout.{cells_before};
ghost use Rattle.kt_types.specs.Table.{fields_of};
ghost use Rattle.kt_meaning.specs.Operations.{field_place, width};
ghost use Rattle.xf_eval.specs.Steps.{LeadsAsFar};

use kt_mem::{Trap, Value, add_elements};
use kt_types::{FieldDecl, TypeTable};

/// More cells than an offset can have.
const FAR: u32 = 65_537;

/// How many cells an element of the type has.
pub(crate) fn width(types: &TypeTable, element: u32) -> u32
    ensures count { result ≡ width types.now element }
    ensures within { result ≤ 65536 }
{
    if types.is_complete(element) {
        types.cells_of(element)
    } else {
        0
    }
}

/// The pointer to a field of a struct, by its numbers.
pub(crate) fn field_place(
    types: &TypeTable,
    number: u32,
    index: u32,
    p: Value,
) -> Result<Value, Trap>
    ensures { result ≡ field_place types.now (fields_of types.now number) index p }
{
    match types.fields(number) {
        None => Err(Trap::Uninit),
        Some(fields) => add_elements(p, Value::Num(1), steps_to(types, number, fields, index)),
    }
}

/// How many cells stand before a field: by the look-up of its name, which finds the field itself.
pub(crate) fn steps_to(types: &TypeTable, number: u32, fields: &[FieldDecl], index: u32) -> u32
    requires { fields_of types.now number ≡ Some fields.now }
    ensures { LeadsAsFar (cells_before types.now fields.now index) result }
{
    if let Some(field) = fields.get(index as usize) {
        if let Some(found) = types.field_at(number, field.name.as_bytes()) {
            if found.index == index {
                return found.cell;
            }
        }
    }
    steps_over(types, fields, index)
}

// The same, by adding up what the fields before it have, as far as an offset can be.
fn steps_over(types: &TypeTable, fields: &[FieldDecl], index: u32) -> u32
    ensures { LeadsAsFar (cells_before types.now fields.now index) result }
{
    let before = fields.len().min(index as usize);
    let mut cells: u32 = 0;
    for field in &fields[..before] {
        cells = (cells + width(types, field.ty)).min(FAR);
    }
    cells
}
