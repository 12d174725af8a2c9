//! Definitions of structs that can be made are made.

ghost use Rattle.std.specs.Prelude.{◌≡◌, ◌<◌, ◌≤◌, ℕ, true, length, slice_get, Some, OnOk, OnErr};
ghost use Rattle.kt_types.specs.Table.{with_definition};
ghost use Rattle.kt_types.specs.declared.kinds.FieldDecl.{FieldDecl};
ghost use Rattle.kt_program.specs.FileTable.{can_define};

use kt_types::{FieldDecl, TypeFault, TypeTable};
use std::alloc::AllocError;

/// Defines the struct of a number by fields by which it can be defined.
pub fn define_struct(
    table: &mut TypeTable,
    number: u32,
    fields: Vec<FieldDecl>,
) -> Result<(), AllocError>
    requires declared { number < length table.old.structs }
    requires some_field { 1 ≤ length fields.items }
    requires places { (n : ℕ) (f : FieldDecl) → slice_get fields.items n ≡ Some f → f.ty < length table.old.types }
    requires can { can_define table.old number fields.items ≡ true }
    ensures ok { OnOk result (table.new ≡ with_definition table.old number fields.items) }
    ensures err { OnErr result (table.new ≡ table.old) }
{
    match table.define_struct(number, fields) {
        Ok(()) => Ok(()),
        Err(TypeFault::NoMemory) => Err(AllocError),
        Err(TypeFault::Twice) => unreachable!(),
        Err(TypeFault::Incomplete) => unreachable!(),
        Err(TypeFault::TooBig) => unreachable!(),
    }
}
