//! Allocations.
ghost use Rattle.std.specs.Prelude.{◌≡◌, ◌≤◌, pos, length, true, Bool, IfOk, IfSome, List, OnOk, ℕ};
ghost use Rattle.std.specs.Option.{is_some};
ghost use Rattle.kt_heap.specs.ByNumber.{by_number, HoldsGiven};
ghost use Rattle.kt_heap.specs.Heap.{memory, given};
ghost use Rattle.kt_exec.specs.Renaming.{IsOld, ReplyIn};
ghost use Rattle.kt_meaning.specs.Effects as plain;
ghost use Rattle.kt_mem.specs.Memory as mem;
ghost use Rattle.kt_types.specs.Layout.{cells, layout};
ghost use Rattle.kt_types.specs.declared.kinds.Ty.{Ty as CellType};
ghost use Rattle.kt_machine.specs.ByNumber.{reply_by, Grows};
ghost use Rattle.kt_machine.specs.Outside.{KeepsLiterals};

use kt_heap::{AllocFault, Heap};
use kt_mem::{Name, Reply, Trap, Value};
use kt_types::{Ty, TypeTable};
use std::alloc::{AllocError, Global};

/// A new object of `count` elements of a type. The heap's own numbers run out after more acts than a run can take.
pub(crate) fn allocate(
    alloc: Global,
    heap: &mut Heap,
    types: &TypeTable,
    ty: u32,
    count: i64,
    zero: bool,
) -> Result<Reply, AllocError>
    requires complete { is_some (layout types.now ty) ≡ true }
    requires holds { HoldsGiven (given heap.old) (memory heap.old) }
    ensures made { IfOk result (λ r. (s : plain.Shared) → plain.makes (record s { memory = by_number (given heap.old) (memory heap.old) }) (mem.alloc (by_number (given heap.old) (memory heap.old)) ty (cells types.now ty) count zero) ≡ plain.Replies (reply_by (given heap.new) r) (record s { memory = by_number (given heap.new) (memory heap.new) })) }
    ensures names { IfOk result (λ r. ReplyIn (IsOld (given heap.new)) r) }
    ensures literals { KeepsLiterals (memory heap.old) (memory heap.new) }
    ensures holds { HoldsGiven (given heap.new) (memory heap.new) }
    ensures grows { Grows (given heap.old) (given heap.new) }
{
    heap.law();
    let cells = cell_types(alloc, types, ty)?;
    let Some(count) = element_count(count) else {
        return Ok(Reply::Trapped(Trap::Size));
    };
    if heap.next() >= 9_223_372_036_854_775_807 || heap.given() >= 4_294_967_296 {
        return Err(AllocError);
    }
    match heap.alloc(ty, cells.as_slice(), count, zero) {
        Ok(a) => Ok(Reply::Got(Value::Ptr(Name::Heap(a), 0))),
        Err(AllocFault::Size) => Ok(Reply::Trapped(Trap::Size)),
        Err(AllocFault::Heap) => Ok(Reply::Trapped(Trap::Heap)),
        Err(AllocFault::NoMemory) => Err(AllocError),
    }
}

/// The count, where it is one that an object may have.
fn element_count(count: i64) -> Option<u32>
    ensures none { result ≡ None → (m : mem.Memory) (ty : ℕ) (cells : List CellType) (zeros : Bool) → 1 ≤ length cells → mem.alloc m ty cells count zeros ≡ Err Trap.Size }
    ensures some { IfSome result (λ n. count ≡ pos n) }
{
    if (1..=i64::from(u32::MAX)).contains(&count) {
        Some(count as u32)
    } else {
        None
    }
}

/// The cell types of one element.
fn cell_types(alloc: Global, types: &TypeTable, ty: u32) -> Result<Vec<Ty>, AllocError>
    requires { is_some (layout types.now ty) ≡ true }
    ensures cells { IfOk result (λ found. found.items ≡ cells types.now ty) }
    ensures some { OnOk result (1 ≤ length (cells types.now ty)) }
    ensures few { OnOk result (length (cells types.now ty) ≤ 65536) }
{
    let mut found = Vec::new(alloc);
    for i in 0..types.cells_of(ty) {
        found.push(types.cell_type(ty, i))?;
    }
    Ok(found)
}
