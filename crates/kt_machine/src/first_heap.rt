//! The heap with which a version begins.
ghost use Rattle.std.specs.Prelude.{◌≡◌, [], IfOk, OnOk};
ghost use Rattle.kt_heap.specs.ByNumber.{by_number, HoldsGiven};
ghost use Rattle.kt_heap.specs.Heap.{memory, given};
ghost use Rattle.kt_lone.specs.Update.{first_memory};
ghost use Rattle.kt_machine.specs.Outside.{HasCharLiterals};

use crate::first_objects::{global_object, literal_object};
use kt_heap::Heap;
use kt_tree::{Version, version_law};
use std::alloc::{AllocError, Global};

/// The heap with which a program begins that is version `v`: its globals with their initial values, its string literals,
/// and no heap object. The next heap number is `next`.
pub fn first_heap(alloc: Global, v: u8, version: &Version, next: u64) -> Result<Heap, AllocError>
    ensures memory { IfOk result (λ heap. by_number (given heap) (memory heap) ≡ first_memory v version.now next) }
    ensures literals { IfOk result (λ heap. HasCharLiterals (memory heap)) }
    ensures given { IfOk result (λ heap. given heap ≡ []) }
    ensures holds { IfOk result (λ heap. HoldsGiven (given heap) (memory heap)) }
{
    let mut heap = Heap::new(alloc, next);
    set_globals(alloc, v, version, &mut heap)?;
    set_literals(alloc, v, version, &mut heap)?;
    Ok(heap)
}

/// Puts the globals into a heap without an object.
fn set_globals(alloc: Global, v: u8, version: &Version, heap: &mut Heap) -> Result<(), AllocError>
    requires { memory heap.old ≡ first_memory v (record version.now { globals = []; literals = [] }) (memory heap.old).next }
    ensures memory { OnOk result (memory heap.new ≡ first_memory v (record version.now { literals = [] }) (memory heap.old).next) }
    ensures given { given heap.new ≡ given heap.old }
{
    version_law(version);
    for (i, global) in version.globals().iter().enumerate() {
        let object = global_object(alloc, v, version.types(), global)?;
        heap.set_global(i as u32, object)?;
    }
    Ok(())
}

/// Puts the string literals into a heap of globals.
fn set_literals(alloc: Global, v: u8, version: &Version, heap: &mut Heap) -> Result<(), AllocError>
    requires { memory heap.old ≡ first_memory v (record version.now { literals = [] }) (memory heap.old).next }
    ensures memory { OnOk result (memory heap.new ≡ first_memory v version.now (memory heap.old).next) }
    ensures given { given heap.new ≡ given heap.old }
{
    version_law(version);
    for (i, literal) in version.literals().iter().enumerate() {
        let object = literal_object(alloc, literal.as_bytes())?;
        heap.set_literal(v, i as u32, object)?;
    }
    Ok(())
}
