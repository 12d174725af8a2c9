//! What an update carries over by name: the values of globals, and points.
ghost use Rattle.std.specs.Prelude.{◌≡◌, ◌<◌, ◌≤◌, length, IfOk, IfSome};
ghost use Rattle.kt_heap.specs.ByNumber.{by_number};
ghost use Rattle.kt_heap.specs.Heap.{memory, given};
ghost use Rattle.kt_machine.specs.Outside.{AreNumbers, IsNumber};
ghost use Rattle.kt_lone.specs.Update as plain;

use kt_heap::Heap;
use kt_mem::{Name, Value};
use kt_tree::{GlobalDecl, Version, version_law};
use kt_types::Ty;
use std::alloc::{AllocError, Global};

/// The place of `int` in every table of types.
const INT_TYPE: u32 = 1;

/// What an update keeps for the new version's globals.
pub fn kept_values(
    alloc: Global,
    old: &Version,
    heap: &Heap,
    new: &Version,
) -> Result<Vec<Option<Value>>, AllocError>
    ensures values { IfOk result (λ kept. kept.items ≡ plain.kept_values old.now (memory heap.now) new.now) }
    ensures few { IfOk result (λ kept. length kept.items ≤ 4294967296) }
{
    version_law(new);
    new.globals()
        .iter()
        .map(|global| kept_value(old, heap, global))
        .collect(alloc)
}

/// Stores the kept values, each into the global of its number.
pub fn place(heap: &mut Heap, kept: &[Option<Value>])
    requires few { length kept.now ≤ 4294967296 }
    requires numbers { AreNumbers kept.now }
    ensures placed { memory heap.new ≡ plain.placed kept.now (memory heap.old) }
    ensures numbered { by_number (given heap.new) (memory heap.new) ≡ plain.placed kept.now (by_number (given heap.old) (memory heap.old)) }
    ensures given { given heap.new ≡ given heap.old }
{
    for (i, value) in kept.iter().enumerate() {
        place_one(heap, i as u32, *value);
    }
}

/// The point of the new version with the name of this point of the old one.
pub fn new_point(old: &Version, new: &Version, point: u32) -> Option<u32>
    ensures place { result ≡ plain.new_point old.now new.now point }
    ensures within { IfSome result (λ place. place < new.now.points.updates) }
{
    let name = old.points().as_slice().get(point as usize)?;
    new.point(name.as_bytes())
}

/// What is kept for a global of the new version.
fn kept_value(old: &Version, heap: &Heap, global: &GlobalDecl) -> Option<Value>
    ensures { result ≡ plain.kept_value old.now (memory heap.now) global.now }
{
    let number = old_global(old, global)?;
    heap.load(Value::Ptr(Name::Glob(number), 0), Ty::Int).ok()
}

/// The old global to which a new one corresponds.
fn old_global(old: &Version, global: &GlobalDecl) -> Option<u32>
    ensures { result ≡ plain.old_global old.now global.now }
{
    if !is_int(global) {
        return None;
    }
    let number = old.global(global.name.as_bytes())?;
    int_at(old.globals(), number)
}

/// This number, where its global is of type `int`.
fn int_at(globals: &[GlobalDecl], number: u32) -> Option<u32>
    ensures { result ≡ plain.int_at globals.now number }
{
    match globals.get(number as usize) {
        Some(global) if is_int(global) => Some(number),
        _ => None,
    }
}

/// Whether the global is of type `int`, and no array.
fn is_int(global: &GlobalDecl) -> bool
    ensures { result ≡ plain.is_int global.now }
{
    global.ty == INT_TYPE && !global.array
}

/// Stores a kept value into the global of this number. Where it can't be stored, nothing changes.
fn place_one(heap: &mut Heap, i: u32, kept: Option<Value>)
    requires { IsNumber kept }
    ensures placed { memory heap.new ≡ plain.placed_one i kept (memory heap.old) }
    ensures numbered { by_number (given heap.new) (memory heap.new) ≡ plain.placed_one i kept (by_number (given heap.old) (memory heap.old)) }
    ensures given { given heap.new ≡ given heap.old }
{
    heap.law();
    if let Some(value) = kept {
        let _ = heap.store(Value::Ptr(Name::Glob(i), 0), Ty::Int, value);
    }
}
