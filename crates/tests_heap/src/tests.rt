//! Each trap of load, store, allocation and release on a heap, and each call once with ample memory.
use kt_heap::{AllocFault, Heap, Obj};
use kt_mem::{Cell, Cells, Name, Trap, Value};
use kt_types::Ty;
use std::alloc::{AllocError, Global};
use std::test::Fail;

fn num(z: i64) -> Value {
    Value::Num(z)
}

fn heap_at(a: u64, offset: u32) -> Value {
    Value::Ptr(Name::Heap(a), offset)
}

/// The address of a key in a generation.
fn address(key: u32, generation: u32) -> u64 {
    u64::from(key) + 4_294_967_296 * u64::from(generation)
}

/// An object of one element with these cells.
fn object(alloc: Global, serial: u64, cells: &[(Ty, Value)]) -> Result<Obj, AllocError> {
    let mut items = Vec::new(alloc);
    for (ty, value) in cells {
        items.push(Cell::new(*ty, *value))?;
    }
    Ok(Obj {
        ty: 4,
        count: 1,
        serial,
        cells: Cells::from_vec(items),
    })
}

/// What the allocation answers. Where it can't be asked for, the answer is one that no test wants.
fn allocate(heap: &mut Heap, types: &[Ty], count: u32, zero: bool) -> Result<u64, AllocFault> {
    if types.is_empty()
        || types.len() > 65_536
        || heap.next() >= 9_223_372_036_854_775_807
        || heap.given() >= 4_294_967_296
    {
        return Err(AllocFault::NoMemory);
    }
    heap.alloc(4, types, count, zero)
}

/// A heap whose first heap number is 7, with a global of an `int` and a `char` cell, a literal, and at address 0 an object
/// with an `int` cell that is 5 and a pointer cell that was not written.
fn small(alloc: Global) -> Result<Heap, Fail> {
    let mut heap = Heap::new(alloc, 7);
    let global = object(alloc, 0, &[(Ty::Int, num(1)), (Ty::Char, Value::Undef)])?;
    heap.set_global(2, global)?;
    let literal = object(alloc, 0, &[(Ty::Char, num(104)), (Ty::Char, num(0))])?;
    heap.set_literal(1, 3, literal)?;
    let made = allocate(&mut heap, &[Ty::Int, Ty::Ptr(4)], 1, false);
    if made != Ok(0) || heap.store(heap_at(0, 0), Ty::Int, num(5)) != Ok(()) {
        return Err(Fail::from("the first object"));
    }
    Ok(heap)
}

#[test]
fn loads(rt: HostRuntime) -> Result<(), Fail> {
    let heap = small(rt.alloc())?;
    for (p, ty, want) in [
        (Value::Null, Ty::Int, Err(Trap::Null)),
        (num(0), Ty::Int, Err(Trap::Dead)),
        (Value::Undef, Ty::Int, Err(Trap::Dead)),
        (heap_at(address(1, 0), 0), Ty::Int, Err(Trap::Dead)),
        (heap_at(address(0, 1), 0), Ty::Int, Err(Trap::Dead)),
        (Value::Ptr(Name::Glob(3), 0), Ty::Int, Err(Trap::Dead)),
        (Value::Ptr(Name::Lit(1, 4), 0), Ty::Char, Err(Trap::Dead)),
        (Value::Ptr(Name::Lit(2, 3), 0), Ty::Char, Err(Trap::Dead)),
        (heap_at(0, 2), Ty::Int, Err(Trap::Bounds)),
        (heap_at(0, 0), Ty::Long, Err(Trap::Bounds)),
        (heap_at(0, 1), Ty::Ptr(5), Err(Trap::Bounds)),
        (heap_at(0, 1), Ty::Ptr(4), Err(Trap::Uninit)),
        (heap_at(0, 0), Ty::Int, Ok(num(5))),
        (Value::Ptr(Name::Glob(2), 0), Ty::Int, Ok(num(1))),
        (Value::Ptr(Name::Glob(2), 1), Ty::Char, Err(Trap::Uninit)),
        (Value::Ptr(Name::Lit(1, 3), 0), Ty::Char, Ok(num(104))),
        (Value::Ptr(Name::Lit(1, 3), 2), Ty::Char, Err(Trap::Bounds)),
    ] {
        assert_eq!(rt; heap.load(p, ty), want, "{p:?} at {ty:?}");
    }
    Ok(())
}

#[test]
fn stores(rt: HostRuntime) -> Result<(), Fail> {
    let mut heap = small(rt.alloc())?;
    for (p, ty, want) in [
        (Value::Null, Ty::Int, Err(Trap::Null)),
        (num(0), Ty::Int, Err(Trap::Dead)),
        (heap_at(address(0, 1), 0), Ty::Int, Err(Trap::Dead)),
        (heap_at(0, 2), Ty::Int, Err(Trap::Bounds)),
        (heap_at(0, 0), Ty::Long, Err(Trap::Bounds)),
        (Value::Ptr(Name::Lit(1, 4), 0), Ty::Char, Err(Trap::Dead)),
        (Value::Ptr(Name::Lit(1, 3), 2), Ty::Char, Err(Trap::Bounds)),
        (Value::Ptr(Name::Lit(1, 3), 0), Ty::Int, Err(Trap::Bounds)),
        (Value::Ptr(Name::Lit(1, 3), 0), Ty::Char, Err(Trap::Literal)),
        (heap_at(0, 0), Ty::Int, Ok(())),
        (Value::Ptr(Name::Glob(2), 1), Ty::Char, Ok(())),
    ] {
        assert_eq!(rt; heap.store(p, ty, num(9)), want, "{p:?} at {ty:?}");
    }
    for (p, ty, want) in [
        (heap_at(0, 0), Ty::Int, Ok(num(9))),
        (heap_at(0, 1), Ty::Ptr(4), Err(Trap::Uninit)),
        (Value::Ptr(Name::Glob(2), 0), Ty::Int, Ok(num(1))),
        (Value::Ptr(Name::Glob(2), 1), Ty::Char, Ok(num(9))),
        (Value::Ptr(Name::Lit(1, 3), 0), Ty::Char, Ok(num(104))),
    ] {
        assert_eq!(rt; heap.load(p, ty), want, "{p:?} at {ty:?}");
    }
    Ok(())
}

#[test]
fn allocations(rt: HostRuntime) -> Result<(), Fail> {
    let mut heap = Heap::new(rt.alloc(), 0);
    let two = [Ty::Int, Ty::Mutex];
    for (types, count, want) in [
        (&two[..1], 0, Err(AllocFault::Size)),
        (&two[..1], 65_537, Err(AllocFault::Size)),
        (&two[..], 32_769, Err(AllocFault::Size)),
        (&two[..], u32::MAX, Err(AllocFault::Size)),
        (&two[..], 2, Ok(0)),
        (&two[..1], 1, Ok(address(1, 1))),
    ] {
        assert_eq!(rt; allocate(&mut heap, types, count, true), want, "{count}");
    }
    for (offset, ty, want) in [
        (2, Ty::Int, Ok(num(0))),
        (3, Ty::Mutex, Ok(Value::Free)),
        (4, Ty::Int, Err(Trap::Bounds)),
    ] {
        assert_eq!(rt; heap.load(heap_at(0, offset), ty), want, "{offset}");
    }
    assert_eq!(rt; (heap.next(), heap.given()), (2, 2));
    Ok(())
}

#[test]
fn cells_run_out(rt: HostRuntime) -> Result<(), Fail> {
    let mut heap = Heap::new(rt.alloc(), 100);
    for n in 0..64 {
        assert_eq!(rt;
            allocate(&mut heap, &[Ty::Char], 65_536, false),
            Ok(address(n, n))
        );
    }
    for (count, want) in [(1, AllocFault::Heap), (0, AllocFault::Size)] {
        assert_eq!(rt; allocate(&mut heap, &[Ty::Char], count, false), Err(want));
    }
    let freed = heap.free(heap_at(address(30, 30), 0));
    let made = allocate(&mut heap, &[Ty::Long], 65_536, true);
    assert_eq!(rt; (freed, made), (Ok(()), Ok(address(30, 64))));
    for (p, ty, want) in [
        (heap_at(address(30, 64), 65_535), Ty::Long, Ok(num(0))),
        (
            heap_at(address(30, 64), 65_536),
            Ty::Long,
            Err(Trap::Bounds),
        ),
        (heap_at(address(30, 30), 0), Ty::Char, Err(Trap::Dead)),
    ] {
        assert_eq!(rt; heap.load(p, ty), want, "{p:?} at {ty:?}");
    }
    Ok(())
}

#[test]
fn releases(rt: HostRuntime) -> Result<(), Fail> {
    let mut heap = small(rt.alloc())?;
    for (p, want) in [
        (Value::Null, Ok(())),
        (num(7), Err(Trap::Dead)),
        (heap_at(0, 1), Err(Trap::Free)),
        (Value::Ptr(Name::Glob(2), 0), Err(Trap::Free)),
        (Value::Ptr(Name::Lit(1, 3), 0), Err(Trap::Free)),
        (Value::Ptr(Name::Glob(0), 0), Err(Trap::Dead)),
        (heap_at(0, 0), Ok(())),
        (heap_at(0, 0), Err(Trap::Dead)),
        (heap_at(0, 1), Err(Trap::Dead)),
    ] {
        assert_eq!(rt; heap.free(p), want, "{p:?}");
    }
    let loaded = heap.load(heap_at(0, 0), Ty::Int);
    let stored = heap.store(heap_at(0, 0), Ty::Int, num(1));
    let made = allocate(&mut heap, &[Ty::Int], 1, false);
    assert_eq!(rt;
        (loaded, stored, made),
        (Err(Trap::Dead), Err(Trap::Dead), Ok(address(0, 1)))
    );
    Ok(())
}

#[test]
fn objects_are_looked_up(rt: HostRuntime) -> Result<(), Fail> {
    let mut heap = small(rt.alloc())?;
    assert_eq!(rt; (heap.object_of(7), heap.object_of(8)), (Some(0), None));
    assert_eq!(rt;
        heap.object(0).map(|obj| (obj.ty, obj.count, obj.serial)),
        Some((4, 1, 7))
    );
    for (found, want) in [
        (heap.object(0), true),
        (heap.object(address(0, 1)), false),
        (heap.global(2), true),
        (heap.global(1), false),
        (heap.literal(1, 3), true),
        (heap.literal(1, 2), false),
        (heap.literal(3, 3), false),
    ] {
        assert_eq!(rt;
            found.is_some_and(|obj| obj.cells.as_slice().len() == 2),
            want
        );
    }
    let freed = heap.free(heap_at(0, 0));
    assert_eq!(rt; (freed, heap.object_of(7)), (Ok(()), None));
    Ok(())
}

#[test]
fn an_object_is_placed(rt: HostRuntime) -> Result<(), Fail> {
    let alloc = rt.alloc();
    let mut heap = Heap::new(alloc, 10);
    let obj = Obj {
        ty: 2,
        count: 1,
        serial: 6,
        cells: Cells::from_vec(vec![in alloc; Cell::new(Ty::Long, num(3))]?),
    };
    let a = heap.place(obj)?;
    assert_eq!(rt; a, 0);
    assert_eq!(rt; (heap.object_of(6), heap.object_of(5)), (Some(a), None));
    assert_eq!(rt; heap.load(heap_at(a, 0), Ty::Long), Ok(num(3)));
    assert_eq!(rt; (heap.next(), heap.given()), (10, 1));
    let made = allocate(&mut heap, &[Ty::Int], 1, false);
    assert_eq!(rt;
        (made, heap.object_of(10)),
        (Ok(address(1, 1)), Some(address(1, 1)))
    );
    let freed = heap.free(heap_at(a, 0));
    let loaded = heap.load(heap_at(a, 0), Ty::Long);
    assert_eq!(rt; (freed, loaded), (Ok(()), Err(Trap::Dead)));
    Ok(())
}

#[test]
fn a_key_is_used_again(rt: HostRuntime) -> Result<(), Fail> {
    let mut heap = Heap::new(rt.alloc(), 0);
    for n in 0..3 {
        assert_eq!(rt;
            allocate(&mut heap, &[Ty::Int], 1, false),
            Ok(address(n, n))
        );
    }
    let freed = heap.free(heap_at(address(1, 1), 0));
    assert_eq!(rt; (freed, heap.slots()), (Ok(()), 3));
    for (key, want) in [(0, Some(0)), (1, None), (2, Some(address(2, 2))), (3, None)] {
        assert_eq!(rt; heap.at_key(key), want, "{key}");
    }
    let made = allocate(&mut heap, &[Ty::Int], 1, false);
    assert_eq!(rt; (made, heap.slots()), (Ok(address(1, 3)), 3));
    assert_eq!(rt;
        (heap.at_key(1), heap.object_of(3)),
        (Some(address(1, 3)), Some(address(1, 3)))
    );
    Ok(())
}

#[test]
fn released_places_are_used_again(rt: HostRuntime) -> Result<(), Fail> {
    let mut heap = Heap::new(rt.alloc(), 0);
    for n in 0..20_000 {
        let a = address(0, n);
        let made = allocate(&mut heap, &[Ty::Int, Ty::Ptr(4)], 1, false);
        let freed = heap.free(heap_at(a, 0));
        assert_eq!(rt; (made, freed), (Ok(a), Ok(())));
    }
    assert_eq!(rt;
        (heap.slots(), heap.given(), heap.next()),
        (1, 20_000, 20_000)
    );
    Ok(())
}
