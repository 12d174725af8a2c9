//! Cells, each in 24 bytes.
ghost use Rattle.std.specs.Prelude.{◌≡◌, None, Some, if◌then◌else◌};
ghost use Rattle.kt_types.specs.declared.kinds.Ty.TheVariants as ty;
ghost use Rattle.kt_mem.specs.Kept.{kept_as};
ghost use Rattle.kt_mem.specs.Values.{ty_eq};

use crate::memory::{Name, Value};
use crate::stored::Stored;
use kt_types::Ty;
use std::marker::Model;

/// A scalar cell of an object: its type, which never changes, and what it holds.
#[derive(Clone, Copy)]
pub struct Cell {
    kept: Kept,
}

/// A cell as it is kept: the type's tag and number lie before the value. No layout has a cell of an array type: its second
/// number takes the room of the value's tag, so that one tag says both.
#[derive(Clone, Copy)]
enum Kept {
    Char(Stored),
    Int(Stored),
    Long(Stored),
    Mutex(Stored),
    Struct(u32, Stored),
    Ptr(u32, Stored),
    // Of an array: the element's type, the count of elements, and the value as `Stored` has it.
    ArrayNum(u32, u32, i64),
    ArrayNull(u32, u32),
    ArrayGlob(u32, u32, u32, u32),
    ArrayLit(u8, u32, u32, u32, u32),
    ArrayHeap(u32, u32, u32, u64),
    ArrayFree(u32, u32),
    ArrayHeld(u8, u32, u32),
    ArrayUndef(u32, u32),
}

// So the 4,194,304 heap cells that may live take 96 MiB.
const _: () = prove!(size_of::<Cell>() <= 24);

impl Model for Cell {
    ghost use Rattle.kt_mem.specs.Memory.{Cell as Content};

    ghost Value = { Content };

    ghost use Rattle.kt_mem.specs.Kept.{content_of, kept_of, kept_of-content_of};
    ghost use Rattle.std.proofs.Common.{ap};

    ghost view = { λ c. content_of c.kept };

    ghost inverse = { λ c. record { kept = kept_of c } };

    ghost inverse_ok = { λ a _. ap (λ k. record { kept = k }) (kept_of-content_of a.kept) };
}

impl Cell {
    /// A cell of a type that holds a value.
    pub fn new(ty: Ty, value: Value) -> Cell
        ensures { result ≡ record { ty = ty; value = value } }
    {
        Cell {
            kept: Kept::of(ty, value),
        }
    }

    /// Its type.
    pub fn ty(&self) -> Ty
        ensures { result ≡ self.now.ty }
    {
        match self.kept {
            Kept::Char(_) => Ty::Char,
            Kept::Int(_) => Ty::Int,
            Kept::Long(_) => Ty::Long,
            Kept::Mutex(_) => Ty::Mutex,
            Kept::Struct(i, _) => Ty::Struct(i),
            Kept::Ptr(u, _) => Ty::Ptr(u),
            Kept::ArrayNum(e, n, _) => Ty::Array(e, n),
            Kept::ArrayNull(e, n) => Ty::Array(e, n),
            Kept::ArrayGlob(e, n, _, _) => Ty::Array(e, n),
            Kept::ArrayLit(_, e, n, _, _) => Ty::Array(e, n),
            Kept::ArrayHeap(e, n, _, _) => Ty::Array(e, n),
            Kept::ArrayFree(e, n) => Ty::Array(e, n),
            Kept::ArrayHeld(_, e, n) => Ty::Array(e, n),
            Kept::ArrayUndef(e, n) => Ty::Array(e, n),
        }
    }

    /// What it holds.
    pub fn value(&self) -> Value
        ensures { result ≡ self.now.value }
    {
        match self.kept {
            Kept::Char(s) => s.value(),
            Kept::Int(s) => s.value(),
            Kept::Long(s) => s.value(),
            Kept::Mutex(s) => s.value(),
            Kept::Struct(_, s) => s.value(),
            Kept::Ptr(_, s) => s.value(),
            Kept::ArrayNum(_, _, z) => Value::Num(z),
            Kept::ArrayNull(_, _) => Value::Null,
            Kept::ArrayGlob(_, _, offset, i) => Value::Ptr(Name::Glob(i), offset),
            Kept::ArrayLit(v, _, _, offset, i) => Value::Ptr(Name::Lit(v, i), offset),
            Kept::ArrayHeap(_, _, offset, a) => Value::Ptr(Name::Heap(a), offset),
            Kept::ArrayFree(_, _) => Value::Free,
            Kept::ArrayHeld(thread, _, _) => Value::Held(thread),
            Kept::ArrayUndef(_, _) => Value::Undef,
        }
    }
}

impl Cell {
    /// What it holds, as it is kept, where it is of this type.
    #[inline]
    pub fn stored(&self, ty: Ty) -> Option<Stored>
        ensures { result ≡ (if ty_eq self.now.ty ty then Some self.now.value else None) }
    {
        match self.kept {
            Kept::Char(s) => where_it(matches!(ty, Ty::Char), s),
            Kept::Int(s) => where_it(matches!(ty, Ty::Int), s),
            Kept::Long(s) => where_it(matches!(ty, Ty::Long), s),
            Kept::Mutex(s) => where_it(matches!(ty, Ty::Mutex), s),
            Kept::Ptr(u, s) => where_it(matches!(ty, Ty::Ptr(t) if t == u), s),
            _ => self.stored_in_any(ty),
        }
    }

    /// The same of any type. It is done seldom, and stands apart so that what is done each time stays short.
    #[inline(never)]
    fn stored_in_any(&self, ty: Ty) -> Option<Stored>
        ensures { result ≡ (if ty_eq self.now.ty ty then Some self.now.value else None) }
    {
        if self.ty() == ty {
            Some(Stored::of(self.value()))
        } else {
            None
        }
    }
}

/// The value, where the test holds.
#[inline]
fn where_it(holds: bool, value: Stored) -> Option<Stored>
    ensures { result ≡ (if holds then Some value else None) }
{
    if holds { Some(value) } else { None }
}

impl Kept {
    /// A cell of a type that holds a value, as it is kept.
    fn of(ty: Ty, value: Value) -> Kept
        ensures { result ≡ kept_as ty value }
    {
        match ty {
            Ty::Char => Kept::Char(Stored::of(value)),
            Ty::Int => Kept::Int(Stored::of(value)),
            Ty::Long => Kept::Long(Stored::of(value)),
            Ty::Mutex => Kept::Mutex(Stored::of(value)),
            Ty::Struct(i) => Kept::Struct(i, Stored::of(value)),
            Ty::Ptr(u) => Kept::Ptr(u, Stored::of(value)),
            Ty::Array(e, n) => Kept::in_array(e, n, value),
        }
    }

    /// The same of an array type.
    fn in_array(e: u32, n: u32, value: Value) -> Kept
        ensures { result ≡ kept_as (ty.Array e n) value }
    {
        match value {
            Value::Num(z) => Kept::ArrayNum(e, n, z),
            Value::Null => Kept::ArrayNull(e, n),
            Value::Ptr(Name::Glob(i), offset) => Kept::ArrayGlob(e, n, offset, i),
            Value::Ptr(Name::Lit(v, i), offset) => Kept::ArrayLit(v, e, n, offset, i),
            Value::Ptr(Name::Heap(a), offset) => Kept::ArrayHeap(e, n, offset, a),
            Value::Free => Kept::ArrayFree(e, n),
            Value::Held(thread) => Kept::ArrayHeld(thread, e, n),
            Value::Undef => Kept::ArrayUndef(e, n),
        }
    }
}
