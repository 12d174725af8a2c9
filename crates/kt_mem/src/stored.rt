//! Values in sixteen bytes.
ghost use Rattle.std.specs.Prelude.{◌≡◌};
ghost use Rattle.kt_mem.specs.Comparisons.{zero_test};
ghost use Rattle.kt_mem.specs.Values.{defined, number_of};

use crate::memory::{Name, Value};
use crate::steps::Trap;
use std::marker::Model;

// Cells, locals and operands are copied all the time.
const _: () = prove!(size_of::<Stored>() <= 16);

/// A value as cells, locals and operands keep it: in half the room of a `Value`.
#[derive(Clone, Copy)]
pub struct Stored {
    form: Form,
}

/// The same with one tag, where a `Value` that is a pointer has two. A pointer's offset comes first, so that it lies beside
/// the tag.
#[derive(Clone, Copy)]
enum Form {
    Num(i64),
    Null,
    // A pointer into a global: the offset, and the global's number.
    Glob(u32, u32),
    // A pointer into a literal: the offset, the version and the literal's number.
    Lit(u32, u8, u32),
    // A pointer into a heap object: the offset, and the object's number.
    Heap(u32, u64),
    Free,
    Held(u8),
    Undef,
}

impl Model for Stored {
    ghost use Rattle.kt_mem.specs.declared.memory.Value.{Value as Content};

    ghost Value = { Content };

    ghost use Rattle.kt_mem.specs.Stored.{value_of, form_of, form_of-value_of};
    ghost use Rattle.std.proofs.Common.{ap};

    ghost view = { λ s. value_of s.form };

    ghost inverse = { λ v. record { form = form_of v } };

    ghost inverse_ok = { λ s _. ap (λ f. record { form = f }) (form_of-value_of s.form) };
}

impl Stored {
    /// The value, as it is kept.
    #[inline]
    pub fn of(value: Value) -> Stored
        ensures { result ≡ value }
    {
        let form = match value {
            Value::Num(z) => Form::Num(z),
            Value::Null => Form::Null,
            Value::Ptr(Name::Glob(i), offset) => Form::Glob(offset, i),
            Value::Ptr(Name::Lit(v, i), offset) => Form::Lit(offset, v, i),
            Value::Ptr(Name::Heap(a), offset) => Form::Heap(offset, a),
            Value::Free => Form::Free,
            Value::Held(thread) => Form::Held(thread),
            Value::Undef => Form::Undef,
        };
        Stored { form }
    }

    /// The value that is kept.
    #[inline]
    pub fn value(self) -> Value
        ensures { result ≡ self }
    {
        match self.form {
            Form::Num(z) => Value::Num(z),
            Form::Null => Value::Null,
            Form::Glob(offset, i) => Value::Ptr(Name::Glob(i), offset),
            Form::Lit(offset, v, i) => Value::Ptr(Name::Lit(v, i), offset),
            Form::Heap(offset, a) => Value::Ptr(Name::Heap(a), offset),
            Form::Free => Value::Free,
            Form::Held(thread) => Value::Held(thread),
            Form::Undef => Value::Undef,
        }
    }

    /// The number, where the value is one.
    #[inline]
    pub fn number(self) -> Option<i64>
        ensures { result ≡ number_of self }
    {
        match self.form {
            Form::Num(z) => Some(z),
            _ => None,
        }
    }

    /// What is read: the value, or `uninit` where it is undefined.
    #[inline]
    pub fn defined(self) -> Result<Stored, Trap>
        ensures { result ≡ defined self }
    {
        match self.form {
            Form::Undef => Err(Trap::Uninit),
            _ => Ok(self),
        }
    }

    /// Whether a condition fails, as `is_zero` of the value.
    #[inline]
    pub fn is_zero(self) -> Result<bool, Trap>
        ensures { result ≡ zero_test self }
    {
        match self.form {
            Form::Num(z) => Ok(z == 0),
            Form::Null => Ok(true),
            Form::Glob(..) | Form::Lit(..) | Form::Heap(..) => Ok(false),
            _ => Err(Trap::Uninit),
        }
    }
}
