//! What old values give by default.
ghost use Rattle.std.specs.Prelude.{◌≡◌};
ghost use Rattle.kt_mem.specs.Memory.{zero_value};
ghost use Rattle.xf_plan.specs.PreValues.{by_default, let_go};

use kt_mem::Value;
use kt_types::Ty;
use xf_plan::PreValue;

/// What an old value gives to a new one of this type: the same number, what becomes of the pointer, a free mutex. The
/// undefined value stays undefined.
pub(crate) fn by_default(ty: Ty, v: Value) -> PreValue
    ensures { result ≡ by_default ty v }
{
    match ty {
        Ty::Ptr(_) => PreValue::OldPointer(v),
        Ty::Mutex => PreValue::Plain(let_go(v)),
        _ => PreValue::Plain(v),
    }
}

// A mutex that nobody holds, or the undefined value.
fn let_go(v: Value) -> Value
    ensures { result ≡ let_go v }
{
    match v {
        Value::Undef => Value::Undef,
        _ => Value::Free,
    }
}

/// Zero, null or free.
pub(crate) fn zero_value(ty: Ty) -> Value
    ensures { result ≡ zero_value ty }
{
    match ty {
        Ty::Char | Ty::Int | Ty::Long => Value::Num(0),
        Ty::Mutex => Value::Free,
        Ty::Ptr(_) => Value::Null,
        Ty::Struct(_) | Ty::Array(..) => Value::Undef,
    }
}
