//! Pointer arithmetic by elements of an object.
ghost use Rattle.std.specs.Prelude.{◌≡◌, ◌<◌, ◌^◌, pos, ◌*ℤ◌, unsigned_abs};
ghost use Rattle.kt_mem.specs.Elements.{element_after, element_before, elements_between, whole_elements};

use crate::arithmetic::{moved, offsets};
use crate::memory::Value;
use crate::steps::Trap;

/// `p + i`, where an element has `width` cells: `null` where `p` is null, else `bounds` where the
/// offset would leave 0 to 65,536. Anything but a pointer or null and a number is `uninit` (ISO/IEC
/// 9899:2011, 6.5.6).
#[inline]
pub fn add_elements(p: Value, i: Value, width: u32) -> Result<Value, Trap>
    ensures exact { result ≡ element_after p i width }
{
    match i {
        Value::Num(count) => moved(p, cells(count, width)),
        _ => Err(Trap::Uninit),
    }
}

/// `p - i`, as `add_elements` (ISO/IEC 9899:2011, 6.5.6).
#[inline]
pub fn sub_elements(p: Value, i: Value, width: u32) -> Result<Value, Trap>
    ensures exact { result ≡ element_before p i width }
{
    match i {
        Value::Num(count) => moved(p, -cells(count, width)),
        _ => Err(Trap::Uninit),
    }
}

/// `p - q`, where an element has `width` cells: the number of elements from `q` to `p`; `null` where
/// one is null, else `bounds` where they point into different objects or are no whole elements apart.
/// Anything else is `uninit` (ISO/IEC 9899:2011, 6.5.6).
#[inline]
pub fn elements_between(p: Value, q: Value, width: u32) -> Result<Value, Trap>
    requires { 0 < width }
    ensures exact { result ≡ elements_between p q width }
{
    let (k, j) = offsets(p, q)?;
    whole_elements(i64::from(k) - i64::from(j), width)
}

/// The cells of a number of elements.
#[inline]
fn cells(count: i64, width: u32) -> i128
    ensures value { result ≡ count *ℤ pos width }
    ensures bound { unsigned_abs result < 2 ^ 96 }
{
    i128::from(count) * i128::from(width)
}

/// A number of cells as whole elements, or `bounds`.
#[inline]
fn whole_elements(cells: i64, width: u32) -> Result<Value, Trap>
    requires { 0 < width }
    ensures { result ≡ whole_elements width cells }
{
    let width = i64::from(width);
    if cells % width == 0 {
        Ok(Value::Num(cells / width))
    } else {
        Err(Trap::Bounds)
    }
}
