//! Exact arithmetic on values.
ghost use Rattle.std.specs.Prelude.{◌≡◌, ◌≢◌, ◌≤◌, ◌<◌, ◌^◌, unsigned_abs, pos, ◌-ℤ◌, int_div, int_rem};
ghost use Rattle.kt_mem.specs.Arithmetic.{within, number, quotient, place, moved, offsets, on_offsets, at_pointer, sum_of, difference_of, product_of, quotient_of, remainder_of, narrowed};

use crate::memory::{Name, Value};
use crate::steps::Trap;
use kt_types::Ty;

/// The greatest offset of a pointer, in cells.
const LAST_OFFSET: i128 = 65_536;

/// `a + b`.
///
/// At `char`, `int` and `long`, of two numbers: the exact sum, or `overflow` where the type does not
/// hold it. At a pointer type, of a pointer and a number of cells, on either side: the pointer moved
/// by them; `null` where it is null, else `bounds` where the offset would leave 0 to 65,536.
/// Anything else is `uninit` (ISO/IEC 9899:2011, 6.5.6).
#[inline]
pub fn add(ty: Ty, a: Value, b: Value) -> Result<Value, Trap>
    ensures exact { result ≡ sum_of ty a b }
{
    match (a, b) {
        (Value::Num(x), Value::Num(y)) => {
            number(ty, Trap::Overflow, i128::from(x) + i128::from(y))
        }
        (pointer, Value::Num(cells)) => at_pointer(ty, moved(pointer, i128::from(cells))),
        (Value::Num(cells), pointer) => at_pointer(ty, moved(pointer, i128::from(cells))),
        _ => Err(Trap::Uninit),
    }
}

/// `a - b`.
///
/// At `char`, `int` and `long`, of two numbers: the exact difference, or `overflow` where the type
/// does not hold it. At a pointer type, of a pointer and a number of cells, as `add`. At `long`, of
/// two pointers: the number of cells between them; `null` where one is null, else `bounds` where they
/// point into different objects. Anything else is `uninit` (ISO/IEC 9899:2011, 6.5.6).
#[inline]
pub fn sub(ty: Ty, a: Value, b: Value) -> Result<Value, Trap>
    ensures exact { result ≡ difference_of ty a b }
{
    match (a, b) {
        (Value::Num(x), Value::Num(y)) => {
            number(ty, Trap::Overflow, i128::from(x) - i128::from(y))
        }
        (pointer, Value::Num(cells)) => at_pointer(ty, moved(pointer, -i128::from(cells))),
        (p, q) => match ty {
            Ty::Long => cells_between(p, q),
            _ => Err(Trap::Uninit),
        },
    }
}

/// `a * b`.
///
/// At `char`, `int` and `long`, of two numbers: the exact product, or `overflow` where the type does
/// not hold it. Anything else is `uninit` (ISO/IEC 9899:2011, 6.5.5).
#[inline]
pub fn mul(ty: Ty, a: Value, b: Value) -> Result<Value, Trap>
    ensures exact { result ≡ product_of ty a b }
{
    match (a, b) {
        (Value::Num(x), Value::Num(y)) => {
            number(ty, Trap::Overflow, i128::from(x) * i128::from(y))
        }
        _ => Err(Trap::Uninit),
    }
}

/// `a / b`.
///
/// At `char`, `int` and `long`, of two numbers: `zero` where `b` is 0; else the quotient toward zero,
/// or `overflow` where the type does not hold it. Anything else is `uninit` (ISO/IEC 9899:2011,
/// 6.5.5).
#[inline]
pub fn div(ty: Ty, a: Value, b: Value) -> Result<Value, Trap>
    ensures exact { result ≡ quotient_of ty a b }
{
    match (a, b) {
        (Value::Num(x), Value::Num(y)) => quotient(ty, x, y),
        _ => Err(Trap::Uninit),
    }
}

/// `a % b`.
///
/// At `char`, `int` and `long`, of two numbers: `zero` and `overflow` where `a / b` has them; else
/// the remainder, with the sign of `a`. Anything else is `uninit` (ISO/IEC 9899:2011, 6.5.5).
#[inline]
pub fn rem(ty: Ty, a: Value, b: Value) -> Result<Value, Trap>
    ensures exact { result ≡ remainder_of ty a b }
{
    match (a, b) {
        (Value::Num(x), Value::Num(y)) => {
            quotient(ty, x, y)?;
            number(ty, Trap::Overflow, rest_of(x, y))
        }
        _ => Err(Trap::Uninit),
    }
}

/// A number that is converted to the type.
///
/// At `char`, `int` and `long`, of a number: the same number, or `range` where the type does not hold
/// it. Anything else is `uninit` (ISO/IEC 9899:2011, 6.3.1.3).
#[inline]
pub fn narrow(ty: Ty, a: Value) -> Result<Value, Trap>
    ensures exact { result ≡ narrowed ty a }
{
    match a {
        Value::Num(z) => number(ty, Trap::Range, i128::from(z)),
        _ => Err(Trap::Uninit),
    }
}

/// The number, or the trap where the integer type does not hold it.
#[inline]
fn number(ty: Ty, trap: Trap, z: i128) -> Result<Value, Trap>
    ensures { result ≡ number ty trap z }
{
    match ty {
        Ty::Char => within(1 << 7, trap, z),
        Ty::Int => within(1 << 31, trap, z),
        Ty::Long => within(1 << 63, trap, z),
        _ => Err(Trap::Uninit),
    }
}

/// The number, or the trap where it does not lie from `-limit` to `limit - 1`.
#[inline]
fn within(limit: u64, trap: Trap, z: i128) -> Result<Value, Trap>
    requires { limit ≤ 2 ^ 63 }
    ensures { result ≡ within limit trap z }
{
    let limit = i128::from(limit);
    if -limit <= z && z < limit {
        Ok(Value::Num(z as i64))
    } else {
        Err(trap)
    }
}

/// The quotient toward zero, or the trap.
#[inline]
fn quotient(ty: Ty, x: i64, y: i64) -> Result<Value, Trap>
    ensures { result ≡ quotient ty x y }
{
    if y == 0 {
        Err(Trap::Zero)
    } else {
        number(ty, Trap::Overflow, ratio(x, y))
    }
}

/// The quotient toward zero. Only one by -1 may take more than 64 bits.
#[inline]
fn ratio(x: i64, y: i64) -> i128
    requires { y ≢ pos 0 }
    ensures { result ≡ int_div x y }
{
    if y == -1 {
        i128::from(x) / i128::from(y)
    } else {
        i128::from(x / y)
    }
}

/// The remainder beside the quotient toward zero.
#[inline]
fn rest_of(x: i64, y: i64) -> i128
    requires { y ≢ pos 0 }
    ensures { result ≡ int_rem x y }
{
    if y == -1 {
        i128::from(x) % i128::from(y)
    } else {
        i128::from(x % y)
    }
}

/// The answer, which stands at pointer types alone.
#[inline]
fn at_pointer(ty: Ty, answer: Result<Value, Trap>) -> Result<Value, Trap>
    ensures { result ≡ at_pointer ty answer }
{
    match ty {
        Ty::Ptr(_) => answer,
        _ => Err(Trap::Uninit),
    }
}

/// The number of cells from the second pointer to the first.
#[inline]
fn cells_between(p: Value, q: Value) -> Result<Value, Trap>
    ensures { result ≡ on_offsets (λ k j. Ok (Value.Num (pos k -ℤ pos j))) (offsets p q) }
{
    match offsets(p, q) {
        Ok((k, j)) => Ok(Value::Num(i64::from(k) - i64::from(j))),
        Err(trap) => Err(trap),
    }
}

/// The pointer, moved by a number of cells.
#[inline]
pub(crate) fn moved(pointer: Value, cells: i128) -> Result<Value, Trap>
    requires { unsigned_abs cells < 2 ^ 100 }
    ensures { result ≡ moved pointer cells }
{
    match pointer {
        Value::Null => Err(Trap::Null),
        Value::Ptr(name, offset) => place(name, i128::from(offset) + cells),
        _ => Err(Trap::Uninit),
    }
}

/// The pointer into the object at the offset.
#[inline]
fn place(name: Name, offset: i128) -> Result<Value, Trap>
    ensures { result ≡ place name offset }
{
    if (0..=LAST_OFFSET).contains(&offset) {
        Ok(Value::Ptr(name, offset as u32))
    } else {
        Err(Trap::Bounds)
    }
}

/// The offsets of two pointers into one object.
#[inline]
pub(crate) fn offsets(p: Value, q: Value) -> Result<(u32, u32), Trap>
    ensures { result ≡ offsets p q }
{
    match (p, q) {
        (Value::Ptr(name, k), Value::Ptr(other, j)) => {
            if name == other {
                Ok((k, j))
            } else {
                Err(Trap::Bounds)
            }
        }
        (Value::Null, Value::Null | Value::Ptr(..)) | (Value::Ptr(..), Value::Null) => {
            Err(Trap::Null)
        }
        _ => Err(Trap::Uninit),
    }
}
