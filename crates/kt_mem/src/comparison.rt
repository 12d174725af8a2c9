//! Comparisons, and the test of a value for zero.
ghost use Rattle.std.specs.Prelude.{◌≡◌, Bool, ℤ, pos, Result, Ok, Err};
ghost use Rattle.kt_mem.specs.Values.{truth, defined};
ghost use Rattle.kt_mem.specs.Comparisons.{equality, compared_numbers, zero_test, equal_value, not_equal_value, not_value, less_value, greater_value, less_equal_value, greater_equal_value};

use crate::arithmetic::offsets;
use crate::memory::Value;
use crate::steps::Trap;

/// `a == b`: 1 or 0, of two numbers, or of two pointers or nulls. Pointers are equal where names and
/// offsets are, whether or not the object lives. Anything else is `uninit` (ISO/IEC 9899:2011, 6.5.9).
#[inline]
pub fn equal(a: Value, b: Value) -> Result<Value, Trap>
    ensures exact { result ≡ equal_value a b }
{
    Ok(truth(are_equal(a, b)?))
}

/// `a != b`: 1 or 0, as `equal` (ISO/IEC 9899:2011, 6.5.9).
#[inline]
pub fn not_equal(a: Value, b: Value) -> Result<Value, Trap>
    ensures exact { result ≡ not_equal_value a b }
{
    Ok(truth(!are_equal(a, b)?))
}

/// `a < b`: 1 or 0, of two numbers, or of two pointers: `null` where one is null, else `bounds` where
/// they point into different objects. Anything else is `uninit` (ISO/IEC 9899:2011, 6.5.8).
#[inline]
pub fn less(a: Value, b: Value) -> Result<Value, Trap>
    ensures exact { result ≡ less_value a b }
{
    let (x, y) = ordered(a, b)?;
    Ok(truth(x < y))
}

/// `a > b`: 1 or 0, as `less` (ISO/IEC 9899:2011, 6.5.8).
#[inline]
pub fn greater(a: Value, b: Value) -> Result<Value, Trap>
    ensures exact { result ≡ greater_value a b }
{
    let (x, y) = ordered(a, b)?;
    Ok(truth(x > y))
}

/// `a <= b`: 1 or 0, as `less` (ISO/IEC 9899:2011, 6.5.8).
#[inline]
pub fn less_equal(a: Value, b: Value) -> Result<Value, Trap>
    ensures exact { result ≡ less_equal_value a b }
{
    let (x, y) = ordered(a, b)?;
    Ok(truth(x <= y))
}

/// `a >= b`: 1 or 0, as `less` (ISO/IEC 9899:2011, 6.5.8).
#[inline]
pub fn greater_equal(a: Value, b: Value) -> Result<Value, Trap>
    ensures exact { result ≡ greater_equal_value a b }
{
    let (x, y) = ordered(a, b)?;
    Ok(truth(x >= y))
}

/// Whether a condition fails: a number is 0, or a pointer is null. Anything else is `uninit`
/// (ISO/IEC 9899:2011, 6.8.4.1).
#[inline]
pub fn is_zero(a: Value) -> Result<bool, Trap>
    ensures exact { result ≡ zero_test a }
{
    match a {
        Value::Num(z) => Ok(z == 0),
        Value::Null => Ok(true),
        Value::Ptr(..) => Ok(false),
        _ => Err(Trap::Uninit),
    }
}

/// `!a`: 1 where `is_zero`, else 0 (ISO/IEC 9899:2011, 6.5.3.3).
#[inline]
pub fn not(a: Value) -> Result<Value, Trap>
    ensures exact { result ≡ not_value a }
{
    Ok(truth(is_zero(a)?))
}

/// The value that a test gives: 1 or 0.
#[inline]
pub fn truth(test: bool) -> Value
    ensures exact { result ≡ truth test }
{
    Value::Num(i64::from(test))
}

/// What is read: the value, or `uninit` where it is undefined.
#[inline]
pub fn defined(a: Value) -> Result<Value, Trap>
    ensures exact { result ≡ defined a }
{
    match a {
        Value::Undef => Err(Trap::Uninit),
        _ => Ok(a),
    }
}

/// Whether two values are equal.
#[inline]
fn are_equal(a: Value, b: Value) -> Result<bool, Trap>
    ensures { result ≡ equality a b }
{
    match (a, b) {
        (Value::Num(x), Value::Num(y)) => Ok(x == y),
        (Value::Null, Value::Null) => Ok(true),
        (Value::Null, Value::Ptr(..)) | (Value::Ptr(..), Value::Null) => Ok(false),
        (Value::Ptr(n, k), Value::Ptr(o, j)) => Ok(n == o && k == j),
        _ => Err(Trap::Uninit),
    }
}

/// The numbers that an order compares: the values, or the offsets of pointers into one object.
#[inline]
fn ordered(a: Value, b: Value) -> Result<(i64, i64), Trap>
    ensures { result ≡ compared_numbers a b }
{
    match (a, b) {
        (Value::Num(x), Value::Num(y)) => Ok((x, y)),
        (p, q) => {
            let (k, j) = offsets(p, q)?;
            Ok((i64::from(k), i64::from(j)))
        }
    }
}
