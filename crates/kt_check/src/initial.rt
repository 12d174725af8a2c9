//! Initial values of globals (ISO/IEC 9899:2011, 6.7.9).

ghost use Rattle.std.specs.Prelude.{◌≡◌, ◌≤◌, ◌+◌, ◌^◌, ℕ, pos, nat_le, Some, None, if◌then◌else◌};
ghost use Rattle.kt_tree.specs.declared.global.Init.TheVariants as init;
ghost use Rattle.kt_names.specs.Judges.{Judges};
ghost use Rattle.kt_check.specs.Files.{negative, number_init, constant_number, is_zero, mutex_init, root_init, pointer_init, typed_init, initial_of};
ghost use Rattle.kt_check.specs.Stages.{frame_seen};

use crate::frame::Frame;
use kt_lex::Number;
use kt_names::ctype::{CType, Root};
use kt_names::fault::CheckFault;
use kt_syntax::Constant;
use kt_tree::Init;

/// A number of at most `most`.
fn positive_init(most: u64, n: u64) -> Option<Init>
    requires { most ≤ 9223372036854775807 }
    ensures { result ≡ (if nat_le n most then Some (init.Number (pos n)) else None) }
{
    if n <= most {
        Some(Init::Number(n as i64))
    } else {
        None
    }
}

/// A number with a minus, whose size is at most one more than `most`.
fn negative_init(most: u64, n: u64) -> Option<Init>
    requires { most ≤ 9223372036854775807 }
    ensures { result ≡ (if nat_le n (most + 1) then Some (init.Number (negative n)) else None) }
{
    if n == 0 {
        return Some(Init::Number(0));
    }
    if n - 1 <= most {
        Some(Init::Number(-1 - (n - 1) as i64))
    } else {
        None
    }
}

/// A number where it is within the type whose greatest is `most`.
fn number_init(most: u64, c: &Constant) -> Option<Init>
    requires { most ≤ 9223372036854775807 }
    ensures { (bits : ℕ) → 2 ^ bits ≡ most + 1 → result ≡ number_init bits (constant_number c.now) }
{
    match c {
        Constant::Number(n) => positive_init(most, n.value),
        Constant::Negative(n) => negative_init(most, n.value),
        Constant::Character(b) => positive_init(most, *b as u64),
        Constant::Eof => Some(Init::Number(-1)),
        Constant::Text(_, _) => None,
        Constant::Null => None,
        Constant::MutexInitializer => None,
    }
}

/// The number is spelled `0`.
fn is_zero(n: &Number) -> bool
    ensures { result ≡ is_zero n.now }
{
    n.value == 0 && !n.long && !n.hexadecimal
}

/// The initial value of a mutex.
fn mutex_init(c: &Constant) -> Option<Init>
    ensures { result ≡ mutex_init c.now }
{
    match c {
        Constant::MutexInitializer => Some(Init::Free),
        Constant::Number(_) => None,
        Constant::Negative(_) => None,
        Constant::Character(_) => None,
        Constant::Eof => None,
        Constant::Text(_, _) => None,
        Constant::Null => None,
    }
}

/// The initial value of a type without stars.
fn root_init(root: Root, c: &Constant) -> Option<Init>
    ensures { result ≡ root_init root c.now }
{
    match root {
        Root::Char => number_init(127, c),
        Root::Int => number_init(2_147_483_647, c),
        Root::Long => number_init(9_223_372_036_854_775_807, c),
        Root::Mutex => mutex_init(c),
        Root::Struct(_) => None,
    }
}

/// The initial value of a pointer.
fn pointer_init(frame: &Frame<'_>, t: CType, c: &Constant) -> Option<Init>
    ensures { result ≡ pointer_init (frame_seen frame.now) t c.now }
{
    match c {
        Constant::Null => Some(Init::Null),
        Constant::Number(n) => { if is_zero(n) { Some(Init::Null) } else { None } }
        Constant::Text(at, _) => {
            if t.is(CType::text()) {
                Some(Init::Literal(frame.literal(*at)))
            } else {
                None
            }
        }
        Constant::Negative(_) => None,
        Constant::Character(_) => None,
        Constant::Eof => None,
        Constant::MutexInitializer => None,
    }
}

/// The initial value of a type.
fn typed_init(frame: &Frame<'_>, t: CType, c: &Constant) -> Option<Init>
    ensures { result ≡ typed_init (frame_seen frame.now) t c.now }
{
    if t.stars == 0 {
        root_init(t.root, c)
    } else {
        pointer_init(frame, t, c)
    }
}

/// The initial value of a global. An array has none that is written.
pub(crate) fn initial_of(
    frame: &Frame<'_>,
    t: CType,
    array: bool,
    at: u32,
    initial: &Option<Constant>,
) -> Result<Init, CheckFault>
    ensures { Judges (λ x. x) result (initial_of (frame_seen frame.now) t array at initial.now) }
{
    match initial {
        None => Ok(Init::Zero),
        Some(c) => {
            if array {
                return Err(CheckFault::BadType { at });
            }
            match typed_init(frame, t, c) {
                Some(init) => Ok(init),
                None => Err(CheckFault::BadType { at }),
            }
        }
    }
}
