//! What requests give, and what they change in the thread itself.
ghost use Rattle.std.specs.Prelude.{◌≡◌, [], ◌∷◌};
ghost use Rattle.kt_meaning.specs.Requests.{byte_value, request_value, stored_value};
ghost use Rattle.kt_meaning.specs.Thread.{is_updating, is_updating_from, kept_value, locals_after, restart_after, value_for};
ghost use Rattle.kt_exec.specs.Apart.{taken, restart_of, with_restart};
ghost use Rattle.kt_exec.specs.Requests.{changed_for};

use crate::requests::low_byte;
use kt_code::{Frame, Private};
use kt_mem::{Act, KeptLocal, KeptLocals, Mode, Stored, Value, truth};
use kt_tree::Request;
use std::alloc::Global;

/// Whether the thread is on its way to a point.
fn is_updating(mode: Mode) -> bool
    ensures { result ≡ is_updating mode }
{
    matches!(mode, Mode::Updating(_))
}

/// Whether the thread is on its way from this point.
fn is_updating_from(n: u32, mode: Mode) -> bool
    ensures { result ≡ is_updating_from n mode }
{
    match mode {
        Mode::Normal => false,
        Mode::Updating(m) => m == n,
    }
}

/// The value that an update kept for a local.
fn value_for(function: u32, n: u32, kept: &[KeptLocal]) -> Option<Value>
    ensures { result ≡ value_for function n kept.now }
{
    for local in kept {
        if local.function == function && local.local == n {
            return Some(local.value);
        }
    }
    None
}

/// The same, on the way to a point.
fn kept_value(function: u32, n: u32, rest: &Private) -> Option<Value>
    ensures { result ≡ kept_value (restart_of rest.now) function n }
{
    if is_updating(rest.mode) {
        value_for(function, n, rest.locals.as_slice())
    } else {
        None
    }
}

/// What a store gives.
fn stored_value(values: &[Stored]) -> Value
    ensures { result ≡ stored_value values.now }
{
    match values {
        [_, value] => value.value(),
        _ => Value::Undef,
    }
}

/// What `putchar` gives.
fn byte_value(values: &[Stored]) -> Value
    ensures { result ≡ byte_value values.now }
{
    match values {
        [value] => byte_of(value.value()),
        _ => Value::Undef,
    }
}

/// The byte of a number, as a value.
fn byte_of(value: Value) -> Value
    ensures { result ≡ byte_value (value ∷ []) }
{
    match value {
        Value::Num(n) => Value::Num(i64::from(low_byte(n))),
        _ => Value::Undef,
    }
}

/// What a request gives, where the reply told this value.
pub(crate) fn request_value(
    request: &Request,
    values: &[Stored],
    told: Value,
    frame: &Frame,
    rest: &Private,
) -> Value
    ensures { result ≡ request_value frame.now.function (restart_of rest.now) request.now values.now told }
{
    match request {
        Request::Load => told,
        Request::Store => stored_value(values),
        Request::Allocate(_, _) => told,
        Request::Release => Value::Undef,
        Request::Lock => Value::Num(0),
        Request::Unlock => Value::Num(0),
        Request::InitMutex => Value::Num(0),
        Request::GetChar => told,
        Request::PutChar => byte_value(values),
        Request::Puts => Value::Num(0),
        Request::Print(_) => told,
        Request::Create(_) => told,
        Request::Join => Value::Num(0),
        Request::Point(_) => Value::Undef,
        Request::IsUpdating => truth(is_updating(rest.mode)),
        Request::IsUpdatingFrom(n) => truth(is_updating_from(*n, rest.mode)),
        Request::Automigrate => Value::Undef,
        Request::MigrateLocal(n) => truth(kept_value(frame.function, *n, rest).is_some()),
    }
}

/// What the act of a request changes in the thread itself.
pub(crate) fn change(alloc: Global, request: &Request, frame: &mut Frame, rest: &mut Private)
    ensures place { taken frame.new rest.new ≡ changed_for request.now (taken frame.old rest.old) }
    ensures operands { rest.new.operands ≡ rest.old.operands }
{
    match request {
        Request::Point(n) => end_update(alloc, *n, rest),
        Request::MigrateLocal(n) => migrate_local(*n, frame, rest),
        _ => {}
    }
}

/// A thread on its way from this point is normal from there on, and keeps nothing more.
fn end_update(alloc: Global, n: u32, rest: &mut Private)
    ensures { rest.new ≡ with_restart (restart_after (Act.Point n) (restart_of rest.old)) rest.old }
{
    if is_updating_from(n, rest.mode) {
        rest.mode = Mode::Normal;
        rest.locals = KeptLocals::from_vec(Vec::new(alloc));
    }
}

/// A local has the value that an update kept for it, where there is one.
fn migrate_local(n: u32, frame: &mut Frame, rest: &Private)
    ensures { frame.new ≡ record frame.old { locals = locals_after (Act.MigrateLocal frame.old.function n) (restart_of rest.now) frame.old.locals } }
{
    if let Some(value) = kept_value(frame.function, n, rest) {
        frame.locals.set(n, Stored::of(value));
    }
}
