//! What acts do to the mutexes of a heap.
ghost use Rattle.std.specs.Prelude.{◌≡◌, IsOk, OnErr};
ghost use Rattle.kt_heap.specs.Heap.{memory, given};
ghost use Rattle.kt_mem.specs.Memory.{init_mutex, initialised, lock, locked, unlock, unlocked, value_at, waits, written};
ghost use Rattle.kt_machine.specs.Outside.{left_by, HasCharLiterals, KeepsLiterals};

use kt_heap::Heap;
use kt_mem::{Trap, Value};
use kt_types::Ty;

/// Whether a lock by this thread waits: another thread holds the mutex.
pub(crate) fn waits(heap: &Heap, thread: u8, p: Value) -> bool
    ensures { result ≡ waits (memory heap.now) thread p }
{
    match mutex_at(heap, p) {
        Ok(Value::Held(holder)) => holder != thread,
        _ => false,
    }
}

/// A lock by this thread.
pub(crate) fn lock(heap: &mut Heap, thread: u8, p: Value) -> Result<(), Trap>
    requires { HasCharLiterals (memory heap.old) }
    ensures left { lock (memory heap.old) thread p ≡ left_by result (memory heap.new) }
    ensures kept { OnErr result (memory heap.new ≡ memory heap.old) }
    ensures literals { KeepsLiterals (memory heap.old) (memory heap.new) }
    ensures pairs { given heap.new ≡ given heap.old }
{
    let held = mutex_at(heap, p)?;
    set(heap, p, locked(thread, held))
}

/// An unlock by this thread.
pub(crate) fn unlock(heap: &mut Heap, thread: u8, p: Value) -> Result<(), Trap>
    requires { HasCharLiterals (memory heap.old) }
    ensures left { unlock (memory heap.old) thread p ≡ left_by result (memory heap.new) }
    ensures kept { OnErr result (memory heap.new ≡ memory heap.old) }
    ensures literals { KeepsLiterals (memory heap.old) (memory heap.new) }
    ensures pairs { given heap.new ≡ given heap.old }
{
    let held = mutex_at(heap, p)?;
    set(heap, p, unlocked(thread, held))
}

/// The mutex at a pointer is made free, where nobody holds it.
pub(crate) fn init(heap: &mut Heap, p: Value) -> Result<(), Trap>
    requires { HasCharLiterals (memory heap.old) }
    ensures left { init_mutex (memory heap.old) p ≡ left_by result (memory heap.new) }
    ensures kept { OnErr result (memory heap.new ≡ memory heap.old) }
    ensures literals { KeepsLiterals (memory heap.old) (memory heap.new) }
    ensures pairs { given heap.new ≡ given heap.old }
{
    let held = mutex_at(heap, p)?;
    set(heap, p, initialised(held))
}

/// What the mutex at a pointer holds, also where it is undefined: `null`, `dead`, `bounds`.
fn mutex_at(heap: &Heap, p: Value) -> Result<Value, Trap>
    ensures { result ≡ value_at (memory heap.now) p Ty.Mutex }
{
    match heap.load(p, Ty::Mutex) {
        Err(Trap::Uninit) => Ok(Value::Undef),
        held => held,
    }
}

/// Writes what the mutex at a pointer becomes; a trap leaves it.
fn set(heap: &mut Heap, p: Value, new: Result<Value, Trap>) -> Result<(), Trap>
    requires literals { HasCharLiterals (memory heap.old) }
    requires there { IsOk (value_at (memory heap.old) p Ty.Mutex) }
    ensures left { written (memory heap.old) p Ty.Mutex new ≡ left_by result (memory heap.new) }
    ensures kept { OnErr result (memory heap.new ≡ memory heap.old) }
    ensures literals { KeepsLiterals (memory heap.old) (memory heap.new) }
    ensures pairs { given heap.new ≡ given heap.old }
{
    match new {
        Err(trap) => Err(trap),
        Ok(value) => heap.store(p, Ty::Mutex, value),
    }
}

/// What a lock by this thread makes of a mutex.
fn locked(thread: u8, held: Value) -> Result<Value, Trap>
    ensures { result ≡ locked thread held }
{
    match held {
        Value::Free => Ok(Value::Held(thread)),
        Value::Held(holder) if holder == thread => Err(Trap::Mutex),
        Value::Held(holder) => Ok(Value::Held(holder)),
        _ => Err(Trap::Uninit),
    }
}

/// What an unlock by this thread makes of a mutex.
fn unlocked(thread: u8, held: Value) -> Result<Value, Trap>
    ensures { result ≡ unlocked thread held }
{
    match held {
        Value::Held(holder) if holder == thread => Ok(Value::Free),
        Value::Held(_) | Value::Free => Err(Trap::Mutex),
        _ => Err(Trap::Uninit),
    }
}

/// What an initialisation makes of a mutex.
fn initialised(held: Value) -> Result<Value, Trap>
    ensures { result ≡ initialised held }
{
    match held {
        Value::Held(_) => Err(Trap::Mutex),
        _ => Ok(Value::Free),
    }
}
