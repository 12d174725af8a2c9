//! What acts on memory, input and output touch.
ghost use Rattle.std.specs.Prelude.{◌≡◌};
ghost use Rattle.kt_machine.specs.Outside.{done, given};

use crate::allocate::allocate;
use crate::effects::Outcome;
use crate::globals::place;
use crate::mutex::{init, lock, unlock, waits};
use crate::print::print;
use kt_heap::Heap;
use kt_mem::{Piece, Reply, Trap, Value};
use kt_types::{Ty, TypeTable};
use std::alloc::{AllocError, Global};
use std::marker::Model;

/// The heap, the input with the place up to which it is read, and the output.
#[derive(Drop)]
pub struct Outside {
    heap: Heap,
    input: Vec<u8>,
    read: usize,
    output: Vec<u8>,
}

impl Model for Outside {
    ghost use Rattle.std.specs.Prelude.{◌≤◌, drop, length};
    ghost use Rattle.kt_heap.specs.ByNumber.{HoldsGiven};
    ghost use Rattle.kt_heap.specs.Heap.{memory, given as given_out};
    ghost use Rattle.kt_machine.specs.Outside.{Outside, HasCharLiterals};

    ghost Value = { Outside };

    ghost view = { λ o. record { heap = o.heap; input = drop o.read o.input.items; output = o.output.items } };

    ghost invariant = { λ o. HasCharLiterals (memory o.heap) × (o.read ≤ length o.input.items) × HoldsGiven (given_out o.heap) (memory o.heap) };
}

impl Outside {
    ghost use Rattle.std.specs.Option.{is_some};
    ghost use Rattle.std.specs.Prelude.{◌≡◌, ◌≢◌, ◌≤◌, [], true, length, IfOk, if◌then◌else◌};
    ghost use Rattle.kt_heap.specs.ByNumber.{HoldsGiven};
    ghost use Rattle.kt_heap.specs.Heap.{memory, AreOneToOne, IsPairing, given as given_out};
    ghost use Rattle.kt_meaning.specs.Effects as plain;
    ghost use Rattle.kt_mem.specs.Memory as mem;
    ghost use Rattle.kt_types.specs.Layout.{cells, layout};
    ghost use Rattle.kt_mem.specs.Renaming.{rename_value, renamed};
    ghost use Rattle.kt_exec.specs.Renaming.{IsOld, PiecesIn, ReplyIn, ValueIn, rename_pieces};
    ghost use Rattle.kt_machine.specs.ByNumber.{reply_by, Grows};
    ghost use Rattle.kt_machine.specs.Outside.{done, given, outcome_of, pairs_in, shown, AreNumbers, HasCharLiterals, OutcomeIn};
    ghost use Rattle.kt_lone.specs.Update.{placed};

    /// This heap and this input, and no output.
    pub fn new(alloc: Global, heap: Heap, input: Vec<u8>) -> Outside
        requires literals { HasCharLiterals (memory heap) }
        requires names { HoldsGiven (given_out heap) (memory heap) }
        ensures { result ≡ record { heap = heap; input = input.items; output = [] } }
    {
        Outside {
            heap,
            input,
            read: 0,
            output: Vec::new(alloc),
        }
    }

    /// The heap.
    pub fn heap(&self) -> &Heap
        ensures { result.now ≡ self.now.heap }
    {
        &self.heap
    }

    /// The pairs of addresses and heap numbers that were given out are one to one, and live objects have them.
    pub fn law(&self)
        ensures pairing { IsPairing (pairs_in self.now) (memory self.now.heap) }
        ensures once { AreOneToOne (pairs_in self.now) }
    {
        self.heap.law();
    }

    /// Another heap, and the same input and output.
    pub fn set_heap(&mut self, heap: Heap)
        requires literals { HasCharLiterals (memory heap) }
        requires names { HoldsGiven (given_out heap) (memory heap) }
        ensures { self.new ≡ record self.old { heap = heap } }
    {
        self.heap = heap;
    }

    /// Stores the kept values, each into the global of its number.
    pub fn place(&mut self, kept: &[Option<Value>])
        requires few { length kept.now ≤ 4294967296 }
        requires numbers { AreNumbers kept.now }
        ensures placed { shown self.new ≡ record (shown self.old) { memory = placed kept.now (shown self.old).memory } }
        ensures pairs { pairs_in self.new ≡ pairs_in self.old }
    {
        place(&mut self.heap, kept);
    }

    /// What the cell at a pointer holds.
    pub fn load(&self, p: Value, ty: Ty) -> Reply
        requires { ValueIn (IsOld (pairs_in self.now)) p }
        ensures reads { plain.reads (shown self.now) (mem.load (shown self.now).memory (rename_value (renamed (pairs_in self.now)) p) ty) ≡ plain.Replies (reply_by (pairs_in self.now) result) (shown self.now) }
        ensures names { ReplyIn (IsOld (pairs_in self.now)) result }
    {
        self.heap.law();
        given(self.heap.load(p, ty))
    }

    /// Writes a value into the cell at a pointer.
    pub fn store(&mut self, p: Value, ty: Ty, v: Value) -> Reply
        requires pointer { ValueIn (IsOld (pairs_in self.old)) p }
        requires value { ValueIn (IsOld (pairs_in self.old)) v }
        ensures leaves { plain.leaves (shown self.old) (mem.store (shown self.old).memory (rename_value (renamed (pairs_in self.old)) p) ty (rename_value (renamed (pairs_in self.old)) v)) ≡ plain.Replies (reply_by (pairs_in self.new) result) (shown self.new) }
        ensures names { ReplyIn (IsOld (pairs_in self.new)) result }
        ensures pairs { pairs_in self.new ≡ pairs_in self.old }
    {
        self.heap.law();
        done(self.heap.store(p, ty, v))
    }

    /// Makes a heap object.
    pub fn allocate(
        &mut self,
        alloc: Global,
        types: &TypeTable,
        ty: u32,
        count: i64,
        zero: bool,
    ) -> Result<Reply, AllocError>
        requires { is_some (layout types.now ty) ≡ true }
        ensures makes { IfOk result (λ r. plain.makes (shown self.old) (mem.alloc (shown self.old).memory ty (cells types.now ty) count zero) ≡ plain.Replies (reply_by (pairs_in self.new) r) (shown self.new)) }
        ensures names { IfOk result (λ r. ReplyIn (IsOld (pairs_in self.new)) r) }
        ensures grows { Grows (pairs_in self.old) (pairs_in self.new) }
    {
        self.heap.law();
        allocate(alloc, &mut self.heap, types, ty, count, zero)
    }

    /// Ends the heap object at a pointer.
    pub fn release(&mut self, p: Value) -> Reply
        requires { ValueIn (IsOld (pairs_in self.old)) p }
        ensures leaves { plain.leaves (shown self.old) (mem.release (shown self.old).memory (rename_value (renamed (pairs_in self.old)) p)) ≡ plain.Replies (reply_by (pairs_in self.new) result) (shown self.new) }
        ensures names { ReplyIn (IsOld (pairs_in self.new)) result }
        ensures pairs { pairs_in self.new ≡ pairs_in self.old }
    {
        self.heap.law();
        done(self.heap.free(p))
    }

    /// A thread locks a mutex, or waits for it.
    pub fn lock(&mut self, thread: u8, p: Value) -> Outcome
        requires { ValueIn (IsOld (pairs_in self.old)) p }
        ensures outcome { (if mem.waits (shown self.old).memory thread (rename_value (renamed (pairs_in self.old)) p) then plain.Waits else plain.leaves (shown self.old) (mem.lock (shown self.old).memory thread (rename_value (renamed (pairs_in self.old)) p))) ≡ outcome_of (pairs_in self.new) result (shown self.new) }
        ensures kept { result ≡ Outcome.Waits → shown self.new ≡ shown self.old }
        ensures here { result ≢ Outcome.Elsewhere }
        ensures names { OutcomeIn (IsOld (pairs_in self.new)) result }
        ensures pairs { pairs_in self.new ≡ pairs_in self.old }
    {
        self.heap.law();
        if waits(&self.heap, thread, p) {
            Outcome::Waits
        } else {
            Outcome::Replies(done(lock(&mut self.heap, thread, p)))
        }
    }

    /// A thread unlocks a mutex.
    pub fn unlock(&mut self, thread: u8, p: Value) -> Reply
        requires { ValueIn (IsOld (pairs_in self.old)) p }
        ensures leaves { plain.leaves (shown self.old) (mem.unlock (shown self.old).memory thread (rename_value (renamed (pairs_in self.old)) p)) ≡ plain.Replies (reply_by (pairs_in self.new) result) (shown self.new) }
        ensures names { ReplyIn (IsOld (pairs_in self.new)) result }
        ensures pairs { pairs_in self.new ≡ pairs_in self.old }
    {
        self.heap.law();
        done(unlock(&mut self.heap, thread, p))
    }

    /// The mutex at a pointer is made free.
    pub fn init_mutex(&mut self, p: Value) -> Reply
        requires { ValueIn (IsOld (pairs_in self.old)) p }
        ensures leaves { plain.leaves (shown self.old) (mem.init_mutex (shown self.old).memory (rename_value (renamed (pairs_in self.old)) p)) ≡ plain.Replies (reply_by (pairs_in self.new) result) (shown self.new) }
        ensures names { ReplyIn (IsOld (pairs_in self.new)) result }
        ensures pairs { pairs_in self.new ≡ pairs_in self.old }
    {
        self.heap.law();
        done(init(&mut self.heap, p))
    }

    /// Takes the next byte of the input; -1 at its end.
    pub fn next_byte(&mut self) -> Reply
        ensures reads { plain.next_byte (shown self.old) self.old.input ≡ plain.Replies (reply_by (pairs_in self.new) result) (shown self.new) }
        ensures names { ReplyIn (IsOld (pairs_in self.new)) result }
        ensures pairs { pairs_in self.new ≡ pairs_in self.old }
    {
        match self.input.get(self.read) {
            None => Reply::Got(Value::Num(-1)),
            Some(byte) => {
                let byte = *byte;
                self.read += 1;
                Reply::Got(Value::Num(i64::from(byte)))
            }
        }
    }

    /// Writes the pieces.
    pub fn print(&mut self, pieces: &[Piece]) -> Result<Reply, AllocError>
        requires { PiecesIn (IsOld (pairs_in self.old)) pieces.now }
        ensures writes { IfOk result (λ r. plain.writes (shown self.old) (plain.pieces_text (shown self.old).memory (rename_pieces (renamed (pairs_in self.old)) pieces.now)) ≡ plain.Replies (reply_by (pairs_in self.new) r) (shown self.new)) }
        ensures names { IfOk result (λ r. ReplyIn (IsOld (pairs_in self.new)) r) }
        ensures pairs { pairs_in self.new ≡ pairs_in self.old }
    {
        self.heap.law();
        print(&self.heap, pieces, &mut self.output)
    }

    /// The output.
    pub fn into_output(self) -> Vec<u8>
        ensures { result.items ≡ self.output }
    {
        let Outside { output, .. } = self;
        output
    }
}

/// The reply to an act that gives no value.
fn done(answer: Result<(), Trap>) -> Reply
    ensures { result ≡ done answer }
{
    match answer {
        Ok(()) => Reply::Done,
        Err(trap) => Reply::Trapped(trap),
    }
}

/// The reply to an act that gives a value.
fn given(answer: Result<Value, Trap>) -> Reply
    ensures { result ≡ given answer }
{
    match answer {
        Ok(value) => Reply::Got(value),
        Err(trap) => Reply::Trapped(trap),
    }
}
