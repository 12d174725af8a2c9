//! What a thread does to what it shares, what is answered, and what goes wrong.
ghost use Rattle.std.specs.Prelude.{◌≡◌};

use crate::memory::Value;
use kt_types::{Text, Ty};
use std::marker::Model;

/// Why a run ends with a trap.
#[derive(Clone, Copy, Debug, PartialEq, Eq)]
pub enum Trap {
    /// A result outside its type, or a quotient that is not representable.
    Overflow,

    /// A divisor that is zero.
    Zero,

    /// A converted number outside its type.
    Range,

    /// A null pointer where an object was needed.
    Null,

    /// A pointer to an object that is gone.
    Dead,

    /// A pointer past its object or to a cell of another type, an offset outside 0 to 65,536, or two
    /// pointers into different objects.
    Bounds,

    /// A value that was not written yet.
    Uninit,

    /// A write into a string literal.
    Literal,

    /// A release of something that is not the start of a heap object.
    Free,

    /// A mutex that the thread holds already, that it doesn't hold, or that is held.
    Mutex,

    /// A join of a thread that was not made, or of the thread itself.
    Thread,

    /// Too many threads.
    Threads,

    /// An allocation of no cell, or of too many.
    Size,

    /// Too many live heap cells.
    Heap,

    /// Too many open frames.
    Depth,

    /// Too many output bytes.
    Output,
}

/// One step of a thread that touches what the threads share. It takes one turn.
#[derive(Drop)]
pub enum Act {
    /// A loop's turn, or a call of a function of the file.
    Tick,

    /// A read of the cell at a pointer, at a type.
    Load(Value, Ty),

    /// A write of the cell at a pointer, at a type, of a value.
    Store(Value, Ty, Value),

    /// An allocation: the place of the element type, the count, and whether the cells are zero.
    Allocate(u32, i64, bool),

    /// A release.
    Release(Value),

    /// A lock of the mutex at a pointer.
    Lock(Value),

    /// An unlock of the mutex at a pointer.
    Unlock(Value),

    /// The mutex at a pointer is made free.
    InitMutex(Value),

    /// The mutex at a pointer is let go, and its condition is waited for.
    Wait(Value),

    /// The condition of the mutex at a pointer is signalled: to all who wait for it, or to one of them.
    Signal(Value, bool),

    /// The next input byte is taken.
    GetChar,

    /// Output is written.
    Print(Pieces),

    /// A thread is made: the number of its entry function, and its argument.
    Create(u32, Value),

    /// The end of a thread is waited for.
    Join(i64),

    /// An update point: the place of its name in the points of the version.
    Point(u32),

    /// The kept value of a local is asked for: function and local.
    MigrateLocal(u32, u32),

    /// All kept values of globals are placed.
    Automigrate,

    /// Whether the thread is updating, or, with the place of a point's name, updating from there.
    UpdatingTest(Option<u32>),

    /// The entry function of a thread returned.
    ThreadEnd,

    /// The first call of `main` returned this value.
    MainReturn(i32),
}

/// A piece of output.
#[derive(Drop)]
pub enum Piece {
    /// These bytes.
    Bytes(Text),

    /// A number, in decimal.
    Number(i64),

    /// One byte.
    Byte(u8),

    /// The bytes from a pointer up to the first zero.
    TextAt(Value),
}

/// The pieces of one call that prints, in order.
#[derive(Drop)]
pub struct Pieces {
    items: Vec<Piece>,
}

impl Model for Pieces {
    ghost use Rattle.std.specs.Prelude.{List};
    ghost use Rattle.kt_mem.specs.declared.steps.Piece.{Piece};

    ghost Value = { List Piece };

    ghost view = { λ p. p.items.items };
}

impl Pieces {
    /// The list that the vector holds.
    pub fn from_vec(items: Vec<Piece>) -> Self
        ensures { result ≡ items.items }
    {
        Pieces { items }
    }

    /// The vector that holds the list.
    pub fn into_vec(self) -> Vec<Piece>
        ensures { result.items ≡ self }
    {
        self.items
    }

    /// The list as a slice.
    pub fn as_slice(&self) -> &[Piece]
        ensures { result.now ≡ self.now }
    {
        self.items.as_slice()
    }
}

/// What a thread is told after its act.
#[derive(Clone, Copy)]
pub enum Reply {
    /// The act is done and gives no value.
    Done,

    /// The act is done and gives this value.
    Got(Value),

    /// The act trapped.
    Trapped(Trap),
}
