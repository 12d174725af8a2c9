//! What the journal of a run says beside the turns.

use kt_mem::Trap;
use xf_plan::Fault;

/// How a closing went.
#[derive(Clone, Copy, PartialEq, Eq, Debug)]
pub enum Closed {
    /// It was accepted, with that many images of heap objects and literals.
    Ok(u64),
    /// Refused: a mutex is held.
    Held,
    /// Refused: the new version lacks the point at which that thread is parked.
    Point(u8),
    /// Refused: that thread can't begin in the new version.
    Entry(u8),
    /// Refused: something is wrong at a place.
    At(Fault),
    /// Refused: an object, or all of them together, would be too large.
    Size,
}

/// How a run ends.
#[derive(Clone, Copy, PartialEq, Eq, Debug)]
pub enum End {
    /// `main` returned this value.
    Main(i32),
    /// That thread's act trapped.
    Trap(u8, Trap),
    /// Nobody may take a turn.
    Stuck,
    /// As many turns were made as the budget allows.
    Budget,
}

/// An event between two turns: `turn` is the turns so far, and `k` the request, counted from 1.
#[derive(Clone, Copy, PartialEq, Eq, Debug)]
pub enum Mark {
    /// The request was made, and woke that many waiters of conditions.
    Ask { turn: u32, k: u8, woken: u8 },
    /// All live threads were parked, and the update was made or refused.
    Close { turn: u32, k: u8, closed: Closed },
    /// `main` came to the point from which it was updated.
    MainThere { turn: u32, k: u8 },
    /// All threads have come to their points.
    Back { turn: u32, k: u8 },
    /// The run ended.
    End { turn: u32, how: End },
}
