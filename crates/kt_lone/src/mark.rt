//! What the journal says beside the turns, and the phases between.

use kt_mem::Trap;

/// Where a run stands between an update's request and its end.
#[derive(Clone, Copy)]
pub enum Phase {
    /// No update is asked for.
    Run,
    /// An update is asked for: threads park at their points.
    Asked,
    /// The new version's `main` is on the way to its point; no other thread takes a turn.
    Main,
    /// The other threads are on the way to their points.
    Others,
}

/// How a closing went.
#[derive(Clone, Copy)]
pub enum Closed {
    /// It was accepted, with that many images.
    Ok(u64),
    /// It was refused: the new version lacks the point at which that thread is parked.
    Point(u8),
}

/// How a run ends.
#[derive(Clone, Copy, PartialEq, Eq, Debug)]
pub enum End {
    /// `main` returned this value.
    Main(i32),
    /// That thread's act trapped.
    Trap(u8, Trap),
    /// Nobody may take a turn.
    Stuck,
    /// As many turns were made as the budget allows.
    Budget,
}

/// An event between two turns: `turn` is the turns so far, and `k` the request, counted from 1.
#[derive(Clone, Copy)]
pub enum Mark {
    /// The request was made.
    Ask { turn: u32, k: u8 },
    /// All live threads were parked, and the update was made or refused.
    Close { turn: u32, k: u8, closed: Closed },
    /// `main` came to the point from which it was updated.
    MainThere { turn: u32, k: u8 },
    /// All threads have come to their points.
    Back { turn: u32, k: u8 },
    /// The run ended.
    End { turn: u32, how: End },
}
