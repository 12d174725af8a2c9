//! The counters, and what each event makes of them.

ghost use Rattle.std.specs.Prelude.{◌≡◌, ◌<◌, ◌||◌};
ghost use Rattle.std.specs.Bool.{MatchBool};
ghost use Rattle.kt_phase.specs.Counters as counters;

use std::marker::Model;
use std::mem;

/// Where a run stands between a request for an update and the update's end.
#[derive(Clone, Copy, PartialEq, Eq)]
pub enum Phase {
    /// No update is asked for.
    Run,
    /// An update is asked for: threads park at their points.
    Asked,
    /// The new version's `main` is on its way to its point; no other thread takes a turn.
    Main,
    /// The other threads are on their way to their points.
    Others,
}

/// The phase of a run, and how many of its threads live, are parked, and are on their way to their points after an update
/// ("updating"). A parked thread and an updating one live too.
#[derive(Drop)]
pub struct Phases {
    /// The phase.
    pub phase: Phase,
    /// How many threads live: `main` and at most 64 others.
    pub live: u8,
    /// How many of them are parked.
    pub parked: u8,
    /// How many of them are updating.
    pub updating: u8,
}

impl Model for Phases {
    ghost use Rattle.std.specs.Prelude.{◌≤◌};
    ghost use Rattle.kt_phase.specs.Counters.{Counters};

    ghost Value = { Counters };

    ghost view = { λ p. record { phase = p.phase; live = p.live; parked = p.parked; updating = p.updating } };

    ghost invariant = { λ p. (p.parked ≤ p.live) × (p.updating ≤ p.live) × (p.live ≤ 65) };
}

impl Phases {
    /// The counters at a run's start, where `main` alone lives.
    pub fn new() -> Phases
        ensures { result ≡ counters.at_start }
    {
        Phases {
            phase: Phase::Run,
            live: 1,
            parked: 0,
            updating: 0,
        }
    }

    /// A thread was made.
    pub fn thread_made(&mut self)
        requires { self.old.live < 65 }
        ensures { self.new ≡ counters.after_making self.old }
    {
        self.live += 1;
    }

    /// An update is asked for.
    pub fn ask(&mut self)
        requires { self.old.phase ≡ Phase.Run }
        ensures { self.new ≡ counters.after_asking self.old }
    {
        self.phase = Phase::Asked;
    }

    /// A thread parks at its point: whether the closing is due, as all live threads are parked.
    pub fn park(&mut self) -> bool
        requires asked { self.old.phase ≡ Phase.Asked }
        requires unparked { self.old.parked < self.old.live }
        ensures counters { self.new ≡ counters.after_parking self.old }
        ensures closing { result ≡ counters.is_closing_due self.new }
    {
        self.parked += 1;
        self.parked == self.live
    }

    /// The closing is refused: all parked threads go on past their points.
    pub fn unpark_all(&mut self)
        requires asked { self.old.phase ≡ Phase.Asked }
        requires all_parked { self.old.parked ≡ self.old.live }
        ensures { self.new ≡ counters.after_refusal self.old }
    {
        self.phase = Phase::Run;
        self.parked = 0;
    }

    /// The closing is an update: all threads, which are parked, start again, and `main` first.
    pub fn begin_restart(&mut self)
        requires asked { self.old.phase ≡ Phase.Asked }
        requires all_parked { self.old.parked ≡ self.old.live }
        ensures { self.new ≡ counters.after_restart self.old }
    {
        self.phase = Phase::Main;
        self.updating = mem::replace(&mut self.parked, 0);
    }

    /// `main` has come to its point: whether the update is over, as no live thread is updating.
    pub fn main_there(&mut self) -> bool
        requires main { self.old.phase ≡ Phase.Main }
        requires updating { 0 < self.old.updating }
        ensures counters { self.new ≡ counters.resumed (counters.after_main self.old) }
        ensures over { result ≡ counters.is_update_over (counters.after_main self.old) }
    {
        self.phase = Phase::Others;
        self.updating -= 1;
        self.resume()
    }

    /// A thread other than `main` has come to its point: whether the update is over, as no live thread is updating.
    pub fn back(&mut self) -> bool
        requires others { self.old.phase ≡ Phase.Others }
        requires updating { 0 < self.old.updating }
        ensures counters { self.new ≡ counters.resumed (counters.after_return self.old) }
        ensures over { result ≡ counters.is_update_over (counters.after_return self.old) }
    {
        self.updating -= 1;
        self.resume()
    }

    /// A thread that wasn't parked has ended; `updating` says whether it was updating. The answer is whether the closing
    /// is due or, while the others are on their way to their points, whether the update is over.
    pub fn end_thread(&mut self, updating: bool) -> bool
        requires unparked { self.old.parked < self.old.live }
        requires counted { MatchBool updating (0 < self.old.updating) (self.old.updating < self.old.live) }
        ensures counters { self.new ≡ counters.resumed (counters.after_end updating self.old) }
        ensures due { let ended = counters.after_end updating self.old in
            result ≡ (counters.is_closing_due ended || counters.is_update_over ended) }
    {
        self.live -= 1;
        if updating {
            self.updating -= 1;
        }
        match self.phase {
            Phase::Asked => self.parked == self.live,
            Phase::Others => self.resume(),
            Phase::Run | Phase::Main => false,
        }
    }

    // The run goes on as before the update where no live thread is updating: whether it does.
    fn resume(&mut self) -> bool
        requires { self.old.phase ≡ Phase.Others }
        ensures counters { self.new ≡ counters.resumed self.old }
        ensures over { result ≡ counters.is_update_over self.old }
    {
        let is_over = self.updating == 0;
        if is_over {
            self.phase = Phase::Run;
        }
        is_over
    }
}
