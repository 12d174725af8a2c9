//! Laws of the counters: they are the numbers of such threads, whatever the threads and the events.

ghost use Rattle.std.specs.Prelude.{◌≡◌, ◌<◌, ◌≤◌, ℕ, Some, slice_get, true, false};
ghost use Rattle.kt_phase.specs.Barrier as barrier;
ghost use Rattle.kt_phase.specs.Barrier.{Barrier, StandsFor, Thread};
ghost use Rattle.kt_phase.specs.Counters as counters;
ghost use Rattle.kt_phase.specs.Counters.{Counters};

use crate::Phases;

/// Parked and updating threads are at most as many as the live ones, and these at most 65.
pub fn counters_law(phases: &Phases)
    ensures parked { phases.now.parked ≤ phases.now.live }
    ensures updating { phases.now.updating ≤ phases.now.live }
    ensures live { phases.now.live ≤ 65 }
{
    let _ = &phases.live;
}

/// The barrier's counters are the numbers of the threads that live, are parked and are updating.
///
/// Where counters stand for threads, a closing is due by the counters exactly where an update is asked for and all live
/// threads are parked, and an update is over by them exactly where `main` came to its point and no live thread is
/// updating. After each event they stand for the threads after it.
///
/// What the calls ask of the counters holds where there is a thread to which the event can come.
pub fn barrier_law()
    ensures closing_due { (c : Counters) (b : Barrier) → StandsFor c b →
        counters.is_closing_due c ≡ barrier.is_closing_due b }
    ensures update_over { (c : Counters) (b : Barrier) → StandsFor c b →
        counters.is_update_over c ≡ barrier.is_update_over b }
    ensures resumed { (c : Counters) (b : Barrier) → StandsFor c b →
        StandsFor (counters.resumed c) (barrier.resumed b) }

    ensures started { StandsFor counters.at_start barrier.at_start }
    ensures made { (c : Counters) (b : Barrier) → StandsFor c b →
        StandsFor (counters.after_making c) (barrier.after_making b) }
    ensures asked { (c : Counters) (b : Barrier) → StandsFor c b →
        StandsFor (counters.after_asking c) (barrier.after_asking b) }
    ensures parked { (c : Counters) (b : Barrier) → StandsFor c b →
        (t : ℕ) (thread : Thread) → slice_get b.threads t ≡ Some thread → thread.standing ≡ barrier.Running →
        StandsFor (counters.after_parking c) (barrier.after_parking t thread b) }
    ensures refused { (c : Counters) (b : Barrier) → StandsFor c b →
        StandsFor (counters.after_refusal c) (barrier.after_refusal b) }
    ensures restarted { (c : Counters) (b : Barrier) → StandsFor c b →
        StandsFor (counters.after_restart c) (barrier.after_restart b) }
    ensures main { (c : Counters) (b : Barrier) → StandsFor c b →
        (main : Thread) → slice_get b.threads 0 ≡ Some main → barrier.is_updating main ≡ true →
        StandsFor (counters.after_main c) (barrier.after_main main b) }
    ensures returned { (c : Counters) (b : Barrier) → StandsFor c b →
        (t : ℕ) (thread : Thread) → slice_get b.threads t ≡ Some thread → barrier.is_updating thread ≡ true →
        StandsFor (counters.after_return c) (barrier.after_return t thread b) }
    ensures ended { (c : Counters) (b : Barrier) → StandsFor c b →
        (t : ℕ) (thread : Thread) → slice_get b.threads t ≡ Some thread → thread.standing ≡ barrier.Running →
        StandsFor (counters.after_end thread.updating c) (barrier.after_end t thread b) }

    ensures someone_unparked { (c : Counters) (b : Barrier) → StandsFor c b →
        (t : ℕ) (thread : Thread) → slice_get b.threads t ≡ Some thread → thread.standing ≡ barrier.Running →
        c.parked < c.live }
    ensures someone_updating { (c : Counters) (b : Barrier) → StandsFor c b →
        (t : ℕ) (thread : Thread) → slice_get b.threads t ≡ Some thread → barrier.is_updating thread ≡ true →
        0 < c.updating }
    ensures someone_normal { (c : Counters) (b : Barrier) → StandsFor c b →
        (t : ℕ) (thread : Thread) → slice_get b.threads t ≡ Some thread →
        barrier.is_live thread ≡ true → thread.updating ≡ false →
        c.updating < c.live }
{}
