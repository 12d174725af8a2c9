//! The enabled threads, as a flag for each.

ghost use Rattle.std.specs.Prelude.{◌≡◌, ◌<◌, ◌≤◌, Contains, find, length, nat_le, slice_get, slice_index, unwrap_or, ℕ, IfSome, Some, true, false};
ghost use Rattle.std.specs.Bool.{OnTrue};
ghost use Rattle.std.specs.List.Sorted.{IsStrictlyIncreasing};
ghost use Rattle.kt_sched.specs.Choice.{first_of, is_among, search_order, steps_to};
ghost use Rattle.kt_sched.specs.Enabled.{enabled_threads};

/// Whether the thread is enabled.
pub fn is_enabled(enabled: &[bool; 65], thread: u8) -> bool
    ensures among { result ≡ is_among thread (enabled_threads enabled.now) }
    ensures flag { OnTrue result (slice_get enabled.now thread ≡ Some true) }
{
    let thread = usize::from(thread);
    thread < 65 && enabled[thread]
}

/// How many threads are enabled.
pub fn count(enabled: &[bool; 65]) -> usize
    ensures { result ≡ length (enabled_threads enabled.now) }
{
    let mut count = 0;
    for is_enabled in enabled {
        if *is_enabled {
            count += 1;
        }
    }
    count
}

/// The enabled thread before which so many others stand.
pub fn nth(enabled: &[bool; 65], before: usize) -> u8
    requires { before < length (enabled_threads enabled.now) }
    ensures thread { result ≡ slice_index (enabled_threads enabled.now) before }
    ensures flag { slice_get enabled.now result ≡ Some true }
{
    let mut left = before;
    let mut thread: u8 = 0;
    for is_enabled in enabled {
        if *is_enabled {
            if left == 0 {
                return thread;
            }
            left -= 1;
        }
        thread += 1;
    }
    thread
}

// The least enabled thread from `start` on.
fn first_from(enabled: &[bool; 65], start: usize) -> Option<u8>
    ensures thread { result ≡ find (λ t. nat_le start t) (enabled_threads enabled.now) }
    ensures flag { IfSome result (λ t. slice_get enabled.now t ≡ Some true) }
{
    for thread in start..65 {
        if enabled[thread] {
            return Some(thread as u8);
        }
    }
    None
}

/// The next enabled thread: the least one above `thread`, or else the least one.
pub fn next(enabled: &[bool; 65], thread: u8) -> u8
    requires { Contains enabled.now true }
    ensures thread { result ≡ first_of (search_order thread (enabled_threads enabled.now)) }
    ensures flag { slice_get enabled.now result ≡ Some true }
{
    match first_from(enabled, usize::from(thread) + 1) {
        Some(next) => next,
        None => nth(enabled, 0),
    }
}

/// The enabled threads are those whose flags are set, in rising order.
pub fn enabled_law(enabled: &[bool; 65])
    ensures flags { (t : ℕ) → is_among t (enabled_threads enabled.now) ≡ unwrap_or (slice_get enabled.now t) false }
    ensures rising { IsStrictlyIncreasing (enabled_threads enabled.now) }
{}

/// Of the enabled threads round robin takes the one to which the fewest steps lead, from behind thread `last` to the last
/// thread and on from thread 0.
pub fn round_law(enabled: &[bool; 65], last: u8)
    ensures { (t : ℕ) → slice_get enabled.now t ≡ Some true
        → steps_to last (first_of (search_order last (enabled_threads enabled.now))) ≤ steps_to last t }
{}
