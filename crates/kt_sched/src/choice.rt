//! The choice of each turn's thread.

ghost use Rattle.std.specs.Prelude.{◌≡◌, Contains, Some, slice_get, true};
ghost use Rattle.kt_sched.specs.Choice as spec;
ghost use Rattle.kt_sched.specs.Enabled.{enabled_threads};

use crate::flags;
use kt_types::Turns;

/// How the thread of each turn is chosen, and where the choice stands.
#[derive(Drop)]
pub enum Schedule {
    /// One thread after the other: `thread` took the last `used` turns, and takes at most `quantum` in a row.
    RoundRobin { quantum: u32, thread: u8, used: u32 },
    /// Whichever enabled thread the number picks, which each choice mixes.
    Mixed { x: u64 },
    /// The listed threads, where they are enabled; `made` counts the turns chosen, up to its last value.
    Listed { turns: Turns, made: u32 },
}

impl Schedule {
    /// The thread of the next turn, where these threads are enabled. It takes no memory.
    pub fn pick(&mut self, enabled: &[bool; 65]) -> u8
        requires { Contains enabled.now true }
        ensures thread { result ≡ spec.choice self.old (enabled_threads enabled.now) }
        ensures after { self.new ≡ spec.after self.old (enabled_threads enabled.now) }
        ensures enabled { slice_get enabled.now result ≡ Some true }
    {
        match self {
            Schedule::RoundRobin {
                quantum,
                thread,
                used,
            } => pick_in_turn(*quantum, thread, used, enabled),
            Schedule::Mixed { x } => pick_mixed(x, enabled),
            Schedule::Listed { turns, made } => pick_listed(turns.as_slice(), made, enabled),
        }
    }
}

// The thread that took the last turn, while it may take more; else the next one that is enabled.
fn pick_in_turn(quantum: u32, thread: &mut u8, used: &mut u32, enabled: &[bool; 65]) -> u8
    requires { Contains enabled.now true }
    ensures thread { thread.new ≡ spec.in_turn quantum thread.old used.old (enabled_threads enabled.now) }
    ensures used { used.new ≡ spec.used_after quantum thread.old used.old (enabled_threads enabled.now) }
    ensures result { result ≡ thread.new }
    ensures enabled { slice_get enabled.now result ≡ Some true }
{
    if *used < quantum && flags::is_enabled(enabled, *thread) {
        *used += 1;
    } else {
        *thread = flags::next(enabled, *thread);
        *used = 1;
    }
    *thread
}

// The enabled thread that the number picks, once it is mixed.
fn pick_mixed(x: &mut u64, enabled: &[bool; 65]) -> u8
    requires { Contains enabled.now true }
    ensures thread { result ≡ spec.of_mixed x.new (enabled_threads enabled.now) }
    ensures x { x.new ≡ spec.mixed x.old }
    ensures enabled { slice_get enabled.now result ≡ Some true }
{
    *x = mixed(*x);
    let count = flags::count(enabled);
    flags::nth(enabled, ((*x >> 33) % count as u64) as usize)
}

fn mixed(x: u64) -> u64
    ensures { result ≡ spec.mixed x }
{
    x.wrapping_mul(6_364_136_223_846_793_005)
        .wrapping_add(1_442_695_040_888_963_407)
}

// The listed thread of this turn, where it is enabled; else the least one that is.
fn pick_listed(turns: &[u8], made: &mut u32, enabled: &[bool; 65]) -> u8
    requires { Contains enabled.now true }
    ensures thread { result ≡ spec.listed turns.now made.old (enabled_threads enabled.now) }
    ensures made { made.new ≡ spec.one_more made.old }
    ensures enabled { slice_get enabled.now result ≡ Some true }
{
    let listed = turns.get(*made as usize).copied();
    *made = made.saturating_add(1);
    wanted_or_first(listed, enabled)
}

// The wanted thread, where it is enabled; else the least one that is.
fn wanted_or_first(wanted: Option<u8>, enabled: &[bool; 65]) -> u8
    requires { Contains enabled.now true }
    ensures thread { result ≡ spec.wanted_or_first wanted (enabled_threads enabled.now) }
    ensures enabled { slice_get enabled.now result ≡ Some true }
{
    match wanted {
        Some(thread) if flags::is_enabled(enabled, thread) => thread,
        _ => flags::nth(enabled, 0),
    }
}
