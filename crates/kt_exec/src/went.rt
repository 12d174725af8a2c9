//! What a step of a thread that was tried comes to.
ghost use Rattle.std.specs.Prelude.{◌≡◌};
ghost use Rattle.kt_exec.specs.declared.went.Halt.TheVariants as halted;

use kt_mem::Trap;
use std::alloc::AllocError;

/// Where a thread is after a step that was tried.
#[derive(Clone, Copy)]
pub(crate) enum Went {
    /// A quiet step was taken.
    On,
    /// The thread stands at an act, an end, or the trap of a call or a request.
    Stands,
}

/// Why a thread's quiet steps break off.
#[derive(Clone, Copy)]
pub(crate) enum Halt {
    /// The thread stands at this trap.
    Trap(Trap),
    NoMemory(AllocError),
}

impl From<Trap> for Halt {
    ghost from_gives = { λ trap halt. halt ≡ halted.Trap trap };

    fn from(trap: Trap) -> Halt {
        Halt::Trap(trap)
    }
}

impl From<AllocError> for Halt {
    ghost from_gives = { λ fault halt. halt ≡ halted.NoMemory fault };

    fn from(fault: AllocError) -> Halt {
        Halt::NoMemory(fault)
    }
}
