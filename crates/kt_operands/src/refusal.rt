//! Why an expression has no type.

ghost use Rattle.std.specs.Prelude.{◌≡◌};
ghost use Rattle.kt_operands.specs.declared.refusal.Refusal.TheVariants.{NoMemory};

use kt_typing::Fault;
use std::alloc::{AllocError, AllocFailed};
use thiserror::Error;

/// Why an expression has no type.
#[derive(Clone, Copy, Debug, PartialEq, Eq, Error)]
pub enum Refusal {
    /// Its first fault: that of the least place, and there the first of the list of kinds.
    #[error("type fault at byte {}", .0.at)]
    Fault(Fault),
    #[error("out of memory")]
    NoMemory,
}

impl From<AllocError> for Refusal {
    ghost from_gives = { λ _ refusal. refusal ≡ NoMemory };

    fn from(_error: AllocError) -> Refusal {
        Refusal::NoMemory
    }
}

impl<T: Drop> From<AllocFailed<T>> for Refusal {
    ghost from_gives = { λ _ refusal. refusal ≡ NoMemory };

    fn from(_refused: AllocFailed<T>) -> Refusal {
        Refusal::NoMemory
    }
}
