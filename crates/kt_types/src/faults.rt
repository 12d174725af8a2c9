//! Why a struct was not defined.
ghost use Rattle.std.specs.Prelude.{◌≡◌};
ghost use Rattle.kt_types.specs.declared.faults.TypeFault.TheVariants.{NoMemory};

use std::alloc::{AllocError, AllocFailed};
use thiserror::Error;

/// Why `TypeTable::define_struct` did not define a struct. The first that holds is answered, want of memory aside.
#[derive(Clone, Copy, PartialEq, Eq, Debug, Error)]
pub enum TypeFault {
    /// The struct is defined already, or two of the fields have one name.
    #[error("defined twice")]
    Twice,
    /// The type of a field is incomplete: a struct without a definition.
    #[error("a field of an incomplete type")]
    Incomplete,
    /// The struct would have more than 65,536 cells.
    #[error("more than 65,536 cells")]
    TooBig,
    /// There was no memory.
    #[error("out of memory")]
    NoMemory,
}

impl From<AllocError> for TypeFault {
    ghost from_gives = { λ _ fault. fault ≡ NoMemory };

    fn from(_error: AllocError) -> TypeFault {
        TypeFault::NoMemory
    }
}

impl<T: Drop> From<AllocFailed<T>> for TypeFault {
    ghost from_gives = { λ _ fault. fault ≡ NoMemory };

    fn from(_refused: AllocFailed<T>) -> TypeFault {
        TypeFault::NoMemory
    }
}
