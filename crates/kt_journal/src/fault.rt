//! Why a text is no journal.
ghost use Rattle.std.specs.Prelude.{◌≡◌};
ghost use Rattle.kt_journal.specs.declared.fault.JournalFault.TheVariants.{NoMemory};

use std::alloc::AllocError;
use thiserror::Error;

/// Why `read` gives no turns.
#[derive(Clone, Copy, PartialEq, Eq, Debug, Error)]
pub enum JournalFault {
    /// The line whose first byte is there is not of the grammar, or the last line is missing there.
    #[error("no line of a journal at byte {at}")]
    Line { at: u32 },
    /// There was no memory.
    #[error("out of memory")]
    NoMemory,
}

impl From<AllocError> for JournalFault {
    ghost from_gives = { λ _ fault. fault ≡ NoMemory };

    fn from(_error: AllocError) -> JournalFault {
        JournalFault::NoMemory
    }
}
