ghost use Rattle.std.specs.Prelude.{◌≡◌};
ghost use Rattle.kt_names.specs.declared.fault.CheckFault.TheVariants.{NoMemory};
ghost use Rattle.kt_names.specs.Checked.{place_of, rank_of, is_before};
ghost use Rattle.kt_names.specs.Judges.{is_memory, earlier};

use std::alloc::{AllocError, AllocFailed};
use thiserror::Error;

/// Why a C file has no version: its first fault, that of the least place, and at one place the first of this list.
#[derive(Clone, Copy, Debug, PartialEq, Eq, Error)]
pub enum CheckFault {
    /// A name or field that is not there.
    #[error("unknown name at byte {at}")]
    Unknown { at: u32 },
    /// A name that its scope has already, a second definition, or the name of a built-in call.
    #[error("second declaration at byte {at}")]
    Twice { at: u32 },
    /// What breaks a rule of types.
    #[error("type fault at byte {at}")]
    BadType { at: u32 },
    /// A struct without a definition where its cells are needed.
    #[error("incomplete struct at byte {at}")]
    Incomplete { at: u32 },
    /// An array, struct or global with too many cells, or an array without elements.
    #[error("too many cells at byte {at}")]
    TooBig { at: u32 },
    /// What a thread can't begin at.
    #[error("no entry function at byte {at}")]
    Entry { at: u32 },
    /// A local that an update can't keep.
    #[error("no noted local at byte {at}")]
    Note { at: u32 },
    /// No function `int main(void)`; the place is the file's length.
    #[error("no main function")]
    NoMain { at: u32 },
    #[error("out of memory")]
    NoMemory,
}

impl From<AllocError> for CheckFault {
    ghost from_gives = { λ _ fault. fault ≡ NoMemory };

    fn from(_error: AllocError) -> CheckFault {
        CheckFault::NoMemory
    }
}

impl<T: Drop> From<AllocFailed<T>> for CheckFault {
    ghost from_gives = { λ _ fault. fault ≡ NoMemory };

    fn from(_refused: AllocFailed<T>) -> CheckFault {
        CheckFault::NoMemory
    }
}

impl CheckFault {
    /// Where the fault is.
    fn place(self) -> u32
        ensures { result ≡ place_of self }
    {
        match self {
            CheckFault::Unknown { at } => at,
            CheckFault::Twice { at } => at,
            CheckFault::BadType { at } => at,
            CheckFault::Incomplete { at } => at,
            CheckFault::TooBig { at } => at,
            CheckFault::Entry { at } => at,
            CheckFault::Note { at } => at,
            CheckFault::NoMain { at } => at,
            CheckFault::NoMemory => 0,
        }
    }

    /// Its place in the list of kinds.
    fn rank(self) -> u8
        ensures { result ≡ rank_of self }
    {
        match self {
            CheckFault::Unknown { .. } => 0,
            CheckFault::Twice { .. } => 1,
            CheckFault::BadType { .. } => 2,
            CheckFault::Incomplete { .. } => 3,
            CheckFault::TooBig { .. } => 4,
            CheckFault::Entry { .. } => 5,
            CheckFault::Note { .. } => 6,
            CheckFault::NoMain { .. } => 7,
            CheckFault::NoMemory => 8,
        }
    }

    /// Whether it stands at a lesser place, or at the same place and earlier in the list of kinds.
    fn is_before(self, other: CheckFault) -> bool
        ensures { result ≡ is_before self other }
    {
        self.place() < other.place()
            || (self.place() == other.place() && self.rank() < other.rank())
    }

    /// Whether there was no memory.
    fn is_memory(self) -> bool
        ensures { result ≡ is_memory self }
    {
        match self {
            CheckFault::NoMemory => true,
            CheckFault::Unknown { .. } => false,
            CheckFault::Twice { .. } => false,
            CheckFault::BadType { .. } => false,
            CheckFault::Incomplete { .. } => false,
            CheckFault::TooBig { .. } => false,
            CheckFault::Entry { .. } => false,
            CheckFault::Note { .. } => false,
            CheckFault::NoMain { .. } => false,
        }
    }

    /// Want of memory, or else the earlier of two faults.
    pub(crate) fn earlier(self, other: CheckFault) -> CheckFault
        ensures { result ≡ earlier self other }
    {
        if self.is_memory() {
            return self;
        }
        if other.is_memory() || other.is_before(self) {
            other
        } else {
            self
        }
    }
}
