//! Why a call of `play` has no job to run: by the stage of reading, by that of judging, and of all stages.

use crate::status::{Cause, Which};
use kt_edge::ReadEnd;
use std::alloc::AllocError;

/// What the log tells in place of a run.
#[derive(Clone, Copy)]
pub enum Refusal {
    /// The words are no order.
    Words,
    /// This could not be read.
    Read(Which),
    /// This is longer than its limit.
    Long(Which),
    /// The file of that number is no program that runs.
    File(u8, Cause),
}

/// The file of that number among the words was not read, and why.
#[derive(Clone, Copy)]
pub struct UnreadFile {
    pub number: u8,
    pub end: ReadEnd,
}

/// Why texts are no job.
#[derive(Clone, Copy)]
pub enum NoJob {
    /// The file of that number is the first that is not what it has to be.
    File(u8, Cause),
    /// Memory ran out.
    NoMemory,
}

impl From<AllocError> for NoJob {
    ghost use Rattle.std.specs.Prelude.{◌≡◌};
    ghost use Rattle.kt_play.specs.declared.refusal.NoJob.TheVariants.{NoMemory};

    ghost from_gives = { λ _ no_job. no_job ≡ NoMemory };

    fn from(_error: AllocError) -> NoJob {
        NoJob::NoMemory
    }
}

/// Why there is no job to run.
#[derive(Clone, Copy)]
pub enum Unready {
    /// Words, files and input ask for none.
    Refused(Refusal),
    /// Memory ran out.
    NoMemory,
}

impl From<UnreadFile> for Unready {
    ghost use Rattle.std.specs.Prelude.{◌≡◌};
    ghost use Rattle.kt_play.specs.Refused.{of_file};

    ghost from_gives = { λ unread unready. unready ≡ of_file unread };

    fn from(unread: UnreadFile) -> Unready {
        match unread.end {
            ReadEnd::Failed => Unready::Refused(Refusal::Read(Which::File(unread.number))),
            ReadEnd::TooLong => Unready::Refused(Refusal::Long(Which::File(unread.number))),
            ReadEnd::NoMemory => Unready::NoMemory,
        }
    }
}

// Of the input.
impl From<ReadEnd> for Unready {
    ghost use Rattle.std.specs.Prelude.{◌≡◌};
    ghost use Rattle.kt_play.specs.Refused.{of_input};

    ghost from_gives = { λ end unready. unready ≡ of_input end };

    fn from(end: ReadEnd) -> Unready {
        match end {
            ReadEnd::Failed => Unready::Refused(Refusal::Read(Which::Input)),
            ReadEnd::TooLong => Unready::Refused(Refusal::Long(Which::Input)),
            ReadEnd::NoMemory => Unready::NoMemory,
        }
    }
}

impl From<NoJob> for Unready {
    ghost use Rattle.std.specs.Prelude.{◌≡◌};
    ghost use Rattle.kt_play.specs.Refused.{of_no_job};

    ghost from_gives = { λ no_job unready. unready ≡ of_no_job no_job };

    fn from(no_job: NoJob) -> Unready {
        match no_job {
            NoJob::File(number, cause) => Unready::Refused(Refusal::File(number, cause)),
            NoJob::NoMemory => Unready::NoMemory,
        }
    }
}
