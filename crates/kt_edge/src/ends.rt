//! Why a call on the outside ends without what was asked for.

use thiserror::Error;

/// A source or a sink failed in this call.
#[derive(Clone, Copy, Debug, PartialEq, Eq, Error)]
#[error("the device failed")]
pub struct Failed;

/// Why a file was not read.
#[derive(Clone, Copy, Debug, PartialEq, Eq, Error)]
pub enum FileEnd {
    /// The files are told, and none has that name.
    #[error("there is no such file")]
    Missing,
    /// The files failed in this call.
    #[error("the file could not be read")]
    Failed,
    /// Memory ran out.
    #[error("out of memory")]
    NoMemory,
}

/// Why a source was not read to its end.
#[derive(Clone, Copy, Debug, PartialEq, Eq, Error)]
pub enum ReadEnd {
    /// The source failed in this call.
    #[error("the input could not be read")]
    Failed,
    /// More bytes came than the limit allows.
    #[error("the input is too long")]
    TooLong,
    /// Memory ran out.
    #[error("out of memory")]
    NoMemory,
}
