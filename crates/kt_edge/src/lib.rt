//! The outside: files by name, a source that is read and a sink that is written, each with what it
//! tells of its bytes and a count of its faults. They are kept in memory, for tests and proofs, or
//! adapt the host's files and streams. Above them stand the two loops that programs use, `read_all`
//! and `write_whole`.
#![tactic(auto)]

mod device;
mod ends;
mod host;
mod memory;
mod whole;

pub use device::{Files, Sink, Source};
pub use ends::{Failed, FileEnd, ReadEnd};
pub use host::{HostFiles, HostSink, HostSource};
pub use memory::{MemFiles, MemSink, MemSource};
pub use whole::{read_all, write_whole};
