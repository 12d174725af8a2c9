//! The host's files, and any reader and writer. A source tells of its bytes what its reader tells,
//! and a sink what its writer tells: nothing of an open file or a stream, all of a slice that is read
//! and of a vector that is written. Files by their paths tell nothing. Each counts its faults.

ghost use Rattle.std.specs.Prelude.{◌≡◌, ◌+◌, ◌<◌, ◌≤◌, None, IfOk, IsErrOf, is_err, vec_len};
ghost use Rattle.std.specs.Io.{ReadsAtMost, WritesAtMost};
ghost use Rattle.std.specs.Io.KnownBytes.{ReadConsumes, WriteAppends};
ghost use Rattle.kt_edge.specs.Count.{HasCause, Rose, count_after, one_more};

use crate::whole::read_start;
use crate::{Failed, FileEnd, Files, ReadEnd, Sink, Source};
use std::alloc::Global;
use std::fs::File;
use std::{io, rt};

/// The files of a runtime, by their paths. A file that is not there is a fault like any other.
#[derive(Drop)]
pub struct HostFiles<R> {
    runtime: R,
    /// How often a read failed, up to the last value.
    pub faults: u64,
}

/// A stream or an open file that is read.
#[derive(Drop)]
pub struct HostSource<R> {
    /// What it reads from.
    pub reader: R,
    /// How often a read failed, up to the last value.
    pub faults: u64,
}

/// A stream that is written. A write that takes no byte is a fault.
#[derive(Drop)]
pub struct HostSink<W> {
    /// What it writes to.
    pub writer: W,
    /// How often a write failed, up to the last value.
    pub faults: u64,
}

impl<R: rt::Files> HostFiles<R> {
    /// The files of this runtime, with no fault so far.
    pub fn new(runtime: R) -> Self
        ensures { result.faults ≡ 0 }
    {
        HostFiles { runtime, faults: 0 }
    }
}

impl<R: io::Read> HostSource<R> {
    /// Reads from here, with no fault so far.
    pub fn new(reader: R) -> Self
        ensures reader { result.reader ≡ reader }
        ensures faults { result.faults ≡ 0 }
    {
        HostSource { reader, faults: 0 }
    }
}

impl<W: io::Write> HostSink<W> {
    /// Writes there, with no fault so far.
    pub fn new(writer: W) -> Self
        ensures writer { result.writer ≡ writer }
        ensures faults { result.faults ≡ 0 }
    {
        HostSink { writer, faults: 0 }
    }
}

/// The first `most` bytes of the file, or all where it has fewer.
fn read_file<R: rt::Files>(
    alloc: Global,
    runtime: &R,
    name: &str,
    most: usize,
) -> Result<Vec<u8>, ReadEnd>
    ensures bound { IfOk result (λ v. vec_len v ≤ most) }
{
    let file = File::open(runtime, name).map_err(|_| ReadEnd::Failed)?;
    read_start(alloc, &mut HostSource::new(file), most)
}

impl<R: rt::Files> Files for HostFiles<R> {
    ghost told = { λ _. None };

    ghost faults = { λ files. files.faults };

    fn read(&mut self, alloc: Global, name: &str, limit: u32) -> Result<Vec<u8>, FileEnd>
        ensures bound { IfOk result (λ v. vec_len v ≤ limit + 1) }
        ensures later { self.old.faults ≤ self.new.faults }
        ensures failed { IsErrOf result FileEnd.Failed → Rose self.old.faults self.new.faults }
        ensures missing { IsErrOf result FileEnd.Missing → ⊥ }

        // The count rises by one where it answers `Failed`, and nowhere else.
        ensures rises { IsErrOf result FileEnd.Failed → self.new.faults ≡ one_more self.old.faults }
        ensures stays { ¬ IsErrOf result FileEnd.Failed → self.new.faults ≡ self.old.faults }
    {
        match read_file(alloc, &self.runtime, name, limit as usize + 1) {
            Ok(bytes) => Ok(bytes),
            Err(ReadEnd::NoMemory) => Err(FileEnd::NoMemory),
            Err(ReadEnd::Failed | ReadEnd::TooLong) => {
                self.faults = self.faults.saturating_add(1);
                Err(FileEnd::Failed)
            }
        }
    }
}

impl<R: io::Read> Source for HostSource<R> {
    ghost left = { λ source. R.remaining source.reader };

    ghost faults = { λ source. source.faults };

    fn read(&mut self, buf: &mut [u8]) -> Result<usize, Failed>
        ensures bound { ReadsAtMost result buf.new }
        ensures bytes { ReadConsumes
            (R.remaining self.old.reader) (R.remaining self.new.reader) result buf.new }
        ensures cause { HasCause self.old.faults self.new.faults result }
        ensures count { self.new.faults ≡ count_after self.old.faults (is_err result) }
    {
        match self.reader.read(buf) {
            Ok(count) => Ok(count),
            Err(_) => {
                self.faults = self.faults.saturating_add(1);
                Err(Failed)
            }
        }
    }
}

impl<W: io::Write> Sink for HostSink<W> {
    ghost taken = { λ sink. W.contents sink.writer };

    ghost faults = { λ sink. sink.faults };

    fn write(&mut self, bytes: &[u8]) -> Result<usize, Failed>
        ensures bound { WritesAtMost result bytes.now }
        ensures some { IfOk result (λ n. 0 < n) }
        ensures bytes { WriteAppends
            (W.contents self.old.writer) (W.contents self.new.writer) result bytes.now }
        ensures cause { HasCause self.old.faults self.new.faults result }
        ensures count { self.new.faults ≡ count_after self.old.faults (is_err result) }
    {
        match self.writer.write(bytes) {
            Ok(0) | Err(_) => {
                self.faults = self.faults.saturating_add(1);
                Err(Failed)
            }
            Ok(count) => Ok(count),
        }
    }
}
