//! Files, a source and a sink in memory. They tell all of their bytes, and fail at the calls that
//! they are told to.

ghost use Rattle.std.specs.Prelude.{◌≡◌, ◌↔◌, ◌+◌, ◌-◌, ◌<◌, ◌≤◌, ◌⊎◌, [], length, min, option_map, Some, IfOk, IsErr, IsErrOf, IsFalse, IsTrue, is_err, vec_len, vec_capacity};
ghost use Rattle.std.specs.Io.{ReadsAtMost, WritesAtMost};
ghost use Rattle.std.specs.Io.KnownBytes.{ReadConsumes, WriteAppends};
ghost use Rattle.kt_edge.specs.Count.{HasCause, Rose, count_after, one_more};
ghost use Rattle.kt_edge.specs.FileMap.{bytes_of, Lacks, StartsFile};
ghost use Rattle.kt_edge.specs.Memory.{fails_next, file_map, told_of};

use crate::{Failed, FileEnd, Files, Sink, Source};
use std::alloc::{AllocError, Global};

/// Files in memory. Where a name stands twice, the first entry counts.
#[derive(Drop)]
pub struct MemFiles {
    /// Names and bytes.
    pub entries: Vec<(String, Vec<u8>)>,
    /// The numbers of the calls that fail, counted from 1.
    pub fail_on: Vec<u64>,
    /// How many calls there were, up to the last value.
    pub calls: u64,
    /// How many of them failed, up to the last value.
    pub faults: u64,
}

/// Bytes in memory that are read.
#[derive(Drop)]
pub struct MemSource {
    /// The bytes that are left.
    pub rest: Vec<u8>,
    /// The most bytes of one call.
    pub piece: u32,
    /// The numbers of the calls that fail, counted from 1.
    pub fail_on: Vec<u64>,
    /// How many calls there were, up to the last value.
    pub calls: u64,
    /// How many of them failed, up to the last value.
    pub faults: u64,
    pub ghost piece_is_not_empty: { 0 < piece },
}

/// Room in memory for bytes that are written. It is reserved when the sink is made, so that no
/// write takes memory.
#[derive(Drop)]
pub struct MemSink {
    /// The bytes that were taken.
    pub taken: Vec<u8>,
    /// The most bytes that are taken in all.
    pub room: u32,
    /// The most bytes of one call.
    pub piece: u32,
    /// The numbers of the calls that fail, counted from 1.
    pub fail_on: Vec<u64>,
    /// How many calls there were, up to the last value.
    pub calls: u64,
    /// How many of them failed, up to the last value.
    pub faults: u64,
    pub ghost piece_is_not_empty: { 0 < piece },
    pub ghost within_room: { vec_len taken ≤ room },
    pub ghost reserved: { room ≤ vec_capacity taken },
}

/// Counts one more call, and says whether it is one that fails.
fn fails(calls: &mut u64, fail_on: &[u64]) -> bool
    ensures counted { calls.new ≡ one_more calls.old }
    ensures listed { result ≡ fails_next fail_on.now calls.old }
{
    *calls = calls.saturating_add(1);
    fail_on.contains(calls)
}

/// The first entry of that name.
fn first_entry<'a>(entries: &'a [(String, Vec<u8>)], name: &str) -> Option<&'a (String, Vec<u8>)>
    ensures { option_map (λ entry. entry.now.1.items) result
        ≡ bytes_of (file_map entries.now) name.now }
{
    entries.iter().find(|entry| entry.0.as_str() == name)
}

impl Files for MemFiles {
    ghost told = { λ files. told_of files.entries.items };

    ghost faults = { λ files. files.faults };

    fn read(&mut self, alloc: Global, name: &str, limit: u32) -> Result<Vec<u8>, FileEnd>
        ensures same { told_of self.new.entries.items ≡ told_of self.old.entries.items }
        ensures start { IfOk result
            (λ v. StartsFile (told_of self.old.entries.items) name.now (limit + 1) v.items) }
        ensures bound { IfOk result (λ v. vec_len v ≤ limit + 1) }

        ensures later { self.old.faults ≤ self.new.faults }
        ensures failed { IsErrOf result FileEnd.Failed → Rose self.old.faults self.new.faults }
        ensures missing { IsErrOf result FileEnd.Missing
            → Lacks (told_of self.old.entries.items) name.now }
        ensures missing_is_no_fault { IsErrOf result FileEnd.Missing
            → self.new.faults ≡ self.old.faults }
        ensures rises { IsErrOf result FileEnd.Failed → self.new.faults ≡ one_more self.old.faults }
        ensures stays { ¬ IsErrOf result FileEnd.Failed → self.new.faults ≡ self.old.faults }

        // It fails exactly at the listed calls. At the others it answers `Missing` exactly where it
        // lacks the name.
        ensures fails { IsErrOf result FileEnd.Failed
            ↔ IsTrue (fails_next self.old.fail_on.items self.old.calls) }
        ensures lacks { IsErrOf result FileEnd.Missing
            ↔ (IsFalse (fails_next self.old.fail_on.items self.old.calls)
            × Lacks (told_of self.old.entries.items) name.now) }
        ensures after { self.new ≡ record self.old {
          calls = one_more self.old.calls;
          faults = count_after self.old.faults
              (fails_next self.old.fail_on.items self.old.calls);
        } }
    {
        if fails(&mut self.calls, &self.fail_on) {
            self.faults = self.faults.saturating_add(1);
            return Err(FileEnd::Failed);
        }
        match first_entry(&self.entries, name) {
            None => Err(FileEnd::Missing),
            Some((_, bytes)) => {
                let most = bytes.len().min(limit as usize + 1);
                Vec::from_slice(alloc, &bytes[..most]).map_err(|_| FileEnd::NoMemory)
            }
        }
    }
}

impl Source for MemSource {
    ghost left = { λ source. Some source.rest.items };

    ghost faults = { λ source. source.faults };

    fn read(&mut self, buf: &mut [u8]) -> Result<usize, Failed>
        ensures bound { ReadsAtMost result buf.new }
        ensures bytes { ReadConsumes
            (Some self.old.rest.items) (Some self.new.rest.items) result buf.new }
        ensures cause { HasCause self.old.faults self.new.faults result }

        // It fails exactly at the listed calls. At the others it reads as many bytes as it may.
        ensures fails { IsErr result
            ↔ IsTrue (fails_next self.old.fail_on.items self.old.calls) }
        ensures moves { IfOk result
            (λ n. n ≡ min (min (length buf.old) (vec_len self.old.rest)) self.old.piece) }
        ensures calls { self.new.calls ≡ one_more self.old.calls }
        ensures count { self.new.faults ≡ count_after self.old.faults (is_err result) }
        ensures same { (self.new.piece ≡ self.old.piece) × (self.new.fail_on ≡ self.old.fail_on) }
    {
        if fails(&mut self.calls, &self.fail_on) {
            self.faults = self.faults.saturating_add(1);
            return Err(Failed);
        }
        let count = buf.len().min(self.rest.len()).min(self.piece as usize);
        buf[..count].copy_from_slice(&self.rest[..count]);
        self.rest.drain(..count);
        Ok(count)
    }
}

impl MemSink {
    /// A sink with this room, which takes at most `piece` bytes in one call and fails at the listed
    /// calls, counted from 1.
    pub fn new(
        alloc: Global,
        room: u32,
        piece: u32,
        fail_on: Vec<u64>,
    ) -> Result<MemSink, AllocError>
        requires { 0 < piece }
        ensures taken { IfOk result (λ sink. sink.taken.items ≡ []) }
        ensures given { IfOk result
            (λ sink. (sink.room ≡ room) × (sink.piece ≡ piece) × (sink.fail_on ≡ fail_on)) }
        ensures counts { IfOk result (λ sink. (sink.calls ≡ 0) × (sink.faults ≡ 0)) }
    {
        let taken = Vec::with_capacity(alloc, room as usize)?;
        Ok(MemSink {
            taken,
            room,
            piece,
            fail_on,
            calls: 0,
            faults: 0,
        })
    }
}

impl Sink for MemSink {
    ghost taken = { λ sink. Some sink.taken.items };

    ghost faults = { λ sink. sink.faults };

    ghost write_gives = { λ old bytes result new. (new.calls ≡ one_more old.calls) × IfOk result
        (λ n. n ≡ min (min (length bytes) (old.room - vec_len old.taken)) old.piece) };

    fn write(&mut self, bytes: &[u8]) -> Result<usize, Failed>
        ensures bound { WritesAtMost result bytes.now }
        ensures some { IfOk result (λ n. 0 < length bytes.now → 0 < n) }
        ensures bytes { WriteAppends
            (Some self.old.taken.items) (Some self.new.taken.items) result bytes.now }
        ensures cause { HasCause self.old.faults self.new.faults result }

        // It fails exactly at the listed calls, and where there is a byte and no room for it. Else it
        // takes as many bytes as it may.
        ensures fails { IsErr result
            ↔ (IsTrue (fails_next self.old.fail_on.items self.old.calls)
            ⊎ ((0 < length bytes.now) × (vec_len self.old.taken ≡ self.old.room))) }
        ensures moves { IfOk result (λ n. n
            ≡ min (min (length bytes.now) (self.old.room - vec_len self.old.taken)) self.old.piece) }
        ensures calls { self.new.calls ≡ one_more self.old.calls }
        ensures count { self.new.faults ≡ count_after self.old.faults (is_err result) }
        ensures same { (self.new.room ≡ self.old.room)
            × (self.new.piece ≡ self.old.piece) × (self.new.fail_on ≡ self.old.fail_on) }
    {
        let is_listed = fails(&mut self.calls, &self.fail_on);
        let left = self.room as usize - self.taken.len();
        let is_full = left == 0 && !bytes.is_empty();
        if is_listed || is_full {
            self.faults = self.faults.saturating_add(1);
            return Err(Failed);
        }
        let count = bytes.len().min(left).min(self.piece as usize);
        self.taken.extend_from_slice(&bytes[..count]).unwrap();
        Ok(count)
    }
}
