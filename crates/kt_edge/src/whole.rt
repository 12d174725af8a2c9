//! Reading a source to its end, and writing all of some bytes.

ghost use Rattle.std.specs.Prelude.{◌≡◌, ℕ, ◌+◌, ◌<◌, ◌≤◌, List, IfOk, IfSome, IsErr, IsErrOf, IsSomeAnd, OnOk, OnErr, is_err, length, vec_len};
ghost use Rattle.std.specs.Io.KnownBytes.{Appends, Consumes, IsAtEnd};
ghost use Rattle.kt_edge.specs.Calls.{WritesByCalls};
ghost use Rattle.kt_edge.specs.Count.{HasCause, Rose, count_after, one_more};
ghost use Rattle.kt_edge.specs.Writes.{AppendsPart};

use crate::{Failed, ReadEnd, Sink, Source};
use std::alloc::Global;

const BUFFER: usize = 4096;

/// The next `most` bytes of the source, or all that are left where there are fewer. An error may
/// come after some bytes were read.
pub(crate) fn read_start<S: Source>(
    alloc: Global,
    source: &mut S,
    most: usize,
) -> Result<Vec<u8>, ReadEnd>
    ensures start { IfOk result (λ v. Consumes (S.left source.old) (S.left source.new) v.items) }
    ensures bound { IfOk result (λ v. vec_len v ≤ most) }
    ensures end { IfOk result (λ v. vec_len v < most → IsAtEnd (S.left source.new)) }

    ensures front { (bytes : List ℕ) × Consumes (S.left source.old) (S.left source.new) bytes }
    ensures later { S.faults source.old ≤ S.faults source.new }
    ensures failed { IsErrOf result ReadEnd.Failed
        → Rose (S.faults source.old) (S.faults source.new) }
    ensures rises { IsErrOf result ReadEnd.Failed
        → S.faults source.new ≡ one_more (S.faults source.old) }
    ensures stays { ¬ IsErrOf result ReadEnd.Failed
        → S.faults source.new ≡ S.faults source.old }
    ensures never_too_long { IsErrOf result ReadEnd.TooLong → ⊥ }
{
    let mut buffer = [0; BUFFER];
    let mut bytes = Vec::new(alloc);
    while bytes.len() < most {
        let wanted = (most - bytes.len()).min(BUFFER);
        let piece = &mut buffer[..wanted];
        let count = source.read(piece).map_err(|_| ReadEnd::Failed)?;
        if count == 0 {
            break;
        }
        bytes
            .extend_from_slice(&piece[..count])
            .map_err(|_| ReadEnd::NoMemory)?;
    }
    Ok(bytes)
}

/// The rest of the source, of at most `limit` bytes: `TooLong` where it is longer. Each turn reads a
/// byte or more, so there are at most `limit + 1` of them and one at the end. After an error a front
/// of the rest is gone.
pub fn read_all<S: Source>(alloc: Global, source: &mut S, limit: u32) -> Result<Vec<u8>, ReadEnd>
    ensures whole { IfOk result (λ v. IfSome (S.left source.old) (λ rest. v.items ≡ rest)) }
    ensures end { OnOk result (IsAtEnd (S.left source.new)) }
    ensures within { IfOk result (λ v. vec_len v ≤ limit) }

    // `TooLong` comes only where more than `limit` bytes are left, and there no Ok comes.
    ensures too_long { IsErrOf result ReadEnd.TooLong
        → IfSome (S.left source.old) (λ rest. limit < length rest) }
    ensures refused { IsSomeAnd (S.left source.old) (λ rest. limit < length rest)
        → IsErr result }

    ensures later { S.faults source.old ≤ S.faults source.new }
    ensures failed { IsErrOf result ReadEnd.Failed
        → Rose (S.faults source.old) (S.faults source.new) }

    // The count rises by one at `Failed`, and stays at any other answer.
    ensures rises { IsErrOf result ReadEnd.Failed
        → S.faults source.new ≡ one_more (S.faults source.old) }
    ensures stays { ¬ IsErrOf result ReadEnd.Failed
        → S.faults source.new ≡ S.faults source.old }

    // What is gone: a front of the rest, and at `TooLong` one byte more than the limit.
    ensures front { (bytes : List ℕ) × Consumes (S.left source.old) (S.left source.new) bytes }
    ensures one_too_many { IsErrOf result ReadEnd.TooLong → (bytes : List ℕ)
        × (length bytes ≡ limit + 1) × Consumes (S.left source.old) (S.left source.new) bytes }
{
    let bytes = read_start(alloc, source, limit as usize + 1)?;
    if bytes.len() > limit as usize {
        return Err(ReadEnd::TooLong);
    }
    Ok(bytes)
}

/// Writes all of the bytes, in order. Each call of the sink is given all bytes that are left, and a
/// failing call is the last. It takes no memory.
pub fn write_whole<K: Sink>(sink: &mut K, bytes: &[u8]) -> Result<(), Failed>
    ensures whole { OnOk result (Appends (K.taken sink.old) (K.taken sink.new) bytes.now) }
    ensures part { OnErr result (AppendsPart (K.taken sink.old) (K.taken sink.new) bytes.now) }
    ensures cause { HasCause (K.faults sink.old) (K.faults sink.new) result }
    ensures count { K.faults sink.new ≡ count_after (K.faults sink.old) (is_err result) }

    // Each call is given all bytes that are left, and a failing call is the last.
    ensures calls { WritesByCalls K.write_gives sink.old bytes.now result sink.new }
{
    let mut rest = bytes;
    while !rest.is_empty() {
        let count = sink.write(rest)?;
        rest = &rest[count..];
    }
    Ok(())
}
