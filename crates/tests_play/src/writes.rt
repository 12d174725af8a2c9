//! Each write of the output and of the journal failing in turn.

use crate::calls::{APPEND, APPEND_JOURNAL, Device, FIRST, STEADY, call, one, told};
use kt_play::status::Status;
use std::alloc::{AllocError, Global};
use std::test::Fail;

// What has been taken by a sink with such pieces when the given write, counted from 1, fails.
fn front(text: &str, piece: u32, failing: u64) -> &[u8] {
    let taken = u64::from(piece).saturating_mul(failing.saturating_sub(1));
    let bytes = text.as_bytes();
    let taken = usize::try_from(taken)
        .unwrap_or(usize::MAX)
        .min(bytes.len());
    &bytes[..taken]
}

// Whether the failing write of the output leaves a front of it, and no journal.
fn output_fails(alloc: Global, piece: u32, fail_on: u64) -> Result<bool, AllocError> {
    let mut files = one(alloc, APPEND, 0)?;
    let device = Device { piece, fail_on };
    let found = call(alloc, &["one.c"], &mut files, device, STEADY)?;
    let wanted = told(alloc, Status::WriteFault, front("aaa", piece, fail_on), b"")?;
    Ok(found.as_str() == wanted.as_str())
}

// Whether the failing write of the journal leaves the output and a front of the journal.
fn journal_fails(alloc: Global, piece: u32, fail_on: u64) -> Result<bool, AllocError> {
    let mut files = one(alloc, APPEND, 0)?;
    let device = Device { piece, fail_on };
    let found = call(alloc, &["one.c"], &mut files, STEADY, device)?;
    let taken = front(APPEND_JOURNAL, piece, fail_on);
    let wanted = told(alloc, Status::WriteFault, b"aaa", taken)?;
    Ok(found.as_str() == wanted.as_str())
}

// The answer where no write fails.
fn steady(alloc: Global, piece: u32) -> Result<String, AllocError> {
    let mut files = one(alloc, APPEND, 0)?;
    let device = Device { piece, fail_on: 0 };
    call(alloc, &["one.c"], &mut files, device, device)
}

#[test]
fn each_write_fails_in_turn(rt: HostRuntime) -> Result<(), Fail> {
    // The output takes 3 bytes and the journal 27: these are their writes with pieces of 1 and of 7 bytes.
    for (piece, outs, logs) in [(1, 3, 27), (7, 1, 4)] {
        for failing in 1..outs + 1 {
            assert!(rt; output_fails(rt.alloc(), piece, failing)?);
        }
        for failing in 1..logs + 1 {
            assert!(rt; journal_fails(rt.alloc(), piece, failing)?);
        }
        let found = steady(rt.alloc(), piece)?;
        assert_eq!(rt;
            found.as_str(),
            "Main(3) | aaa | kit 1/turn 0 18/end main 3/"
        );
    }
    Ok(())
}

// Whether a refusal is answered as one where this write of its line fails.
fn line_fails(alloc: Global, piece: u32, fail_on: u64) -> Result<bool, AllocError> {
    let mut files = one(alloc, FIRST, 0)?;
    let device = Device { piece, fail_on };
    let found = call(alloc, &[], &mut files, STEADY, device)?;
    let taken = front("refuse words\n", piece, fail_on);
    let wanted = told(alloc, Status::Words, b"", taken)?;
    Ok(found.as_str() == wanted.as_str())
}

#[test]
fn a_refusal_keeps_its_answer_where_the_log_fails(rt: HostRuntime) -> Result<(), Fail> {
    for (piece, failing) in [(1, 1), (1, 13), (7, 2)] {
        assert!(rt; line_fails(rt.alloc(), piece, failing)?);
    }
    Ok(())
}
