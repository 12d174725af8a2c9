//! Calls of `play` over devices in memory, and the small programs that several tests run.
//!
//! What a call answers is told as a text: the status, the output and the journal or line, with ` | ` between them. A newline
//! is written `/`.

use kt_edge::{MemFiles, MemSink, MemSource};
use kt_play::play::play;
use kt_play::status::Status;
use std::alloc::{AllocError, Global};

pub(crate) const FIRST: &str = "int main(){putchar('A');return 0;}";

pub(crate) const APPEND: &str = "int n; int main(){while(n<3){putchar('a');n=n+1;}return n;}";

pub(crate) const APPEND_JOURNAL: &str = "kit 1\nturn 0 18\nend main 3\n";

// It runs alone, and may not be updated so far.
pub(crate) const LONG: &str = "long n; int main(){return 0;}";

// How many bytes a sink takes at once, and which of its writes fails (0: none).
#[derive(Clone, Copy)]
pub(crate) struct Device {
    pub(crate) piece: u32,
    pub(crate) fail_on: u64,
}

pub(crate) const STEADY: Device = Device {
    piece: 1000,
    fail_on: 0,
};

pub(crate) fn sink(alloc: Global, device: Device) -> Result<MemSink, AllocError> {
    let piece = device.piece.max(1);
    MemSink::new(alloc, 1000, piece, [device.fail_on].to_vec(alloc)?)
}

pub(crate) fn files(
    alloc: Global,
    texts: &[(&str, &str)],
    fail_on: u64,
) -> Result<MemFiles, AllocError> {
    let mut entries = Vec::new(alloc);
    for (name, text) in texts {
        let name = String::from_str(alloc, name)?;
        let text = text.as_bytes().to_vec(alloc)?;
        entries.push((name, text))?;
    }
    Ok(MemFiles {
        entries,
        fail_on: [fail_on].to_vec(alloc)?,
        calls: 0,
        faults: 0,
    })
}

pub(crate) fn one(alloc: Global, text: &str, fail_on: u64) -> Result<MemFiles, AllocError> {
    files(alloc, &[("one.c", text)], fail_on)
}

// An input in pieces of 1000 bytes, of whose reads the given one fails (0: none).
pub(crate) fn source(alloc: Global, bytes: &[u8], fail_on: u64) -> Result<MemSource, AllocError> {
    Ok(MemSource {
        rest: bytes.to_vec(alloc)?,
        piece: 1000,
        fail_on: [fail_on].to_vec(alloc)?,
        calls: 0,
        faults: 0,
    })
}

// The bytes, a newline as `/`.
fn push_bytes(text: &mut String, bytes: &[u8]) -> Result<(), AllocError> {
    for byte in bytes {
        text.push(if *byte == b'\n' {
            '/'
        } else {
            char::from(*byte)
        })?;
    }
    Ok(())
}

// What is told of an answer.
pub(crate) fn told(
    alloc: Global,
    status: Status,
    out: &[u8],
    log: &[u8],
) -> Result<String, AllocError> {
    let mut text = format!(in alloc; "{status:?} | ")?;
    push_bytes(&mut text, out)?;
    text.push_str(" | ")?;
    push_bytes(&mut text, log)?;
    Ok(text)
}

fn list(alloc: Global, words: &[&str]) -> Result<Vec<String>, AllocError> {
    let mut list = Vec::new(alloc);
    for word in words {
        list.push(String::from_str(alloc, word)?)?;
    }
    Ok(list)
}

pub(crate) fn call_with(
    alloc: Global,
    words: &[&str],
    files: &mut MemFiles,
    input: &mut MemSource,
    out: Device,
    log: Device,
) -> Result<String, AllocError> {
    let words = list(alloc, words)?;
    let mut out = sink(alloc, out)?;
    let mut log = sink(alloc, log)?;
    let status = play(alloc, words.as_slice(), files, input, &mut out, &mut log);
    told(alloc, status, out.taken.as_slice(), log.taken.as_slice())
}

// A call on an empty input.
pub(crate) fn call(
    alloc: Global,
    words: &[&str],
    files: &mut MemFiles,
    out: Device,
    log: Device,
) -> Result<String, AllocError> {
    let mut input = source(alloc, b"", 0)?;
    call_with(alloc, words, files, &mut input, out, log)
}

// A run of one version on an input.
pub(crate) fn run_with(
    alloc: Global,
    text: &str,
    input: &mut MemSource,
) -> Result<String, AllocError> {
    let mut files = one(alloc, text, 0)?;
    call_with(alloc, &["one.c"], &mut files, input, STEADY, STEADY)
}

pub(crate) fn run(alloc: Global, text: &str) -> Result<String, AllocError> {
    let mut input = source(alloc, b"", 0)?;
    run_with(alloc, text, &mut input)
}

// The first row of a table, an answer and behind it a version, whose run on an empty input answers otherwise, with that.
pub(crate) fn differing(alloc: Global, table: &str) -> Result<String, AllocError> {
    for row in table.lines() {
        let (wanted, text) = row.split_once(" <- ").unwrap_or((row, ""));
        let found = run(alloc, text)?;
        if found.as_str() != wanted {
            return format!(in alloc; "{found}, and not {row}");
        }
    }
    Ok(String::new(alloc))
}

// A call on two versions and rules between them, with an input, and with this word for the second version.
pub(crate) fn call_on_two(
    alloc: Global,
    texts: (&str, &str, &str),
    third: &str,
    fail_on: u64,
    input: &mut MemSource,
) -> Result<String, AllocError> {
    let (old, rules, new) = texts;
    let names = [("old.c", old), ("rules", rules), ("new.c", new)];
    let mut files = files(alloc, &names, fail_on)?;
    let words = ["old.c", "rules", third];
    call_with(alloc, &words, &mut files, input, STEADY, STEADY)
}

// Files of blanks, of so many bytes each.
pub(crate) fn blanks(alloc: Global, counts: &[(&str, usize)]) -> Result<MemFiles, AllocError> {
    let mut entries = Vec::new(alloc);
    for (name, count) in counts {
        let mut text = Vec::new(alloc);
        text.resize(*count, b' ')?;
        entries.push((String::from_str(alloc, name)?, text))?;
    }
    Ok(MemFiles {
        entries,
        fail_on: Vec::new(alloc),
        calls: 0,
        faults: 0,
    })
}
