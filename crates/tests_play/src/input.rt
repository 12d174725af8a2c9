//! The input: it is read whole behind the files, and before any of them is judged.

use crate::calls::{
    APPEND, FIRST, LONG, STEADY, blanks, call_on_two, call_with, one, run_with, source,
};
use kt_edge::MemSource;
use std::alloc::{AllocError, Global};
use std::test::Fail;

const UNREAD: &str = "ReadFault(Input) |  | refuse read input/";

const TOO_LONG: &str = "TooLong(Input) |  | refuse long input/";

const RUN: &str = "Main(0) | A | kit 1/turn 0 2/end main 0/";

// An input of so many bytes.
fn input_of(alloc: Global, count: usize) -> Result<MemSource, AllocError> {
    let mut rest = Vec::new(alloc);
    rest.resize(count, b'x')?;
    Ok(MemSource {
        rest,
        piece: 65_536,
        fail_on: Vec::new(alloc),
        calls: 0,
        faults: 0,
    })
}

// An input whose first read fails.
fn broken(alloc: Global) -> Result<MemSource, AllocError> {
    source(alloc, b"x", 1)
}

// The answer where the given read of 2,500 bytes fails.
fn failing_read(alloc: Global, fail_on: u64) -> Result<String, AllocError> {
    let mut bytes = Vec::new(alloc);
    bytes.resize(2500, b'x')?;
    let mut input = source(alloc, bytes.as_slice(), fail_on)?;
    run_with(alloc, FIRST, &mut input)
}

#[test]
fn each_read_fails_in_turn(rt: HostRuntime) -> Result<(), Fail> {
    // They come in three reads, and a fourth one finds the end.
    for failing in 1..5 {
        assert_eq!(rt; failing_read(rt.alloc(), failing)?.as_str(), UNREAD);
    }
    // There is no fifth.
    assert_eq!(rt; failing_read(rt.alloc(), 5)?.as_str(), RUN);
    Ok(())
}

// The answer to a text on an input of so many bytes.
fn long_input(alloc: Global, text: &str, count: usize) -> Result<String, AllocError> {
    let mut input = input_of(alloc, count)?;
    run_with(alloc, text, &mut input)
}

#[test]
fn input_that_is_too_long(rt: HostRuntime) -> Result<(), Fail> {
    assert_eq!(rt; long_input(rt.alloc(), FIRST, 1_048_576)?.as_str(), RUN);
    // The second text is no version.
    for text in [FIRST, "@"] {
        assert_eq!(rt; long_input(rt.alloc(), text, 1_048_577)?.as_str(), TOO_LONG);
    }
    Ok(())
}

// The answer to words where file and input can't be read.
fn unread_words(alloc: Global, words: &[&str]) -> Result<String, AllocError> {
    let mut files = one(alloc, "@", 1)?;
    let mut input = broken(alloc)?;
    call_with(alloc, words, &mut files, &mut input, STEADY, STEADY)
}

#[test]
fn words_come_before_the_input(rt: HostRuntime) -> Result<(), Fail> {
    for words in [[].as_slice(), &["one.c", "one.c"], &["-"]] {
        let found = unread_words(rt.alloc(), words)?;
        assert_eq!(rt; found.as_str(), "Words |  | refuse words/");
    }
    Ok(())
}

// The answer to files that run, where this read of a file fails (0: none), and so does the input's.
fn unread_file(alloc: Global, third: &str, fail_on: u64) -> Result<String, AllocError> {
    let mut input = broken(alloc)?;
    call_on_two(alloc, (FIRST, "", FIRST), third, fail_on, &mut input)
}

// The answer to files of blanks, where the input can't be read.
fn long_files(alloc: Global, counts: &[(&str, usize)]) -> Result<String, AllocError> {
    let mut files = blanks(alloc, counts)?;
    let mut input = broken(alloc)?;
    let words = ["a", "b", "c"];
    call_with(alloc, &words, &mut files, &mut input, STEADY, STEADY)
}

#[test]
fn files_come_before_the_input(rt: HostRuntime) -> Result<(), Fail> {
    // The file is missing, or its read fails.
    for (third, fail_on, want) in [
        ("new.c", 1, "ReadFault(File(1)) |  | refuse read 1/"),
        ("new.c", 2, "ReadFault(File(2)) |  | refuse read 2/"),
        ("new.c", 3, "ReadFault(File(3)) |  | refuse read 3/"),
        ("none.c", 0, "ReadFault(File(3)) |  | refuse read 3/"),
    ] {
        assert_eq!(rt; unread_file(rt.alloc(), third, fail_on)?.as_str(), want);
    }
    // It is too long.
    let found = long_files(rt.alloc(), &[("a", 262_145), ("b", 0), ("c", 0)])?;
    assert_eq!(rt; found.as_str(), "TooLong(File(1)) |  | refuse long 1/");
    let found = long_files(rt.alloc(), &[("a", 0), ("b", 0), ("c", 262_145)])?;
    assert_eq!(rt; found.as_str(), "TooLong(File(3)) |  | refuse long 3/");
    Ok(())
}

// The answer to files where the input can't be read.
fn unread_input(alloc: Global, texts: (&str, &str, &str)) -> Result<String, AllocError> {
    let mut input = broken(alloc)?;
    call_on_two(alloc, texts, "new.c", 0, &mut input)
}

#[test]
fn the_input_comes_before_what_files_are(rt: HostRuntime) -> Result<(), Fail> {
    // A file that is no version, versions and rules that don't run so far, and a job that runs.
    let threads = "void t(int a){} int main(void){return ktthread_create(t,1);}";
    for texts in [
        ("@", "", FIRST),
        (FIRST, "", "int main(void) { return 0 }"),
        (LONG, "", FIRST),
        (threads, "", FIRST),
        (FIRST, "y", FIRST),
        (FIRST, "", LONG),
        (FIRST, "", APPEND),
    ] {
        assert_eq!(rt; unread_input(rt.alloc(), texts)?.as_str(), UNREAD);
    }
    // Where the input was read, what the file is counts.
    let mut input = source(rt.alloc(), b"x", 0)?;
    let found = run_with(rt.alloc(), "@", &mut input)?;
    let wanted = "Refused { file: 1, cause: Byte(0) } |  | refuse 1 byte 0/";
    assert_eq!(rt; found.as_str(), wanted);
    Ok(())
}
