//! The limits of the heap and of the output, each met exactly and then passed.

use crate::calls::{STEADY, differing, one, sink, source, told};
use kt_edge::MemSink;
use kt_play::play::play;
use std::alloc::{AllocError, Global};
use std::test::Fail;

// The loop writes 256 bytes in a turn of its own, beside a tick, and then there is one byte too much.
const OUTPUT: &str = "int main(void) { int i = 0; while (i < 65536) { printf(\"\
0123456789abcdef0123456789abcdef0123456789abcdef0123456789abcdef\
0123456789abcdef0123456789abcdef0123456789abcdef0123456789abcdef\
0123456789abcdef0123456789abcdef0123456789abcdef0123456789abcdef\
0123456789abcdef0123456789abcdef0123456789abcdef0123456789abcdef\
\"); i = i + 1; } putchar('x'); return 0; }";

/// Each turn of the loop ticks and allocates; 64 of these objects fill the heap.
const HEAPS: &str = "\
Trap { thread: 0, cause: Heap } |  | kit 1/turn 0 130/end trap 0 heap/ <- int main(void) { while (1) malloc(65536); }
Trap { thread: 0, cause: Heap } |  | kit 1/turn 0 129/end trap 0 heap/ <- int main(void) { int i = 0; while (i < 64) { malloc(65536); i = i + 1; } malloc(1); return 0; }
Main(0) |  | kit 1/turn 0 131/end main 0/ <- int main(void) { int i = 0; char *p; while (i < 64) { p = malloc(65536); i = i + 1; } free(p); malloc(65536); return 0; }
";

#[test]
fn heap_of_4194304_cells(rt: HostRuntime) -> Result<(), Fail> {
    assert_eq!(rt; differing(rt.alloc(), HEAPS)?.as_str(), "");
    Ok(())
}

// What is told of the run, but for its output: whether that has the bytes of 65,536 texts of 256 bytes.
fn long_output(alloc: Global) -> Result<String, AllocError> {
    let mut words = Vec::new(alloc);
    words.push(String::from_str(alloc, "one.c")?)?;
    let mut files = one(alloc, OUTPUT, 0)?;
    let mut input = source(alloc, b"", 0)?;
    let mut out = MemSink::new(alloc, 16_777_216, 16_777_216, Vec::new(alloc))?;
    let mut log = sink(alloc, STEADY)?;
    let status = play(
        alloc,
        words.as_slice(),
        &mut files,
        &mut input,
        &mut out,
        &mut log,
    );
    let taken = out.taken.as_slice();
    let whole = taken.len() == 16_777_216 && taken.ends_with(b"0123456789abcdef");
    let seen: &[u8] = if whole { b"whole" } else { b"cut" };
    told(alloc, status, seen, log.taken.as_slice())
}

#[test]
fn output_of_16777216_bytes(rt: HostRuntime) -> Result<(), Fail> {
    let wanted =
        "Trap { thread: 0, cause: Output } | whole | kit 1/turn 0 131073/end trap 0 output/";
    assert_eq!(rt; long_output(rt.alloc())?.as_str(), wanted);
    Ok(())
}
