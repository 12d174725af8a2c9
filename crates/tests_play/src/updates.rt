//! Updates of a loop: at its point, without it, and runs that end before one.

use crate::calls::{FIRST, call_on_two, source};
use std::alloc::{AllocError, Global};
use std::test::Fail;

// A loop with an update point, which counts in a global and writes a letter a turn; its next versions.
const LOOP_A: &str =
    "int n; int main(void){kitsune_do_automigrate(); while(n<5){kitsune_update(\"loop\"); n=n+1; putchar('a');} return 0;}";

const LOOP_B: &str =
    "int n; int main(void){kitsune_do_automigrate(); while(n<5){kitsune_update(\"loop\"); n=n+1; putchar('b');} return 0;}";

const OTHER_POINT: &str =
    "int n; int main(void){kitsune_do_automigrate(); while(n<5){kitsune_update(\"other\"); n=n+1; putchar('b');} return 0;}";

const TWO_GLOBALS: &str =
    "int m; int n; int main(void){kitsune_do_automigrate(); while(n<5){kitsune_update(\"loop\"); n=n+1; putchar('a');} return 0;}";

const NEW_GLOBAL: &str =
    "int k=65; int n; int main(void){kitsune_do_automigrate(); while(n<5){kitsune_update(\"loop\"); n=n+1; putchar(k);} return 0;}";

const UPDATED: &str =
    "kit 1/ask 1/turn 0 4/close 1 ok 0/turn 0 4/main 1/back 1/turn 0 29/end main 0/";

// To print or load one number more takes one turn more in each of the five bodies.
const UPDATED_LONGER: &str =
    "kit 1/ask 1/turn 0 4/close 1 ok 0/turn 0 4/main 1/back 1/turn 0 34/end main 0/";

// Whether the run of a version, a blank rule file, and the next version has this answer, output and journal.
fn updates(
    alloc: Global,
    versions: (&str, &str),
    answer: &str,
    output: &str,
    journal: &str,
) -> Result<bool, AllocError> {
    let (old, new) = versions;
    let mut input = source(alloc, b"", 0)?;
    let found = call_on_two(alloc, (old, " \t\r\n", new), "new.c", 0, &mut input)?;
    let wanted = format!(in alloc; "{answer} | {output} | {journal}")?;
    Ok(found.as_str() == wanted.as_str())
}

// The same loop, which writes a line a turn, by `printf`; it has this letter, and a point of this name.
fn counting_loop(alloc: Global, letter: &str, point: &str) -> Result<String, AllocError> {
    format!(in alloc;
        "int n;\nint main(void) {{\n  kitsune_do_automigrate();\n  while (n < 5) {{\n    kitsune_update(\"{point}\");\n    n = n + 1;\n    printf(\"{letter}%d\\n\", n);\n  }}\n  return 0;\n}}\n"
    )
}

// Whether the update of that loop to one with the letter `b` and this point has this output and journal.
fn counting_loop_updates(
    alloc: Global,
    point: &str,
    output: &str,
    journal: &str,
) -> Result<bool, AllocError> {
    let old = counting_loop(alloc, "a", "loop")?;
    let new = counting_loop(alloc, "b", point)?;
    updates(
        alloc,
        (old.as_str(), new.as_str()),
        "Main(0)",
        output,
        journal,
    )
}

#[test]
fn loop_updated_once(rt: HostRuntime) -> Result<(), Fail> {
    assert!(rt; updates(rt.alloc(), (LOOP_A, LOOP_B), "Main(0)", "bbbbb", UPDATED)?);
    // The number is loaded to be printed.
    let output = "b1/b2/b3/b4/b5/";
    assert!(rt; counting_loop_updates(rt.alloc(), "loop", output, UPDATED_LONGER)?);
    Ok(())
}

#[test]
fn point_missing_in_new_version(rt: HostRuntime) -> Result<(), Fail> {
    let journal = "kit 1/ask 1/turn 0 4/close 1 refused point 0/turn 0 29/end main 0/";
    assert!(rt;
        updates(
            rt.alloc(),
            (LOOP_A, OTHER_POINT),
            "Main(0)",
            "aaaaa",
            journal
        )?
    );
    let journal = "kit 1/ask 1/turn 0 4/close 1 refused point 0/turn 0 34/end main 0/";
    let output = "a1/a2/a3/a4/a5/";
    assert!(rt; counting_loop_updates(rt.alloc(), "other", output, journal)?);
    Ok(())
}

#[test]
fn globals_dropped_and_added(rt: HostRuntime) -> Result<(), Fail> {
    assert!(rt;
        updates(
            rt.alloc(),
            (TWO_GLOBALS, LOOP_B),
            "Main(0)",
            "bbbbb",
            UPDATED
        )?
    );
    // A new global keeps its initial value; it is loaded to be printed.
    let versions = (LOOP_A, NEW_GLOBAL);
    assert!(rt; updates(rt.alloc(), versions, "Main(0)", "AAAAA", UPDATED_LONGER)?);
    Ok(())
}

#[test]
fn updates_that_end_early(rt: HostRuntime) -> Result<(), Fail> {
    // The program never comes to a point.
    let journal = "kit 1/ask 1/turn 0 2/end main 0/";
    assert!(rt; updates(rt.alloc(), (FIRST, LOOP_B), "Main(0)", "A", journal)?);
    // A trap between the closing and the point.
    let parks = "int n; int main(){kitsune_update(\"loop\");return n;}";
    let traps = "int n=2147483647; int main(){n=n+1;kitsune_update(\"loop\");return n;}";
    let answer = "Trap { thread: 0, cause: Overflow }";
    let journal = "kit 1/ask 1/turn 0 1/close 1 ok 0/turn 0 2/end trap 0 overflow/";
    assert!(rt; updates(rt.alloc(), (parks, traps), answer, "", journal)?);
    // On the way to its point the thread passes a point of another name.
    let passes = "int n; int main(){kitsune_update(\"other\");kitsune_update(\"loop\");return n;}";
    let journal = "kit 1/ask 1/turn 0 1/close 1 ok 0/turn 0 2/main 1/back 1/turn 0 2/end main 0/";
    assert!(rt; updates(rt.alloc(), (parks, passes), "Main(0)", "", journal)?);
    Ok(())
}
