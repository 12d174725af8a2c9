//! Words, files and versions that are refused, and the line that tells why.

use crate::calls::{FIRST, LONG, STEADY, blanks, call, call_on_two, one, run, source};
use std::alloc::{AllocError, Global};
use std::test::Fail;

/// The cause, as the answer and the log write it, and the version; the last five don't run so far.
const VERSIONS: &str = r#"
NoMain(0) | no_main 0 | 
NoMain(6) | no_main 6 | int a;
Byte(0) | byte 0 | @
Unclosed(7) | unclosed 7 | int a; /* b
Literal(0) | literal 0 | "\q"
Directive(0) | directive 0 | #define A 1
Syntax(26) | syntax 26 | int main(void) { return 0 }
Unknown(24) | unknown 24 | int main(void) { return x; }
Twice(11) | twice 11 | int a; int a;
BadType(24) | bad_type 24 | int main(void) { return NULL; }
Incomplete(7) | incomplete 7 | struct s a;
TooBig(4) | too_big 4 | int a[0];
Entry(63) | entry 63 | int t(int a) { return a; } int main() { return ktthread_create(t, 1); }
Note(22) | note 22 | int f(int x) { return MIGRATE_LOCAL(x); } int main() { }
Later(0) | later 0 | void t(int a){} int main(void){return ktthread_create(t,1);}
Later(0) | later 0 | int main(void){return 0?ktthread_join(0):0;}
Later(0) | later 0 | pthread_mutex_t m; int main(void){while(0)pthread_mutex_lock(&m); return 0;}
Later(0) | later 0 | pthread_mutex_t m; int main(void){return pthread_mutex_unlock(&m);}
Later(0) | later 0 | pthread_mutex_t m; int main(void){pthread_mutex_init(&m,NULL); return 0;}
"#;

/// The first row whose version is answered otherwise, with that.
fn differing_cause(alloc: Global, table: &str) -> Result<String, AllocError> {
    for row in table.lines().skip(1) {
        let (cause, rest) = row.split_once(" | ").unwrap_or((row, ""));
        let (line, text) = rest.split_once(" | ").unwrap_or((rest, ""));
        let wanted = format!(in alloc;
            "Refused {{ file: 1, cause: {cause} }} |  | refuse 1 {line}/"
        )?;
        let found = run(alloc, text)?;
        if found.as_str() != wanted.as_str() {
            return format!(in alloc; "{found}, and not {row}");
        }
    }
    Ok(String::new(alloc))
}

#[test]
fn first_fault_of_a_file(rt: HostRuntime) -> Result<(), Fail> {
    assert_eq!(rt; differing_cause(rt.alloc(), VERSIONS)?.as_str(), "");
    Ok(())
}

// The block of `main` begins at byte 15; of those in it, the 201st is inside 201 constructs.
fn too_deep(alloc: Global) -> Result<String, AllocError> {
    let mut text = String::from_str(alloc, "int main(void) {")?;
    for _ in 0..201 {
        text.push('{')?;
    }
    for _ in 0..202 {
        text.push('}')?;
    }
    run(alloc, text.as_str())
}

#[test]
fn file_that_is_too_deep(rt: HostRuntime) -> Result<(), Fail> {
    let wanted = "Refused { file: 1, cause: TooDeep(216) } |  | refuse 1 too_deep 216/";
    assert_eq!(rt; too_deep(rt.alloc())?.as_str(), wanted);
    Ok(())
}

// The answer to files of blanks, of so many bytes each.
fn of_blanks(
    alloc: Global,
    words: &[&str],
    counts: &[(&str, usize)],
) -> Result<String, AllocError> {
    let mut files = blanks(alloc, counts)?;
    call(alloc, words, &mut files, STEADY, STEADY)
}

#[test]
fn files_that_are_too_long(rt: HostRuntime) -> Result<(), Fail> {
    let long = 262_145;
    let three = ["a", "b", "c"];
    let found = of_blanks(rt.alloc(), &["a"], &[("a", long)])?;
    assert_eq!(rt; found.as_str(), "TooLong(File(1)) |  | refuse long 1/");
    let found = of_blanks(rt.alloc(), &three, &[("a", 1), ("b", long), ("c", long)])?;
    assert_eq!(rt; found.as_str(), "TooLong(File(2)) |  | refuse long 2/");
    let found = of_blanks(rt.alloc(), &three, &[("a", long)])?;
    assert_eq!(rt; found.as_str(), "TooLong(File(1)) |  | refuse long 1/");
    // One byte less is within the limit.
    let found = of_blanks(rt.alloc(), &["a"], &[("a", 262_144)])?;
    let wanted = "Refused { file: 1, cause: NoMain(262144) } |  | refuse 1 no_main 262144/";
    assert_eq!(rt; found.as_str(), wanted);
    Ok(())
}

fn of_words(alloc: Global, words: &[&str]) -> Result<String, AllocError> {
    let mut files = one(alloc, FIRST, 0)?;
    call(alloc, words, &mut files, STEADY, STEADY)
}

#[test]
fn words_that_are_no_order(rt: HostRuntime) -> Result<(), Fail> {
    for words in [
        [].as_slice(),
        &["one.c", "one.c"],
        &["a", "b", "c", "d"],
        &["a", "b", "-c"],
        &["-"],
        &["--x"],
        &[""],
    ] {
        let found = of_words(rt.alloc(), words)?;
        assert_eq!(rt; found.as_str(), "Words |  | refuse words/");
    }
    Ok(())
}

// The answer where the given read of a file fails (0: none), and behind it the count of faults.
fn of_name(alloc: Global, name: &str, fail_on: u64) -> Result<String, AllocError> {
    let mut files = one(alloc, FIRST, fail_on)?;
    let answer = call(alloc, &[name], &mut files, STEADY, STEADY)?;
    let faults = files.faults;
    format!(in alloc; "{answer} {faults}")
}

#[test]
fn file_that_cannot_be_read(rt: HostRuntime) -> Result<(), Fail> {
    let found = of_name(rt.alloc(), "two.c", 0)?;
    assert_eq!(rt; found.as_str(), "ReadFault(File(1)) |  | refuse read 1/ 0");
    let found = of_name(rt.alloc(), "one.c", 1)?;
    assert_eq!(rt; found.as_str(), "ReadFault(File(1)) |  | refuse read 1/ 1");
    Ok(())
}

/// Versions are judged before what doesn't run so far is looked for. A row has what is refused, and the first version, the
/// rules and the second version, where `F` is one that runs and `L` one that doesn't so far.
const ORDERS: &str = "\
1 Byte(0) byte 0:@:y:@
3 Byte(0) byte 0:F:y:@
3 Byte(0) byte 0:F::@
2 Later(0) later 0:F:y:F
2 Later(0) later 0:F:// :F
1 Later(0) later 0:L:y:L
2 Later(0) later 0:F:y:L
3 Later(0) later 0:F: :L
";

// The text that stands for a version in a row.
fn version(mark: &str) -> &str {
    match mark {
        "F" => FIRST,
        "L" => LONG,
        _ => mark,
    }
}

/// The first row whose files are answered otherwise, with that.
fn differing_order(alloc: Global, table: &str) -> Result<String, AllocError> {
    for row in table.lines() {
        let (refused, rest) = row.split_once(':').unwrap_or((row, ""));
        let (old, rest) = rest.split_once(':').unwrap_or((rest, ""));
        let (rules, new) = rest.split_once(':').unwrap_or((rest, ""));
        let (file, rest) = refused.split_once(' ').unwrap_or((refused, ""));
        let (cause, line) = rest.split_once(' ').unwrap_or((rest, ""));
        let wanted = format!(in alloc;
            "Refused {{ file: {file}, cause: {cause} }} |  | refuse {file} {line}/"
        )?;
        let texts = (version(old), rules, version(new));
        let mut input = source(alloc, b"", 0)?;
        let found = call_on_two(alloc, texts, "new.c", 0, &mut input)?;
        if found.as_str() != wanted.as_str() {
            return format!(in alloc; "{found}, and not {row}");
        }
    }
    Ok(String::new(alloc))
}

#[test]
fn the_first_file_outside_is_refused(rt: HostRuntime) -> Result<(), Fail> {
    assert_eq!(rt; differing_order(rt.alloc(), ORDERS)?.as_str(), "");
    Ok(())
}

#[test]
fn files_are_read_before_any_is_judged(rt: HostRuntime) -> Result<(), Fail> {
    // The third of them is missing, or its read fails.
    for (third, fail_on) in [("none.c", 0), ("new.c", 3)] {
        let mut input = source(rt.alloc(), b"", 0)?;
        let found = call_on_two(rt.alloc(), ("@", "", FIRST), third, fail_on, &mut input)?;
        assert_eq!(rt; found.as_str(), "ReadFault(File(3)) |  | refuse read 3/");
    }
    Ok(())
}
