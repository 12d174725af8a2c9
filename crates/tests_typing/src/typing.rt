//! What `check` answers of a file. A row is the answer, and behind it the file, where a backtick, which is not of the file,
//! stands before the token at which a fault is told.

use kt_check::{CheckFault, check};
use kt_lex::lex;
use kt_syntax::{File, SyntaxFault, parse};
use std::alloc::{AllocError, Global};
use std::test::Fail;

/// Structs and their fields.
const STRUCTS: &str = "\
second declaration: struct s { int a; int `a; };
second declaration: struct s { int a; char *b, `a; };
second declaration: struct s { int a; int *E_PTRARRAY(4) `a; };
second declaration: struct s { int a; int `a[0]; };
second declaration: struct s { int a; }; struct `s { int b; };
no main function: struct s { int a; }; struct t { int a; };
no main function: struct s; struct s { struct s *next; }; struct s;
no main function: int s; struct s { int s; };
incomplete struct: struct s { struct `s a; };
incomplete struct: struct t; struct s { struct `t a; };
incomplete struct: struct s { int a; struct `t *b, c; };
no main function: struct t { int a; }; struct s { struct t a; struct t *b; };
too many cells: struct s { int `a[0]; };
no main function: struct s { int a[65536]; };
too many cells: struct s { int `a[65537]; };
too many cells: struct s { int a[65535]; int b; int `c; };
too many cells: struct s { int a[256]; }; struct t { struct s a[255]; struct s b; int `c; };
unknown name: struct s { int *E_PTRARRAY(`n) a; };
unknown name: struct s { int a; int *E_PTRARRAY(`n) a; };
unknown name: struct s { int *E_PTRARRAY(`n) a; int n[2]; };
unknown name: struct s { int *E_PTRARRAY(`n) a; char *n; };
unknown name: struct s { int *E_PTRARRAY(`n) a; }; int n[2];
unknown name: struct s { int *E_PTRARRAY(`65537) a; };
no main function: struct s { int *E_PTRARRAY(65536) a; };
no main function: struct s { int *E_PTRARRAY(n) a; int n; };
no main function: struct s { int *E_PTRARRAY(n) a; char *n; }; int n;
no main function: struct s { int *E_PTRARRAY(n) a; }; long n;
no main function: struct s { pthread_mutex_t m; pthread_mutex_t ms[2]; };
";

/// Globals and their initial values.
const GLOBALS: &str = "\
second declaration: int a; int `a;
second declaration: int a, *b, `a;
second declaration: int `puts;
second declaration: char *`malloc;
incomplete struct: struct `s a;
incomplete struct: struct `s a; struct s { int b; };
no main function: struct s *a; struct s { int b; }; struct s b;
no main function: int a = 2147483647, b = -2147483648;
type fault: int `a = 2147483648;
type fault: int `a = -2147483649;
no main function: char a = 127, b = -128, c = 'x';
type fault: char `a = 128;
no main function: long a = 9223372036854775807;
no main function: int a = EOF;
no main function: char *a = \"x\", *b = NULL; int *c = 0;
type fault: int `*a = \"x\";
type fault: int `*a = 0L;
type fault: int `*a = 1;
type fault: int `a = NULL;
type fault: char `a = \"x\";
type fault: int `a[2] = 0;
type fault: struct s { int b; }; struct s `a = 0;
no main function: pthread_mutex_t m = PTHREAD_MUTEX_INITIALIZER;
type fault: pthread_mutex_t `m = 0;
type fault: int `a = PTHREAD_MUTEX_INITIALIZER;
too many cells: int `a[0];
too many cells: int `a[65537];
no main function: int a[65536];
too many cells: struct s { int a[256]; }; struct s `b[257];
no main function: int a[65536], b[65536], c[65536], d[65536], e[65536], f[65536], g[65536], h[65536], i[65536], j[65536], k[65536], l[65536], m[65536], n[65536], o[65536], p[65536];
too many cells: int a[65536], b[65536], c[65536], d[65536], e[65536], f[65536], g[65536], h[65536], i[65536], j[65536], k[65536], l[65536], m[65536], n[65536], o[65536], p[65536], `q;
unknown name: int *E_PTRARRAY(`n) a;
unknown name: int *E_PTRARRAY(`n) a; int *n;
unknown name: int *E_PTRARRAY(`f) a; int f();
unknown name: int *E_PTRARRAY(`65537) a;
no main function: int *E_PTRARRAY(n) a; int n;
no main function: int *E_PTRARRAY(65536) a;
";

/// Functions, their parameters and locals.
const FUNCTIONS: &str = "\
right: int main() { return 0; }
right: int main(void) { }
no main function: int main();
no main function: long main() { return 0; }
no main function: int main(int a) { return 0; }
right: int f(); int f(void); int f() { return 1; } int main() { return f(); }
type fault: int f(); long `f(); int main() { }
type fault: int f(int a); int `f(long a); int main() { }
second declaration: int f() { } int `f() { } int main() { }
second declaration: int a; int `a(); int main() { }
second declaration: int a(); int `a; int main() { }
second declaration: void `free(int a); int main() { }
type fault: void `*f(); int main() { }
incomplete struct: struct `s f(); int main() { }
type fault: struct s { int a; }; struct s `f(); int main() { }
type fault: pthread_mutex_t `f(); int main() { }
second declaration: int f(int a, int `a) { } int main() { }
second declaration: int f(int a) { int `a; } int main() { }
right: int f(int a) { { int a; } return a; } int main() { return f(1); }
second declaration: int main() { for (int i = 0, `i; ; ) ; }
right: int main() { int i; for (int i = 0; i < 2; i++) ; return i; }
type fault: int f(pthread_mutex_t `m); int main() { }
type fault: int main() { pthread_mutex_t `m; }
type fault: struct s { int a; }; int main() { struct s `a; }
incomplete struct: int main() { struct `s a; }
second declaration: int main() { int `printf; }
unknown name: int main() { return `a; }
unknown name: int f(); int main() { return `f(); }
unknown name: int main() { `x = 1; int x; }
unknown name: int main() { { int x; } return `x; }
unknown name: int main() { int *E_PTRARRAY(`n) a; int n; }
type fault: int main() { `break; }
type fault: int main() { `continue; }
type fault: void f() { `return 1; } int main() { }
type fault: int main() { `return; }
right: int main() { while (1) { if (0) continue; break; } return 0; }
";

/// Operators, places and conversions.
const EXPRESSIONS: &str = "\
type fault: int main() { `1 = 2; }
type fault: int *p; int main() { return `p; }
type fault: long *p; int *q; int main() { `p = q; }
right: int *p; int main() { p = 0; p = NULL; return 0; }
type fault: int *p; int main() { return `p == 0; }
right: int *p; int main() { return p == NULL; }
type fault: int *p; int main() { return `p + p; }
right: int *p; int main() { long d = p - p; p = 1 + p - 1; return 0; }
type fault: struct s { int a; }; struct s g; int main() { `g; }
right: struct s { int a; }; struct s g; int main() { struct s *p = &g; return p->a + (g).a; }
unknown name: struct s { int a; }; struct s g; int main() { return g.`b; }
right: int a[2]; int main() { int *p = a; return p[1] + *a; }
type fault: int a[2]; int main() { `&a; }
type fault: int main() { int x; `&x; }
type fault: int f(int a) { return a; } int main() { return `f(); }
type fault: int f(int *a) { return 0; } int main() { return `f(1); }
right: int f(int *a) { return 0; } int main() { return f(0); }
type fault: int a; int main() { return `a(); }
type fault: int main() { return `sizeof(int); }
right: int main() { int x = x; return (int)1L; }
type fault: int *p; int main() { return `1 ? p : 0; }
right: int *p; int main() { p = 1 ? p : NULL; return 0; }
type fault: struct s { int a; }; struct s g; int main() { if (`g) ; return 0; }
right: int *p; int main() { if (p) ; return !p && 1; }
type fault: int *p; long *q; int main() { return `p < q; }
right: int *p; int main() { return p < p; }
type fault: int *p; int main() { return `p * 2; }
right: int a; int main() { a += 2; a++; --a; return a ? 1L : 'x'; }
type fault: int *p; int main() { p = `(int *)p; }
right: int *p; int main() { p = (int *)malloc(4 * sizeof(int)); return 0; }
incomplete struct: struct s; struct s *p; int main() { `p + 1; }
";

/// The built-in calls.
const BUILTINS: &str = "\
right: int *p; int main() { p = malloc(sizeof(int)); p = malloc(4 * sizeof(int)); p = calloc(4, sizeof(int)); free(p); return 0; }
type fault: int *p; int main() { `p = malloc(4); }
right: char *p; int main() { p = malloc(4); }
type fault: int main() { `free(1); }
type fault: int main() { return `free(NULL); }
type fault: int main() { `putchar(\"a\"); }
type fault: int main() { `puts(NULL); }
right: int main() { printf(\"%d %c %s %% %ld\", 1, 'a', \"b\", 1L); return getchar(); }
type fault: int main() { `printf(\"%d\", 1L); }
type fault: int main() { `printf(\"%x\", 1); }
type fault: int main() { `pthread_mutex_lock(NULL); }
right: pthread_mutex_t m; int main() { pthread_mutex_init(&m, NULL); pthread_mutex_lock(&m); pthread_mutex_unlock(&m); }
right: void t(int a) { } int main() { return ktthread_join(ktthread_create(t, 1)); }
no entry function: int t(int a) { return a; } int main() { return ktthread_create(`t, 1); }
type fault: int main() { return `ktthread_create(1, 0); }
type fault: int main() { `ktthread_join(\"a\"); }
right: int main() { kitsune_update(\"a-b_1\"); kitsune_do_automigrate(); return kitsune_is_updating() + kitsune_is_updating_from(\"\"); }
type fault: int main() { `kitsune_update(\"a b\"); }
type fault: int main() { return `kitsune_do_automigrate(); }
right: int f(int x) E_NOTELOCALS { return MIGRATE_LOCAL(x); } int main() { }
no noted local: int f(int x) { return `MIGRATE_LOCAL(x); } int main() { }
no noted local: int f(int x) E_NOTELOCALS { return `MIGRATE_LOCAL(1); } int main() { }
no noted local: int f(int a) E_NOTELOCALS { { int `a; } } int main() { }
";

pub(crate) fn read(alloc: Global, bytes: &[u8]) -> Result<File, SyntaxFault> {
    if bytes.len() > 100_000 {
        return Err(SyntaxFault::NoMemory);
    }
    match lex(alloc, bytes) {
        Ok(tokens) => parse(alloc, &tokens, bytes),
        Err(_) => Err(SyntaxFault::NoMemory),
    }
}

/// What is told of a file: its fault, or that it is right.
fn shown(alloc: Global, text: &str) -> Result<String, AllocError> {
    match read(alloc, text.as_bytes()) {
        Ok(file) => {
            let fault = check(alloc, &file).err();
            drop(file);
            verdict(alloc, fault)
        }
        Err(fault) => format!(in alloc; "{fault}"),
    }
}

fn verdict(alloc: Global, fault: Option<CheckFault>) -> Result<String, AllocError> {
    match fault {
        Some(fault) => format!(in alloc; "{fault}"),
        None => String::from_str(alloc, "right"),
    }
}

/// What should be told of the file of a row, and what is.
fn judged(alloc: Global, row: &str) -> Result<(String, String), AllocError> {
    let (answer, file) = row.split_once(": ").unwrap_or(("", row));
    match file.split_once('`') {
        Some((before, behind)) => {
            let at = before.len();
            let text = format!(in alloc; "{before}{behind}")?;
            let wanted = format!(in alloc; "{answer} at byte {at}")?;
            Ok((wanted, shown(alloc, text.as_str())?))
        }
        None => Ok((String::from_str(alloc, answer)?, shown(alloc, file)?)),
    }
}

/// The first row of a table of which something else is told, with that.
fn differing(alloc: Global, table: &str) -> Result<String, AllocError> {
    for row in table.lines() {
        let (wanted, found) = judged(alloc, row)?;
        if wanted.as_str() != found.as_str() {
            return format!(in alloc; "{found}, and not {row}");
        }
    }
    Ok(String::new(alloc))
}

#[test]
fn files_are_judged(rt: HostRuntime) -> Result<(), Fail> {
    for table in [STRUCTS, GLOBALS, FUNCTIONS, EXPRESSIONS, BUILTINS] {
        assert_eq!(rt; differing(rt.alloc(), table)?.as_str(), "");
    }
    Ok(())
}
