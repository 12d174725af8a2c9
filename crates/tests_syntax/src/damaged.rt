//! Files that are none. A backtick, which is not of the file, stands before the token where that is told.

use crate::verdict::verdict;
use std::alloc::{AllocError, Global};
use std::test::Fail;

/// Declarations.
const DECLARATIONS: &str = "\
`x
`else
`INIT
int`
int a`
int a,`
int a `b;
int `;
int `INIT;
int a;`;
int a, `int b;
int `const a;
long `int a;
struct`
struct s`
struct s {`
struct s {`};
struct s { int a `}
struct s { int a; }`
struct s { int a; } `b;
struct s { `void a; };
struct s { int a `= 1; };
struct `{int a;};
static struct s`;
static struct s `{
void a`;
void`;
";

/// Functions.
const FUNCTIONS: &str = "\
int f(`
int f()`
int f(int`)
int f(void `a);
int f(int a,`);
int f(int a`[3]);
int f(`static int a);
int f() `int g();
int f() E_NOTELOCALS`;
int f() { } `;
";

/// Declarators.
const DECLARATORS: &str = "\
int *E_PTRARRAY(n) f`();
int `E_PTRARRAY(n) a;
int *E_PTRARRAY(`) a;
int *E_PTRARRAY(n `a;
int a[`];
int a[`n];
int a[1`;
int a[1]`[2];
";

/// Initial values.
const VALUES: &str = "\
int a = `;
int a = - `-1;
int a = 1 `+ 2;
int a = `b;
int a = -`'x';
";

/// Statements.
const STATEMENTS: &str = "\
int f() {`
int f() {}`}
int f() { a `}
int f() { int`; }
int f() { `static int a; }
int f() { int a`[3]; }
int f() { int a = `; }
int f() { `else; }
int f() { if `a; }
int f() { if (`); }
int f() { if (a) `int b; }
int f() { if (a) `}
int f() { if (a) ; else ; `else ; }
int f() { while (a) do ; while (b) `}
int f() { do ; `}
int f() { for (;`) ; }
int f() { for (;;`;) ; }
int f() { for (int a = 1, b`) ; }
int f() { return `int; }
int f() { break `1; }
int f() { `void; }
";

/// Expressions.
const EXPRESSIONS: &str = "\
int f() { a +`; }
int f() { a `b; }
int f() { (a`; }
int f() { a`); }
int f() { (int)`; }
int f() { (int `a); }
int f() { sizeof `a; }
int f() { sizeof(`a); }
int f() { a. `1; }
int f() { f(a,`); }
int f() { f(`int); }
int f() { a ? b`; }
int f() { a ? b : `; }
int f() { a[`]; }
int f() { (a)`(b); }
int f() { f()`(); }
int f() { a = `int; }
int f() { \"a\" `\"b\"; }
int f() { `$in; }
int f() { a `: b; }
int f() { *`; }
int f() { a ++ `b; }
";

/// The first row of a table of which something else is told, with that.
fn differing(alloc: Global, table: &str) -> Result<String, AllocError> {
    for row in table.lines() {
        let (before, behind) = row.split_once('`').unwrap_or((row, ""));
        let at = before.len();
        let wanted = format!(in alloc; "unexpected token at byte {at}")?;
        let text = format!(in alloc; "{before}{behind}")?;
        let found = verdict(alloc, text.as_str())?;
        if found.as_str() != wanted.as_str() {
            return format!(in alloc; "{found}, and not {row}");
        }
    }
    Ok(String::new(alloc))
}

#[test]
fn faults_are_told_at_their_place(rt: HostRuntime) -> Result<(), Fail> {
    for table in [
        DECLARATIONS,
        FUNCTIONS,
        DECLARATORS,
        VALUES,
        STATEMENTS,
        EXPRESSIONS,
    ] {
        assert_eq!(rt; differing(rt.alloc(), table)?.as_str(), "");
    }
    Ok(())
}
