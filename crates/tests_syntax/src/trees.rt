//! Files with the trees that they have: a text in each line, and its tree behind the arrow.

use crate::verdict::shown;
use std::alloc::{AllocError, Global};
use std::test::Fail;

/// External declarations.
const FILES: &str = "\
struct s; => (struct s)
struct s { int a; }; => (struct s (int a))
struct s { const char *a, b[3]; struct t **c; long d[10L]; }; => (struct s (char *a b[3]) (struct-t **c) (long d[10L]))
struct s { int *E_PTRARRAY(n) a; char *E_PTRARRAY(4) b; }; => (struct s (int *@n a) (char *@4 b))
int a; => (globals int a)
static int a, *b, c[2]; => (globals int a *b c[2])
const static const char a; => (globals char a)
static struct s a; => (globals struct-s a)
struct s a, **b; => (globals struct-s a **b)
int *E_PTRARRAY(n) a; => (globals int *@n a)
int *E_PTRARRAY(0x10) a[2]; => (globals int *@16 a[2])
int a = 5, b = -5L; => (globals int a=5 b=-5L)
char a = 'x'; => (globals char a='120)
char a[4] = \"abc\"; => (globals char a[4]=\"abc\")
char *a = NULL; => (globals char *a=NULL)
int a = EOF; => (globals int a=EOF)
pthread_mutex_t m = PTHREAD_MUTEX_INITIALIZER; => (globals mutex m=mutex)
long f(); => (function long f)
long f(void); => (function long f)
void f(int a); => (function void f (int a))
void **f(int *a, const struct s b, char *E_PTRARRAY(n) c); => (function void **f (int *a) (struct-s b) (char *@n c))
static const void *f(); => (function void *f)
struct s *f(); => (function struct-s *f)
struct s f() {} => (function struct-s f { })
int f() {} => (function int f { })
int f() E_NOTELOCALS {} => (function int f noted { })
int f() { int a; const char *b, c; struct s *d; } => (function int f { (int a) (char *b c) (struct-s *d) })
int f() { int a = b = 1, *c = NULL; } => (function int f { (int a=(= b 1) *c=NULL) })
int f() { pthread_mutex_t *E_PTRARRAY(n) a; } => (function int f { (mutex *@n a) })
int f() { {} {{}} } => (function int f { { } { { } } })
int f() { ; ;; } => (function int f { ; ; ; })
int f() { a; return; return 1; break; continue; } => (function int f { a; (return _) (return 1) break continue })
int f() { while (a) b; do c; while (d); } => (function int f { (while a b;) (do c; d) })
int f() { for (;;) ; for (a; b; c) d; } => (function int f { (for _ _ _ ;) (for a b c d;) })
int f() { for (int i = 0, *j; i; ) {} } => (function int f { (for (int i=0 *j) i _ { }) })
int f() { for (struct s *p; ; p++) ; } => (function int f { (for (struct-s *p) _ (_++ p) ;) })
int f() { if (a) b; if (a) b; else c; } => (function int f { (if a b;) (if a b; c;) })
int f() { if (a) if (b) c; else d; } => (function int f { (if a (if b c; d;)) })
int f() { if (a) if (b) c; else d; else e; } => (function int f { (if a (if b c; d;) e;) })
int f() { if (a) while (b) if (c) d; else e; } => (function int f { (if a (while b (if c d; e;))) })
int a; void f(); struct s; => (globals int a) (function void f) (struct s)
";

/// Expressions, each as the only statement of a function: each case of the grammar.
const CASES: &str = "\
1 => 1
0x1FL => 31L
2147483648 => 2147483648L
'a' => '97
\"ab\" => \"ab\"
NULL => NULL
EOF => EOF
a => a
f() => (call f)
f(a) => (call f a)
f(a, b = c, (d)) => (call f a (= b c) (paren d))
(a) => (paren a)
((a)) => (paren (paren a))
sizeof(int) => (sizeof int)
sizeof(const struct s**) => (sizeof struct-s**)
sizeof(int) * a => (* (sizeof int) a)
a[b] => (index a b)
a[b][c] => (index (index a b) c)
a[b = c] => (index a (= b c))
a.b => (. a b)
a->b => (-> a b)
a->b.c[d] => (index (. (-> a b) c) d)
a++ => (_++ a)
a-- => (_-- a)
a++-- => (_-- (_++ a))
f(a)[b].c => (. (index (call f a) b) c)
(a)[b] => (index (paren a) b)
1[a] => (index 1 a)
\"ab\"[1] => (index \"ab\" 1)
-a => (neg a)
!a => (! a)
*a => (deref a)
&a => (& a)
++a => (++_ a)
--a => (--_ a)
-!*&a => (neg (! (deref (& a))))
- -a => (neg (neg a))
-a[b] => (neg (index a b))
*a++ => (deref (_++ a))
++a++ => (++_ (_++ a))
&a->b => (& (-> a b))
-a.b => (neg (. a b))
(int)a => (cast int a)
(const char*)a => (cast char* a)
(struct s**)a => (cast struct-s** a)
(int)(a) => (cast int (paren a))
(int)-a => (cast int (neg a))
-(int)a => (neg (cast int a))
(int)(long)a => (cast int (cast long a))
(int)a[b] => (cast int (index a b))
(int)a * b => (* (cast int a) b)
(a)-b => (- (paren a) b)
(int)a++ => (cast int (_++ a))
";

/// How operators group.
const OPERATORS: &str = "\
a * b / c % d => (% (/ (* a b) c) d)
a + b - c => (- (+ a b) c)
a - b - c => (- (- a b) c)
a < b > c => (> (< a b) c)
a <= b >= c => (>= (<= a b) c)
a == b != c => (!= (== a b) c)
a && b && c => (&& (&& a b) c)
a || b || c => (|| (|| a b) c)
a - (b - c) => (- a (paren (- b c)))
-a * b => (* (neg a) b)
a * -b => (* a (neg b))
a + b * c => (+ a (* b c))
a * b + c => (+ (* a b) c)
a < b + c => (< a (+ b c))
a + b < c => (< (+ a b) c)
a == b < c => (== a (< b c))
a < b == c => (== (< a b) c)
a && b == c => (&& a (== b c))
a == b && c => (&& (== a b) c)
a || b && c => (|| a (&& b c))
a && b || c => (|| (&& a b) c)
a || b ? c : d => (? (|| a b) c d)
a ? b : c || d => (? a b (|| c d))
a = b ? c : d => (= a (? b c d))
a ? b : c = d => (= (? a b c) d)
a * b < c => (< (* a b) c)
a < b * c => (< a (* b c))
a * b == c + d => (== (* a b) (+ c d))
a + b && c < d => (&& (+ a b) (< c d))
a || b == c => (|| a (== b c))
a == b || c => (|| (== a b) c)
a * b || c => (|| (* a b) c)
a + b * c + d => (+ (+ a (* b c)) d)
a * b + c * d => (+ (* a b) (* c d))
a ? b : c ? d : e => (? a b (? c d e))
a ? b ? c : d : e => (? a (? b c d) e)
a ? b = c : d => (? a (= b c) d)
a = b = c => (= a (= b c))
a || b < c => (|| a (< b c))
a < b || c => (|| (< a b) c)
a || b + c => (|| a (+ b c))
a + b || c => (|| (+ a b) c)
a || b * c => (|| a (* b c))
a && b < c => (&& a (< b c))
a < b && c => (&& (< a b) c)
a && b + c => (&& a (+ b c))
a + b && c => (&& (+ a b) c)
a && b * c => (&& a (* b c))
a * b && c => (&& (* a b) c)
a == b + c => (== a (+ b c))
";

/// More pairs of operators.
const PAIRS: &str = "\
a + b == c => (== (+ a b) c)
a == b * c => (== a (* b c))
a * b == c => (== (* a b) c)
a = b || c => (= a (|| b c))
a || b = c => (= (|| a b) c)
-a || b => (|| (neg a) b)
a || -b => (|| a (neg b))
a || b++ => (|| a (_++ b))
a++ || b => (|| (_++ a) b)
a && b ? c : d => (? (&& a b) c d)
a ? b : c && d => (? a b (&& c d))
a = b && c => (= a (&& b c))
a && b = c => (= (&& a b) c)
-a && b => (&& (neg a) b)
a && -b => (&& a (neg b))
a && b++ => (&& a (_++ b))
a++ && b => (&& (_++ a) b)
a == b ? c : d => (? (== a b) c d)
a ? b : c == d => (? a b (== c d))
a = b == c => (= a (== b c))
a == b = c => (= (== a b) c)
-a == b => (== (neg a) b)
a == -b => (== a (neg b))
a == b++ => (== a (_++ b))
a++ == b => (== (_++ a) b)
a < b ? c : d => (? (< a b) c d)
a ? b : c < d => (? a b (< c d))
a = b < c => (= a (< b c))
a < b = c => (= (< a b) c)
-a < b => (< (neg a) b)
a < -b => (< a (neg b))
a < b++ => (< a (_++ b))
a++ < b => (< (_++ a) b)
a + b ? c : d => (? (+ a b) c d)
a ? b : c + d => (? a b (+ c d))
-a + b => (+ (neg a) b)
a + -b => (+ a (neg b))
a + b++ => (+ a (_++ b))
a++ + b => (+ (_++ a) b)
a * b ? c : d => (? (* a b) c d)
a ? b : c * d => (? a b (* c d))
a = b * c => (= a (* b c))
a * b = c => (= (* a b) c)
a * b++ => (* a (_++ b))
a++ * b => (* (_++ a) b)
a += b -= c => (+= a (-= b c))
a *= b => (*= a b)
a /= b %= c => (/= a (%= b c))
a = b + c => (= a (+ b c))
a + b = c => (= (+ a b) c)
";

/// The frame with the part in the place of its `$`.
fn framed(alloc: Global, frame: &str, part: &str) -> Result<String, AllocError> {
    let (before, behind) = frame.split_once('$').unwrap_or((frame, ""));
    format!(in alloc; "{before}{part}{behind}")
}

/// What else than the tree is told of the text, or nothing where it is the tree. Both stand in a frame.
fn difference(
    alloc: Global,
    text: &str,
    tree: &str,
    frames: (&str, &str),
) -> Result<String, AllocError> {
    let file = framed(alloc, frames.0, text)?;
    let wanted = framed(alloc, frames.1, tree)?;
    let found = shown(alloc, file.as_str())?;
    if found.as_str() == wanted.as_str() {
        return Ok(String::new(alloc));
    }
    format!(in alloc; "{found}, and not {wanted}")
}

/// The first difference of a table.
fn first_difference(
    alloc: Global,
    table: &str,
    frames: (&str, &str),
) -> Result<String, AllocError> {
    for row in table.lines() {
        let (text, tree) = row.split_once(" => ").unwrap_or((row, ""));
        let found = difference(alloc, text, tree, frames)?;
        if !found.is_empty() {
            return Ok(found);
        }
    }
    Ok(String::new(alloc))
}

#[test]
fn files_have_their_trees(rt: HostRuntime) -> Result<(), Fail> {
    assert_eq!(rt; shown(rt.alloc(), "")?.as_str(), "");
    assert_eq!(rt;
        first_difference(rt.alloc(), FILES, ("$", "$"))?.as_str(),
        ""
    );
    Ok(())
}

/// A function with one expression, and its tree.
const FUNCTION: (&str, &str) = ("int f() { $; }", "(function int f { $; })");

#[test]
fn expressions_have_their_trees(rt: HostRuntime) -> Result<(), Fail> {
    for table in [CASES, OPERATORS, PAIRS] {
        assert_eq!(rt; first_difference(rt.alloc(), table, FUNCTION)?.as_str(), "");
    }
    Ok(())
}

/// The operators of two operands, each behind how close it binds (ISO/IEC 9899:2011, 6.5.5 to 6.5.14).
const BINARY: &str = "\
1 ||
2 &&
3 ==
3 !=
4 <
4 >
4 <=
4 >=
5 +
5 -
6 *
6 /
6 %
";

/// A row of that table: how close the operator binds, and the operator.
fn operator_of(row: &str) -> (u32, &str) {
    match row.split_once(' ') {
        Some((closeness, operator)) => (closeness.parse::<u32>().unwrap_or(0), operator),
        None => (0, row),
    }
}

/// Two operators between three names: the one that binds closer is inside the other, and the left one where they bind alike.
fn paired(alloc: Global, left: &str, right: &str) -> Result<String, AllocError> {
    let (close, one) = operator_of(left);
    let (closer, two) = operator_of(right);
    let tree = if close < closer {
        format!(in alloc; "({one} a ({two} b c))")?
    } else {
        format!(in alloc; "({two} ({one} a b) c)")?
    };
    let text = format!(in alloc; "a {one} b {two} c")?;
    difference(alloc, text.as_str(), tree.as_str(), FUNCTION)
}

#[test]
fn operators_group_by_how_close_they_bind(rt: HostRuntime) -> Result<(), Fail> {
    for left in BINARY.lines() {
        for right in BINARY.lines() {
            assert_eq!(rt; paired(rt.alloc(), left, right)?.as_str(), "");
        }
    }
    Ok(())
}
