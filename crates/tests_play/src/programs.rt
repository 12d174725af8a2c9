//! Small programs of the whole profile but other threads: each form of expression and statement, each built-in call of one
//! thread, and each trap that such a thread meets. What they write, how they end and how many turns they take was counted by
//! hand: each act is a turn, and so is the end (`docs/language.md`).
//!
//! A row has the turns, the end, the input, the output and the program, with ` | ` between them. A newline of the output is
//! written `/`.

use crate::calls::{run_with, source};
use std::alloc::{AllocError, Global};
use std::test::Fail;

/// Operators on values of each integer type, and constants.
const VALUES: &str = r#"
2 | main 0 |  | 7 3 10 2 1 | int main(){printf("%d %d %d %d %d", 5 + 2, 5 - 2, 5 * 2, 5 / 2, 5 % 2); return 0;}
2 | main 0 |  | -3 -1 -3 1 3 -1 | int main(){printf("%d %d %d %d %d %d", -7 / 2, -7 % 2, 7 / -2, 7 % -2, -7 / -2, -7 % -2); return 0;}
2 | main 0 |  | -4 2 7 9 12 5 | int main(){printf("%d %d %d %d %d %d", 1 - 2 - 3, 100 / 10 / 5, 1 + 2 * 3, (1 + 2) * 3, 20 % 7 * 2, - -5); return 0;}
2 | main 0 |  | 2147483648 2147483648 -9223372036854775808 | int main(){long a = 2147483647; printf("%ld %ld %ld", a + 1, 2147483647 + 1L, -9223372036854775807 - 1); return 0;}
2 | main 0 |  | 2147483648 9000000000 -1 | int main(){printf("%ld %ld %ld", -2147483648 / -1, 3000000000 * 3, -7L % 3); return 0;}
2 | main 0 |  | 101010 | int main(){printf("%d%d%d%d%d%d", 1 < 2, 2 < 2, 3 > 2, 2 > 2, 2 <= 2, 3 <= 2); return 0;}
2 | main 0 |  | 101010 | int main(){printf("%d%d%d%d%d%d", 2 >= 2, 1 >= 2, 2 == 2, 1 == 2, 1 != 2, 2 != 2); return 0;}
2 | main 0 |  | 1101 | int main(){char c = -1; long l = 0; printf("%d%d%d%d", c < l, 'a' < 98L, 2147483648 < 5, -1 == -1L); return 0;}
2 | main 0 |  | 1010 | int main(){printf("%d%d%d%d", !0, !5, !!5, !-1L); return 0;}
2 | main 0 |  | 1111 | int main(){printf("%d%d%d%d", 1 || 0 && 0, !0 == 1, 3 > 2 == 1, 2 + 3 < 6); return 0;}
2 | main 0 |  | 98 b -97 200 | int main(){char c = 'a'; char d = 100; printf("%d %c %d %d", c + 1, c + 1, -c, d + d); return 0;}
1 | main 63 |  |  | int main(){return 0x1F + 0X10L + 0x0f + 1 + 0;}
1 | main -1 |  |  | int main(){return EOF;}
1 | main -2147483648 |  |  | int main(){return -2147483648;}
2 | main 0 |  | 10 9 13 0 92 39 34 34 | int main(){printf("%d %d %d %d %d %d %d %d", '\n', '\t', '\r', '\0', '\\', '\'', '\"', '"'); return 0;}
2 | main 0 |  | 65 5 70 | int main(){printf("%d %ld %d", (char)65, (long)5, (int)70L); return 0;}
2 | main 0 |  | 2 3 3 5 65 | int main(){printf("%d %d %d %d %ld", 1 ? 2 : 3, 0 ? 2 : 3, 0 ? 1 : 0 ? 2 : 3, 1 ? 0 ? 4 : 5 : 6, 1 ? 65 : 2L); return 0;}
1 | main 12 |  |  | int main(){return (0 ? 1 / 0 : 6) + (1 ? 5 : 1 / 0) + (NULL == NULL);}
1 | main 1 |  |  | int main(){return (0 && 1 / 0) + (1 || 1 / 0);}
1 | main 2 |  |  | int main(){return (5 && 7) + (0 || 9) + (0 || 0) + (5 && 0);}
6 | main 2 |  |  | int n; int main(){0 && n++; 1 && n++; 1 || n++; 0 || n++; return n;}
6 | main 21 |  |  | int *p; int n; int main(){return (p && n) + (p == NULL) + (NULL != &n) * 20 + (p != NULL) + (p || n);}
"#;

/// Assignments to each kind of place: a store is a turn, and `op=`, `++` and `--` load first.
const ASSIGNMENTS: &str = r#"
1 | main 3 |  |  | int main(){int x = 7; x += 3; x -= 2; x *= 5; x /= 4; x %= 7; return x;}
12 | main 3 |  |  | int x = 7; int main(){x += 3; x -= 2; x *= 5; x /= 4; x %= 7; return x;}
5 | main 8 |  |  | int a; int b; int main(){a = b = 4; return a + b;}
1 | main 10 |  |  | int main(){int x; return (x = 5) + x;}
3 | main 5 |  |  | int n = 3; int main(){return n += 2;}
2 | main 5 |  | 5 7 7 5 | int main(){int i = 5; printf("%d %d %d %d", i++, ++i, i--, --i); return i;}
11 | main 5 |  | 5 7 7 5 | int i = 5; int main(){printf("%d %d %d %d", i++, ++i, i--, --i); return i;}
9 | main 7 |  |  | int a[3]; int main(){a[1] = 4; a[1] += 3; a[1]++; --a[1]; return a[1];}
4 | main 51 |  |  | int a[3]; int main(){int i = 0; a[i++] += 5; return a[0] * 10 + i;}
9 | main 119 |  |  | struct s {int n; char c;}; struct s g; int main(){g.n = 1; g.n -= 3; g.c = 'x'; g.c++; return g.c + g.n;}
7 | main 41 |  |  | int n; int main(){int *p = &n; *p = 6; *p *= 7; (*p)--; return n;}
6 | main 8 |  |  | int n; int *p; int main(){int **q = &p; *q = &n; **q = 8; return *p;}
3 | main 9 |  |  | int a[4]; int main(){int *p = a; p += 3; p -= 1; p++; --p; *p = 9; return a[2];}
9 | main 34 |  |  | int a[2]; int *p; int main(){p = a; *p++ = 3; *p = 4; return a[0] * 10 + a[1];}
5 | main 7 |  |  | int n = 2; int main(){n += (n = 5); return n;}
1 | main 7 |  |  | int main(){int x = 2; x += (x = 5); return x;}
3 | main 65 |  |  | char c; int main(){int x = 65; c = x; return c;}
2 | main 5 |  |  | long l = 5; int main(){int x = l; return x;}
2 | main 0 |  | 15 2147483648 | int main(){int x = 5; long l = 2147483647; x += 10L; l++; printf("%d %ld", x, l); return 0;}
3 | main 131 |  |  | char c; int main(){int x; x = c = 65; return x + (c = 66);}
"#;

/// Statements: each test of a loop that isn't zero is a turn, and each body of a `do`.
const STATEMENTS: &str = r#"
1 | main 0 |  |  | int main(){}
1 | main 4 |  |  | int main(void){;{}{;} 1 + 1; return 4; return 5;}
2 | main 0 |  |  | int n; int main(){n; return 0;}
1 | main 3 |  |  | int main(){int a = 1, b = a + 1, c; c = a + b; return c;}
1 | main 2 |  |  | int main(){if (1) if (0) return 1; else return 2; return 3;}
1 | main 30 |  |  | int main(){int x = 3; if (x == 1) x = 10; else if (x == 2) x = 20; else if (x == 3) x = 30; else x = 40; return x;}
3 | main 2 |  |  | int *p; int main(){if (p) return 1; if (!p) return 2; return 3;}
4 | main 3 |  |  | int main(){int i = 0; while (i < 3) i++; return i;}
11 | main 2 |  |  | int n; int main(){while (n < 2) n = n + 1; return n;}
4 | main 3 |  |  | int main(){int i = 0; do i++; while (i < 3); return i;}
3 | main 1 |  |  | int main(){int i = 0; do {i++; continue;} while (0); do break; while (1); return i;}
5 | main 6 |  |  | int main(){int s = 0; for (int i = 0; i < 4; i++) s += i; return s;}
5 | main 3 |  |  | int main(){int i; i = 0; for (;;) {if (i == 3) break; i++;} return i;}
3 | main 2 |  |  | int main(){int i; for (i = 0; i < 2;) i++; return i;}
6 | main 6 |  |  | int main(){int s = 0; for (int i = 0; i < 5; i++) {if (i % 2) continue; s += i;} return s;}
6 | main 12 |  |  | int main(){int i = 0; int s = 0; while (i < 5) {i++; if (i == 3) continue; s += i;} return s;}
4 | main 3 |  |  | int main(){int i = 0; do {i++; if (i < 3) continue; break;} while (1); return i;}
12 | main 6 |  |  | int main(){int n = 0; for (int i = 0; i < 3; i++) for (int j = 0; j < 3; j++) {if (j > i) break; n++;} return n;}
5 | main 1 |  |  | int main(){for (int i = 0; ; i++) while (1) if (i == 0) break; else return i; return 9;}
2 | main 42 |  |  | int x = 1; int main(){int y = x; int x = 2; {int x = 3; y += x;} return y * 10 + x;}
3 | main 7 |  |  | int main(){int i = 7; for (int i = 0; i < 2; i++) ; return i;}
4 | main 3 |  |  | int main(){int s = 0; for (int i = 0; i < 3; i++) {int x = 0; x++; s += x;} return s;}
3 | trap 0 uninit |  |  | int main(){for (int i = 0; i < 2; i++) {int x; if (i == 1) return x; x = 5;} return 9;}
90 | main 0 |  | 2 3 5 7 11 13 17 19  | int main(){for (int n = 2; n < 20; n++) {int d = 2; while (n % d) d++; if (d == n) printf("%d ", n);} }
"#;

/// Functions: a call is a turn, behind its arguments.
const FUNCTIONS: &str = r#"
3 | main 5 |  |  | static const int k = 5; static int f(void); static int f(void) {return k;} int main(void) {return f();}
14 | main 123 |  |  | int n; int next(){n = n + 1; return n;} int f(int a, int b, int c){return a * 100 + b * 10 + c;} int main(){return f(next(), next(), next());}
6 | main 120 |  |  | int f(int n){return n < 2 ? 1 : n * f(n - 1);} int main(){return f(5);}
26 | main 8 |  |  | int f(int n){if (n < 2) return n; return f(n - 1) + f(n - 2);} int main(){return f(6);}
12 | main 1 |  |  | int odd(int n); int even(int n){return n == 0 || odd(n - 1);} int odd(int n){return n != 0 && even(n - 1);} int main(){return even(10);}
2 | main 1 |  |  | void f(int x){x = 9;} int main(){int x = 1; f(x); return x;}
5 | main 1 |  |  | int n; void f(int k){if (k) return; n = 1;} int main(){f(1); f(0); return n;}
2 | main 65 |  |  | int f(char c){return c;} int main(){return f(65L);}
2 | main 5 |  |  | long f(){return 5;} int main(){return f();}
2 | main 0 |  |  | int f(){return 1;} int main(){f(); return 0;}
4 | main 5 |  |  | void set(int *p, int v){*p = v;} int n; int main(){set(&n, 5); return n;}
4 | main 7 |  |  | int a[3]; int *at(int i){return &a[i];} int main(){*at(2) = 7; return a[2];}
3 | main 1 |  |  | int *none(){return 0;} int zero(int *p){return p == NULL;} int main(){return zero(none());}
8 | main 7 |  |  | int a[2]; int sum(int *p, int n){int s = 0; while (n > 0) {n = n - 1; s += p[n];} return s;} int main(){a[0] = 3; a[1] = 4; return sum(a, 2);}
5 | main 3 |  |  | int f(int n){int k = n; if (n) f(n - 1); return k;} int main(){return f(3);}
5 | main 6 |  |  | int gcd(int a, int b){while (b) {int t = a % b; a = b; b = t;} return a;} int main(){return gcd(48, 18);}
200 | main 198 |  |  | int f(int n){if (n == 0) return 0; return 1 + f(n - 1);} int main(){return f(198);}
200 | trap 0 depth |  |  | int f(int n){if (n == 0) return 0; return 1 + f(n - 1);} int main(){return f(199);}
200 | trap 0 depth |  |  | void f(){f();} int main(){f(); return 0;}
2 | trap 0 uninit |  |  | int f(){} int main(){return f();}
3 | trap 0 uninit |  |  | int f(int k){int x; if (k) x = 1; return x;} int main(){f(1); return f(0);}
1 | trap 0 range |  |  | int f(char c){return c;} int main(){return f(200);}
2 | trap 0 range |  |  | char f(){return 200;} int main(){return f();}
1 | trap 0 zero |  |  | int f(int a){return a;} int main(){return f(1 / 0);}
"#;

/// Objects: globals, arrays, structs, literals and the heap. A load is a turn, and so are an allocation and a release.
const OBJECTS: &str = r#"
5 | main 1 |  |  | int a[3]; long l; char c; int *p; int main(){return a[2] + l + c + (p == NULL);}
10 | main 0 |  | -5 65 -1 z hi 3000000000 11 | int a = -5, b = 'A', c = EOF; char d = 'z', *s = "hi"; long e = 3000000000; int *p = NULL, *q = 0; int main(){printf("%d %d %d %c %s %ld %d%d", a, b, c, d, s, e, p == NULL, q == NULL); return 0;}
2 | main 0 |  | 32 1 0 1 | int a[5]; int main(){int *p = a + 4; int *q = a + 1; printf("%ld%d %d %d %d", p - q, 1 + (q < p), q <= p, q > p, p >= p); return 0;}
4 | main 10 |  |  | int a[3]; int main(){a[1] = 5; return *(1 + a) + *(a + 2 - 1);}
7 | main 2 |  |  | int a[2]; int main(){for (int *p = a; p < a + 2; p++) *p = 1; return a[0] + a[1];}
3 | main 8 |  |  | int a[3]; int main(){int *p = &a[2]; p[-1] = 8; return a[1];}
2 | main 1 |  |  | int *p; int main(){int *q = &*p; return q == NULL;}
1 | main 1 |  |  | int a; int b; int main(){return (&a == &b) + (&a == &a) + (&a != &*&a);}
5 | main 34 |  |  | struct s {int a[2]; int n;}; struct s g; int main(){int *p = g.a; p[1] = 3; g.n = 4; return g.a[1] * 10 + g.n;}
7 | main 61 |  |  | struct in {int x; int y;}; struct out {char c; struct in a[2]; struct in *p;}; struct out g; int main(){g.p = &g.a[1]; g.p->y = 6; g.a[0].x = 1; return g.a[1].y * 10 + g.a[0].x;}
5 | main 46 |  |  | struct s {int a; int b;}; struct s g[3]; int main(){struct s *p = g; (p + 2)->b = 5; p++; p[1].a = 4; return g[2].a * 10 + g[2].b + (p - g);}
3 | main 3 |  |  | struct s {int a; pthread_mutex_t m; int b;}; struct s g; pthread_mutex_t k = PTHREAD_MUTEX_INITIALIZER; int main(){g.b = 3; return g.b;}
7 | main 4 |  |  | int n = 2; int *E_PTRARRAY(n) p; int main(){p = malloc(2 * sizeof(int)); p[1] = 4; return p[1];}
7 | main 3 |  |  | int main(){int *p = (int *)malloc(sizeof(int) * 3); *p = 1; p[2] = 2; int s = *p + p[2]; free(p); return s;}
5 | main 1 |  |  | struct n {int v; struct n *next;}; int main(){struct n *p = calloc(2, sizeof(struct n)); free(NULL); return p[1].v + (p[1].next == NULL);}
3 | main 0 |  |  | int main(){char *p = malloc(65536); free(p); return p == NULL;}
32 | main 321 |  |  | struct n {int v; struct n *next;}; struct n *head; int main(){for (int i = 1; i < 4; i++) {struct n *x = malloc(sizeof(struct n)); x->v = i; x->next = head; head = x;} int s = 0; struct n *p = head; while (p) {s = s * 10 + p->v; struct n *d = p; p = p->next; free(d);} return s;}
7 | main 0 |  | ok/ | int main(){char *p = malloc(3); p[0] = 'o'; p[1] = 'k'; p[2] = 0; puts(p); free(p); return 0;}
8 | main 3 |  |  | int main(){char *s = "abc"; int n = 0; while (s[n]) n++; return n;}
14 | main 0 |  | xyz | int main(){char *s = "xyz"; while (*s) putchar(*s++);}
4 | main 5 |  |  | int main(){return "AB"[1] + "é"[0] + "a\0b"[1];}
22 | main 0 |  | hi/ | int len(char *s){int n = 0; while (s[n]) n++; return n;} char *copy(char *s){char *t = malloc(len(s) + 1); int i = 0; do t[i] = s[i]; while (s[i++]); return t;} int main(){puts(copy("hi")); return 0;}
"#;

/// The built-in calls of one thread.
const CALLS: &str = r#"
11 | main 0 | hey | hey | int main(){int c; while ((c = getchar()) != EOF) putchar(c); return 0;}
3 | main -2 |  |  | int main(){return getchar() + getchar();}
4 | main 0 | DA | 3 | int main(){printf("%d", getchar() - getchar());}
5 | main 0 | é | 195 169 -1 | int main(){printf("%d %d %d", getchar(), getchar(), getchar());}
12 | main 0 | abc | cba | void r(){int c = getchar(); if (c != EOF) {r(); putchar(c);}} int main(){r(); return 0;}
19 | main 0 | to be or | 3 | int main(){int n = 0; int in = 0; int c; while ((c = getchar()) != EOF) {if (c == ' ') in = 0; else if (!in) {in = 1; n++;}} printf("%d", n); return 0;}
3 | main 130 |  | AA | int main(){return putchar(321) + putchar(-191);}
3 | main 0 |  | x// | int main(){return puts("x") + puts("");}
2 | main 8 |  | ab10zcd% | int main(){return printf("ab%d%c%s%%", 10, 'z', "cd");}
2 | main 0 |  |  | int main(){return printf("");}
2 | main 0 |  | -5 7 A lo | int main(){char c = 7; char *s = "hello"; printf("%ld %d %c %s", -5L, c, 321, s + 3); return 0;}
4 | main 0 |  | ab12 | int main(){printf("%d%d", putchar('a') - 96, putchar('b') - 96); return 0;}
3 | main 0 |  |  | int main(){kitsune_update("a"); kitsune_update("b-1_x"); return 0;}
2 | main 0 |  |  | int main(){kitsune_do_automigrate(); return 0;}
3 | main 0 |  |  | int main(){return kitsune_is_updating() * 2 + kitsune_is_updating_from("a");}
2 | main 4 |  |  | int main() E_NOTELOCALS {int k = 4; return MIGRATE_LOCAL(k) * 10 + k;}
4 | main 3 |  |  | int f(int a) E_NOTELOCALS {int x; return MIGRATE_LOCAL(x) + MIGRATE_LOCAL(a) + a;} int main(){return f(3);}
"#;

/// Traps of arithmetic and conversions. A trap that comes between two acts is a turn of its own; an act that traps is one alone.
const NUMBER_TRAPS: &str = r#"
1 | trap 0 overflow |  |  | int main(){int x = 2147483647; x = x + 1; return 0;}
1 | trap 0 overflow |  |  | int main(){int x = -2147483647; return x - 2;}
1 | trap 0 overflow |  |  | int main(){return 65536 * 32768 - 1;}
1 | trap 0 overflow |  |  | int main(){int x = -2147483648; return -x;}
1 | trap 0 overflow |  |  | int main(){int x = -2147483648; return x / -1;}
1 | trap 0 overflow |  |  | int main(){int x = -2147483648; return x % -1;}
1 | trap 0 overflow |  |  | int main(){long l = 2147483647 + 1; return 0;}
1 | trap 0 overflow |  |  | int main(){long l = 9223372036854775807; l++; return 0;}
1 | trap 0 overflow |  |  | int main(){return (-9223372036854775807 - 1) / -1 == 0;}
2 | trap 0 overflow |  |  | int n = 2147483647; int main(){n++; return 0;}
1 | trap 0 zero |  |  | int main(){return 1 / 0;}
2 | trap 0 zero |  |  | long n; int main(){return 1 % n;}
2 | trap 0 zero |  |  | int n = 4; int main(){n /= 0; return 0;}
2 | trap 0 zero | a |  | int main(){return 1 / (getchar() - 97) + putchar('x');}
2 | trap 0 zero |  | a | int main(){printf("%d%d", putchar('a'), 1 % 0); return 0;}
1 | trap 0 range |  |  | int main(){char c = 128; return 0;}
1 | trap 0 range |  |  | int main(){char c = -129; return 0;}
1 | trap 0 range |  |  | int main(){int x = 2147483648; return 0;}
1 | trap 0 range |  |  | int main(){return (char)200 + (int)3;}
1 | trap 0 range |  |  | int main(){return -2147483649;}
1 | trap 0 range |  |  | int main(){char c = 127; c++; return 0;}
1 | trap 0 range |  |  | int main(){int x = 2147483647; x += 1L; return 0;}
4 | trap 0 range |  |  | char c = 100; int main(){c += 27; c += 1; return 0;}
2 | trap 0 range |  |  | char c; int main(){c = 127; c = 128; return 0;}
"#;

/// Traps of objects and of values that are not written yet.
const OBJECT_TRAPS: &str = r#"
2 | trap 0 null |  |  | int *p; int main(){return *p;}
2 | trap 0 null |  |  | int *p; int main(){*p = 1; return 0;}
3 | trap 0 null | a |  | int *p; int main(){*p = getchar(); return 0;}
2 | trap 0 null | a |  | int *p; int main(){p[0] = getchar(); return 0;}
2 | trap 0 null |  |  | struct s {int a;}; struct s *p; int main(){p->a = 1 / 0; return 0;}
2 | trap 0 null |  |  | struct s {int a;}; struct s *p; int main(){int *q = &p->a; return 0;}
1 | trap 0 null |  |  | int main(){int *p = NULL; return p + 0 == p;}
1 | trap 0 null |  |  | int a[2]; int main(){int *p = NULL; return a < p;}
1 | trap 0 null |  |  | int main(){int *p = NULL; return p - p == 0;}
2 | trap 0 null |  |  | char *p; int main(){puts(p); return 0;}
2 | trap 0 null |  |  | char *p; int main(){printf("ab%s", p); return 0;}
4 | trap 0 dead |  |  | int main(){int *p = malloc(sizeof(int)); *p = 1; free(p); return *p;}
3 | trap 0 dead |  |  | int main(){int *p = malloc(sizeof(int)); free(p); free(p); return 0;}
3 | trap 0 dead |  |  | int main(){int *p = calloc(2, sizeof(int)); free(p); p[1] = 3; return 0;}
3 | trap 0 dead |  |  | int main(){char *p = calloc(1, sizeof(char)); free(p); puts(p); return 0;}
1 | trap 0 bounds |  |  | int a[3]; int main(){int i = 3; return a[i];}
2 | trap 0 bounds | a |  | int a[3]; int main(){a[3] = getchar(); return 0;}
1 | trap 0 bounds | a |  | int a[3]; int main(){a[-1] = getchar(); return 0;}
2 | trap 0 bounds |  |  | int main(){int *p = malloc(2 * sizeof(int)); p[2] = 1; return 0;}
2 | trap 0 bounds |  | x | int a[2]; int main(){int *p = a + 65536; putchar('x'); p++; return 0;}
1 | trap 0 bounds |  |  | int a[2]; int main(){int *p = a; --p; return 0;}
1 | trap 0 bounds |  |  | struct s {char c; int n;}; struct s g; int main(){int *p = &g.n; return p[-1];}
1 | trap 0 bounds |  |  | int a; int b; int main(){return &a < &b;}
1 | trap 0 bounds |  |  | int a; int b; int main(){return &a - &b == 0;}
1 | trap 0 bounds |  |  | struct s {int a; int b;}; struct t {int x; struct s s;}; struct t g[2]; int main(){return &g[1].s - &g[0].s == 1;}
3 | trap 0 bounds |  |  | char b[2]; int main(){b[0] = 'a'; b[1] = 'b'; puts(b); return 0;}
1 | trap 0 bounds |  |  | int main(){char *s = "ab"; s[3] = 'x'; return 0;}
1 | trap 0 literal |  |  | int main(){char *s = "ab"; s[0] = 'x'; return 0;}
3 | trap 0 literal |  |  | char *s = "ab"; int main(){s[1]++; return 0;}
1 | trap 0 uninit |  |  | int main(){int x; return x;}
1 | trap 0 uninit |  |  | int main(){int x = x; return 0;}
1 | trap 0 uninit |  |  | int main(){int x; x++; return 0;}
1 | trap 0 uninit |  |  | int main(){int *p; if (p) return 1; return 0;}
2 | trap 0 uninit |  |  | int main(){int *p = malloc(sizeof(int)); return *p;}
2 | trap 0 uninit |  |  | struct n {struct n *next; int v;}; int main(){struct n *p = malloc(sizeof(struct n)); p->next->v = 1; return 0;}
3 | trap 0 uninit |  |  | int main(){char *p = malloc(2); p[0] = 'a'; puts(p); return 0;}
2 | trap 0 free |  |  | int main(){int *p = malloc(4 * sizeof(int)); free(p + 1); return 0;}
1 | trap 0 free |  |  | int n; int main(){free(&n); return 0;}
1 | trap 0 free |  |  | int main(){free("a"); return 0;}
1 | trap 0 size |  |  | int main(){malloc(0); return 0;}
1 | trap 0 size |  |  | int main(){int n = -1; int *p = calloc(n, sizeof(int)); return 0;}
1 | trap 0 size |  |  | struct s {int a; int b;}; int main(){struct s *p = malloc(32769 * sizeof(struct s)); return 0;}
197 | trap 0 heap |  |  | char *p; int main(){for (int i = 0; i < 64; i++) p = malloc(65536); free(p); p = malloc(65536); malloc(1); return 0;}
"#;

/// The first row of a table whose program runs otherwise, with what is told of its run.
fn differing_run(alloc: Global, table: &str) -> Result<String, AllocError> {
    for row in table.lines().skip(1) {
        let (turns, rest) = row.split_once(" | ").unwrap_or((row, ""));
        let (end, rest) = rest.split_once(" | ").unwrap_or((rest, ""));
        let (input, rest) = rest.split_once(" | ").unwrap_or((rest, ""));
        let (output, program) = rest.split_once(" | ").unwrap_or((rest, ""));
        let wanted = format!(in alloc; "{output} | kit 1/turn 0 {turns}/end {end}/")?;
        let mut input = source(alloc, input.as_bytes(), 0)?;
        let found = run_with(alloc, program, &mut input)?;
        let shown = match found.as_str().split_once(" | ") {
            Some((_, shown)) => shown,
            None => "",
        };
        if shown != wanted.as_str() {
            return format!(in alloc; "{shown}, and not {row}");
        }
    }
    Ok(String::new(alloc))
}

#[test]
fn programs_run(rt: HostRuntime) -> Result<(), Fail> {
    for table in [VALUES, ASSIGNMENTS, STATEMENTS, FUNCTIONS] {
        assert_eq!(rt; differing_run(rt.alloc(), table)?.as_str(), "");
    }
    Ok(())
}

#[test]
fn programs_with_objects_run(rt: HostRuntime) -> Result<(), Fail> {
    for table in [OBJECTS, CALLS, NUMBER_TRAPS, OBJECT_TRAPS] {
        assert_eq!(rt; differing_run(rt.alloc(), table)?.as_str(), "");
    }
    Ok(())
}
