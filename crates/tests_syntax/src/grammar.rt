//! Texts of expressions, with the kinds of the expression and of its parts, or the fault.

use kt_grammar::{BinaryOperator, Dialect, Expr, Fault, expr, symbols};
use kt_lex::lex;
use std::alloc::Global;
use std::test::Fail;

fn operator(operator: BinaryOperator) -> &'static str {
    match operator {
        BinaryOperator::Or => "||",
        BinaryOperator::And => "&&",
        BinaryOperator::Equal => "==",
        BinaryOperator::NotEqual => "!=",
        BinaryOperator::Less => "<",
        BinaryOperator::Greater => ">",
        BinaryOperator::LessEqual => "<=",
        BinaryOperator::GreaterEqual => ">=",
        BinaryOperator::Add => "+",
        BinaryOperator::Subtract => "-",
        BinaryOperator::Multiply => "*",
        BinaryOperator::Divide => "/",
        BinaryOperator::Remainder => "%",
    }
}

fn kind(x: &Expr) -> &'static str {
    match x {
        Expr::Number(_, _) => "n",
        Expr::Character(_, _) => "c",
        Expr::Text(_, _) => "t",
        Expr::Null(_) => "null",
        Expr::Eof(_) => "eof",
        Expr::Name(_) => "x",
        Expr::Call(_, _) => "call",
        Expr::Paren(_, _) => "()",
        Expr::SizeOf(_, _) => "sizeof",
        Expr::Rule(_, _) => "$",
        Expr::OldSymbol(_, _) => "$oldsym",
        Expr::New(_, _) => "$new",
        Expr::Transform(_, _) => "$xform",
        Expr::Index(_, _) => "[]",
        Expr::Field(_, _) => ".",
        Expr::Arrow(_, _) => "->",
        Expr::Step(_, _) => "step",
        Expr::Prefix(_, _, _) => "prefix",
        Expr::Cast(_, _, _) => "cast",
        Expr::Binary(sign, _, _) => operator(*sign),
        Expr::Choice(_, _, _) => "?",
        Expr::Assign(_, _, _) => "=",
    }
}

/// The kind of an expression, and those of its first two parts.
fn parts(x: &Expr) -> (&'static str, &'static str, &'static str) {
    match x {
        Expr::Paren(_, a)
        | Expr::Transform(_, a)
        | Expr::Field(a, _)
        | Expr::Arrow(a, _)
        | Expr::Step(a, _)
        | Expr::Prefix(_, _, a)
        | Expr::Cast(_, _, a) => (kind(x), kind(a.get()), ""),
        Expr::Index(a, b) | Expr::Binary(_, a, b) | Expr::Assign(_, a, b) => {
            (kind(x), kind(a.get()), kind(b.get()))
        }
        Expr::Choice(_, a, b) => (kind(x), kind(a.get()), kind(b.get())),
        _ => (kind(x), "", ""),
    }
}

/// An expression's kind and those of its parts, and how many symbols stand behind it; or the fault.
fn shown(alloc: Global, dialect: Dialect, depth: u32, bytes: &[u8]) -> Result<String, Fail> {
    if bytes.len() > 1000 {
        return format!(in alloc; "too long").map_err(Fail::from);
    }
    let tokens = lex(alloc, bytes)?;
    let symbols = symbols(alloc, &tokens, bytes)?;
    let text = match expr(alloc, dialect, depth, &symbols) {
        Ok((x, rest)) => {
            let (whole, first, second) = parts(&x);
            drop(x);
            let left = rest.len();
            format!(in alloc; "{whole} {first} {second} {left}")
        }
        Err(Fault::Syntax(left)) => format!(in alloc; "syntax {left}"),
        Err(Fault::TooDeep(left)) => format!(in alloc; "deep {left}"),
        Err(Fault::NoMemory) => format!(in alloc; "no memory"),
    };
    text.map_err(Fail::from)
}

/// Precedence and grouping.
const GROUPS: &str = "\
a + b * c => + x * 0
a * b + c => + * x 0
a - b - c => - - x 0
a / b * c % d => % * x 0
a || b && c => || x && 0
a && b == c => && x == 0
a == b < c => == x < 0
a < b + c => < x + 0
a = b = c => = x = 0
a ? b : c ? d : e => ? x ? 0
a ? b : c = d => = ? x 0
a ? b = c : d => ? = x 0
a ? b, c : d => syntax 4
";

/// Parentheses, casts and operators of one operand.
const OPERANDS: &str = "\
(int) a + b => + cast x 0
(a) + b => + () x 0
-a * b => * prefix x 0
*p++ => prefix step  0
a.b->c[1]++ => step []  0
f(a, b)(c) => call   3
sizeof(int *) => sizeof   0
";

/// Where reading stops.
const ENDS: &str = "\
a b => x   1
a + => syntax 0
 => syntax 0
int => syntax 1
";

/// Expressions of rules.
const RULES: &str = "\
a = b => x   2
f(a) => x   3
$in + 1 => + $ n 0
$oldsym(g)->f => -> $oldsym  0
$xform(a) => $xform x  0
$xform a => syntax 1
$new(struct s *, 3) => $new   0
$new(const int, 3)->f => -> $new  0
$new(int *) => syntax 1
$new(int, a) => syntax 2
$new(3, int) => syntax 4
$new(int, -1) => syntax 3
++a => syntax 2
sizeof(int) => syntax 4
\"s\" => syntax 1
";

/// Expressions, each behind how deep it may be.
const DEEP: &str = "\
0 a => x   0
0 a + b => deep 1
0 a + => syntax 0
1 a + b => + x x 0
1 a + b + c => deep 1
2 a + b + c => + + x 0
0 (a) => deep 2
0 -a => deep 1
0 (int) a => deep 1
0 a.b => . x  0
0 a.b.c => deep 2
1 a.b.c => . .  0
0 f() => call   0
0 f(a) => deep 2
0 a = b => deep 1
0 a ? b : c => deep 3
";

/// The first row of a table whose text is read otherwise, with that.
fn differing(alloc: Global, dialect: Dialect, table: &str) -> Result<String, Fail> {
    for row in table.lines() {
        let (text, want) = row.split_once(" => ").unwrap_or((row, ""));
        let found = shown(alloc, dialect, 9, text.as_bytes())?;
        if found.as_str() != want {
            return format!(in alloc; "{found}, and not {row}").map_err(Fail::from);
        }
    }
    Ok(String::new(alloc))
}

/// The same where the text stands behind how deep it may be.
fn differing_depth(alloc: Global, table: &str) -> Result<String, Fail> {
    for row in table.lines() {
        let (depth, rest) = row.split_once(' ').unwrap_or((row, ""));
        let (text, want) = rest.split_once(" => ").unwrap_or((rest, ""));
        let depth = depth.parse::<u32>().unwrap_or(0);
        let found = shown(alloc, Dialect::C, depth, text.as_bytes())?;
        if found.as_str() != want {
            return format!(in alloc; "{found}, and not {row}").map_err(Fail::from);
        }
    }
    Ok(String::new(alloc))
}

#[test]
fn expressions_are_read(rt: HostRuntime) -> Result<(), Fail> {
    for table in [GROUPS, OPERANDS, ENDS] {
        assert_eq!(rt; differing(rt.alloc(), Dialect::C, table)?.as_str(), "");
    }
    assert_eq!(rt; differing(rt.alloc(), Dialect::Rules, RULES)?.as_str(), "");
    assert_eq!(rt; differing_depth(rt.alloc(), DEEP)?.as_str(), "");
    Ok(())
}
