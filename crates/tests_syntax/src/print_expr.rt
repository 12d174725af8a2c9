//! Expressions as text: an operator before its operands. `left`: how many more may be inside each other.

use kt_grammar::{
    AssignOperator, Base, BinaryOperator, Expr, Name, PrefixOperator, StepOperator, TypeName,
};
use kt_lex::Number;
use std::alloc::AllocError;

pub(crate) type Written = Result<(), AllocError>;

pub(crate) fn letters(out: &mut String, bytes: &[u8]) -> Written {
    for byte in bytes {
        out.push(char::from(*byte))?;
    }
    Ok(())
}

pub(crate) fn name(out: &mut String, name: &Name) -> Written {
    letters(out, name.word.as_bytes())
}

pub(crate) fn number(out: &mut String, number: Number) -> Written {
    let value = number.value;
    write!(out, "{value}")?;
    if number.long { out.push('L') } else { Ok(()) }
}

pub(crate) fn quoted(out: &mut String, bytes: &[u8]) -> Written {
    out.push('"')?;
    letters(out, bytes)?;
    out.push('"')
}

pub(crate) fn base(out: &mut String, base: &Base) -> Written {
    match base {
        Base::Char => out.push_str("char"),
        Base::Int => out.push_str("int"),
        Base::Long => out.push_str("long"),
        Base::Mutex => out.push_str("mutex"),
        Base::Struct(tag) => {
            out.push_str("struct-")?;
            name(out, tag)
        }
    }
}

pub(crate) fn stars(out: &mut String, count: usize) -> Written {
    for _ in 0..count {
        out.push('*')?;
    }
    Ok(())
}

fn type_name(out: &mut String, name: &TypeName) -> Written {
    base(out, &name.base)?;
    stars(out, name.stars)
}

fn prefix_sign(operator: PrefixOperator) -> &'static str {
    match operator {
        PrefixOperator::Negate => "neg",
        PrefixOperator::Not => "!",
        PrefixOperator::Dereference => "deref",
        PrefixOperator::AddressOf => "&",
        PrefixOperator::Increment => "++_",
        PrefixOperator::Decrement => "--_",
    }
}

fn step_sign(operator: StepOperator) -> &'static str {
    match operator {
        StepOperator::Increment => "_++",
        StepOperator::Decrement => "_--",
    }
}

fn binary_sign(operator: BinaryOperator) -> &'static str {
    match operator {
        BinaryOperator::Or => "||",
        BinaryOperator::And => "&&",
        BinaryOperator::Equal => "==",
        BinaryOperator::NotEqual => "!=",
        BinaryOperator::Less => "<",
        BinaryOperator::Greater => ">",
        BinaryOperator::LessEqual => "<=",
        BinaryOperator::GreaterEqual => ">=",
        BinaryOperator::Add => "+",
        BinaryOperator::Subtract => "-",
        BinaryOperator::Multiply => "*",
        BinaryOperator::Divide => "/",
        BinaryOperator::Remainder => "%",
    }
}

fn assign_sign(operator: AssignOperator) -> &'static str {
    match operator {
        AssignOperator::Assign => "=",
        AssignOperator::Add => "+=",
        AssignOperator::Subtract => "-=",
        AssignOperator::Multiply => "*=",
        AssignOperator::Divide => "/=",
        AssignOperator::Remainder => "%=",
    }
}

/// The word or sign that an expression of parts begins with.
fn head(out: &mut String, expr: &Expr) -> Written {
    match expr {
        Expr::Paren(_, _) => out.push_str("paren"),
        Expr::Index(_, _) => out.push_str("index"),
        Expr::Field(_, _) => out.push('.'),
        Expr::Arrow(_, _) => out.push_str("->"),
        Expr::Step(_, operator) => out.push_str(step_sign(*operator)),
        Expr::Prefix(_, operator, _) => out.push_str(prefix_sign(*operator)),
        Expr::Binary(operator, _, _) => out.push_str(binary_sign(*operator)),
        Expr::Choice(_, _, _) => out.push('?'),
        Expr::Assign(operator, _, _) => out.push_str(assign_sign(*operator)),
        Expr::Call(function, _) => {
            out.push_str("call ")?;
            name(out, function)
        }
        Expr::Cast(_, to, _) => {
            out.push_str("cast ")?;
            type_name(out, to)
        }
        Expr::SizeOf(_, of) => {
            out.push_str("sizeof ")?;
            type_name(out, of)
        }
        _ => out.push_str("rule"),
    }
}

#[cycle(printing)]
fn part(out: &mut String, left: u32, expr: &Expr) -> Written {
    out.push(' ')?;
    written(out, left, expr)
}

#[cycle(printing)]
fn arguments(out: &mut String, left: u32, arguments: &[Expr]) -> Written {
    for argument in arguments {
        part(out, left, argument)?;
    }
    Ok(())
}

fn member(out: &mut String, field: &Name) -> Written {
    out.push(' ')?;
    name(out, field)
}

/// The parts of an expression, each behind a space.
#[cycle(printing)]
fn parts(out: &mut String, left: u32, expr: &Expr) -> Written {
    match expr {
        Expr::Call(_, all) => arguments(out, left, all.as_slice()),
        Expr::Paren(_, a) | Expr::Step(a, _) | Expr::Prefix(_, _, a) | Expr::Cast(_, _, a) => {
            part(out, left, a.get())
        }
        Expr::Field(a, field) | Expr::Arrow(a, field) => {
            part(out, left, a.get())?;
            member(out, field)
        }
        Expr::Index(a, b) | Expr::Binary(_, a, b) | Expr::Assign(_, a, b) => {
            part(out, left, a.get())?;
            part(out, left, b.get())
        }
        Expr::Choice(a, b, c) => {
            part(out, left, a.get())?;
            part(out, left, b.get())?;
            part(out, left, c.get())
        }
        _ => Ok(()),
    }
}

#[cycle(printing)]
pub(crate) fn written(out: &mut String, left: u32, expr: &Expr) -> Written {
    if left == 0 {
        return out.push_str("..");
    }
    match expr {
        Expr::Number(_, value) => number(out, *value),
        Expr::Character(_, byte) => write!(out, "'{byte}"),
        Expr::Text(_, bytes) => quoted(out, bytes.as_slice()),
        Expr::Null(_) => out.push_str("NULL"),
        Expr::Eof(_) => out.push_str("EOF"),
        Expr::Name(word) => name(out, word),
        _ => {
            out.push('(')?;
            head(out, expr)?;
            parts(out, left - 1, expr)?;
            out.push(')')
        }
    }
}
