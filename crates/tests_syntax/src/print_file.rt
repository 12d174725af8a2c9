//! Files as text.

use crate::print_expr::{Written, base, name, number, quoted, stars, written};
use kt_grammar::{Expr, Name};
use kt_syntax::{
    Constant, Declarator, Extent, Fields, File, ForStart, Function, GlobalDeclarator, Item,
    LocalDeclarator, Locals, Parameter, Pointer, Stmt,
};

/// How many expressions or statements may be inside each other.
const DEEPEST: u32 = 20;

fn extent(out: &mut String, extent: &Extent) -> Written {
    out.push('@')?;
    match extent {
        Extent::Name(word) => name(out, word)?,
        Extent::Number(_, value) => number(out, *value)?,
    }
    out.push(' ')
}

fn pointed(out: &mut String, pointer: &Pointer) -> Written {
    stars(out, pointer.stars.count)?;
    match &pointer.extent {
        Some(inner) => extent(out, inner),
        None => Ok(()),
    }
}

/// A space, and the stars, extent and name of a declarator.
fn declared(out: &mut String, pointer: &Option<Pointer>, word: &Name) -> Written {
    out.push(' ')?;
    if let Some(pointer) = pointer {
        pointed(out, pointer)?;
    }
    name(out, word)
}

fn declarator(out: &mut String, declarator: &Declarator) -> Written {
    declared(out, &declarator.pointer, &declarator.name)?;
    match declarator.count {
        Some(count) => {
            out.push('[')?;
            number(out, count)?;
            out.push(']')
        }
        None => Ok(()),
    }
}

fn constant(out: &mut String, constant: &Constant) -> Written {
    match constant {
        Constant::Number(value) => number(out, *value),
        Constant::Negative(value) => {
            out.push('-')?;
            number(out, *value)
        }
        Constant::Character(byte) => write!(out, "'{byte}"),
        Constant::Text(_, bytes) => quoted(out, bytes.as_slice()),
        Constant::Null => out.push_str("NULL"),
        Constant::Eof => out.push_str("EOF"),
        Constant::MutexInitializer => out.push_str("mutex"),
    }
}

fn global(out: &mut String, global: &GlobalDeclarator) -> Written {
    declarator(out, &global.declarator)?;
    match &global.initial {
        Some(value) => {
            out.push('=')?;
            constant(out, value)
        }
        None => Ok(()),
    }
}

fn local(out: &mut String, local: &LocalDeclarator) -> Written {
    declared(out, &local.pointer, &local.name)?;
    match &local.initial {
        Some(value) => {
            out.push('=')?;
            written(out, DEEPEST, value)
        }
        None => Ok(()),
    }
}

fn locals(out: &mut String, locals: &Locals) -> Written {
    out.push('(')?;
    base(out, &locals.base)?;
    for one in locals.declarators.as_slice() {
        local(out, one)?;
    }
    out.push(')')
}

fn fields(out: &mut String, fields: &Fields) -> Written {
    out.push_str(" (")?;
    base(out, &fields.base)?;
    for one in fields.declarators.as_slice() {
        declarator(out, one)?;
    }
    out.push(')')
}

fn parameter(out: &mut String, parameter: &Parameter) -> Written {
    out.push_str(" (")?;
    base(out, &parameter.base)?;
    declared(out, &parameter.pointer, &parameter.name)?;
    out.push(')')
}

fn expression(out: &mut String, expr: &Expr) -> Written {
    written(out, DEEPEST, expr)
}

/// An expression, or `_` where there is none.
fn optional(out: &mut String, expr: &Option<Expr>) -> Written {
    match expr {
        Some(expr) => expression(out, expr),
        None => out.push('_'),
    }
}

fn start(out: &mut String, start: &ForStart) -> Written {
    match start {
        ForStart::Nothing => out.push('_'),
        ForStart::Locals(declared) => locals(out, declared),
        ForStart::Expr(expr) => expression(out, expr),
    }
}

/// A word and an expression.
fn headed(out: &mut String, word: &str, test: &Expr) -> Written {
    out.push_str(word)?;
    expression(out, test)
}

/// What stands between the parentheses of `for`.
fn turns(out: &mut String, first: &ForStart, test: &Option<Expr>, step: &Option<Expr>) -> Written {
    out.push_str("(for ")?;
    start(out, first)?;
    out.push(' ')?;
    optional(out, test)?;
    out.push(' ')?;
    optional(out, step)
}

/// What stands before the last part of a statement that has parts.
#[cycle(printing)]
fn before_last(out: &mut String, left: u32, stmt: &Stmt) -> Written {
    match stmt {
        Stmt::If(test, _) => headed(out, "(if ", test),
        Stmt::IfElse(test, body, _) => {
            headed(out, "(if ", test)?;
            part(out, left, body.get())
        }
        Stmt::While(test, _) => headed(out, "(while ", test),
        Stmt::For(first, test, step, _) => turns(out, first, test, step),
        _ => Ok(()),
    }
}

/// A statement behind a space.
#[cycle(printing)]
fn part(out: &mut String, left: u32, stmt: &Stmt) -> Written {
    out.push(' ')?;
    statement(out, left, stmt)
}

#[cycle(printing)]
fn block(out: &mut String, left: u32, entries: &[Stmt]) -> Written {
    out.push('{')?;
    for entry in entries {
        part(out, left, entry)?;
    }
    out.push_str(" }")
}

#[cycle(printing)]
fn repeated(out: &mut String, left: u32, body: &Stmt, test: &Expr) -> Written {
    out.push_str("(do")?;
    part(out, left, body)?;
    headed(out, " ", test)?;
    out.push(')')
}

#[cycle(printing)]
fn statement(out: &mut String, left: u32, stmt: &Stmt) -> Written {
    if left == 0 {
        return out.push_str("..");
    }
    match stmt {
        Stmt::Locals(declared) => locals(out, declared),
        Stmt::Block(entries) => block(out, left - 1, entries.as_slice()),
        Stmt::Empty => out.push(';'),
        Stmt::Expr(expr) => {
            expression(out, expr)?;
            out.push(';')
        }
        Stmt::Return(_, value) => {
            out.push_str("(return ")?;
            optional(out, value)?;
            out.push(')')
        }
        Stmt::Break(_) => out.push_str("break"),
        Stmt::Continue(_) => out.push_str("continue"),
        Stmt::Do(body, test) => repeated(out, left - 1, body.get(), test),
        Stmt::If(_, last)
        | Stmt::IfElse(_, _, last)
        | Stmt::While(_, last)
        | Stmt::For(_, _, _, last) => {
            before_last(out, left - 1, stmt)?;
            part(out, left - 1, last.get())?;
            out.push(')')
        }
    }
}

fn function_head(out: &mut String, function: &Function) -> Written {
    out.push_str("(function ")?;
    match &function.result {
        Some(result) => base(out, result)?,
        None => out.push_str("void")?,
    }
    out.push(' ')?;
    if let Some(before) = &function.stars {
        stars(out, before.count)?;
    }
    name(out, &function.name)
}

fn function_body(out: &mut String, function: &Function) -> Written {
    if let Some(body) = &function.body {
        out.push_str(if body.noted { " noted " } else { " " })?;
        block(out, DEEPEST, body.entries.as_slice())?;
    }
    out.push(')')
}

fn function(out: &mut String, function: &Function) -> Written {
    function_head(out, function)?;
    for one in function.parameters.as_slice() {
        parameter(out, one)?;
    }
    function_body(out, function)
}

fn structure(out: &mut String, tag: &Name, parts: &[Fields]) -> Written {
    out.push_str("(struct ")?;
    name(out, tag)?;
    for one in parts {
        fields(out, one)?;
    }
    out.push(')')
}

fn item(out: &mut String, item: &Item) -> Written {
    match item {
        Item::Struct(tag, None) => structure(out, tag, &[]),
        Item::Struct(tag, Some(fields)) => structure(out, tag, fields.as_slice()),
        Item::Globals(of, globals) => {
            out.push_str("(globals ")?;
            base(out, of)?;
            for one in globals.as_slice() {
                global(out, one)?;
            }
            out.push(')')
        }
        Item::Function(declared) => function(out, declared),
    }
}

/// The external declarations, with a space between them.
pub(crate) fn file(out: &mut String, file: &File) -> Written {
    for one in file.items.as_slice() {
        if !out.is_empty() {
            out.push(' ')?;
        }
        item(out, one)?;
    }
    Ok(())
}
