//! Rule files as text. `left`: how many more acts may be inside each other.

use kt_grammar::{Base, Expr, Name, RuleWord};
use std::alloc::AllocError;
use xf_syntax::{Act, Body, RuleFile, RuleItem, Side, StructName, Target};

type Written = Result<(), AllocError>;

fn name(out: &mut String, name: &Name) -> Written {
    for byte in name.word.as_bytes() {
        out.push(char::from(*byte))?;
    }
    Ok(())
}

fn word(word: RuleWord) -> &'static str {
    match word {
        RuleWord::In => "$in",
        RuleWord::Out => "$out",
        RuleWord::Base => "$base",
        RuleWord::OldSymbol => "$oldsym",
        RuleWord::Transform => "$xform",
        RuleWord::New => "$new",
    }
}

fn base(out: &mut String, base: &Base) -> Written {
    match base {
        Base::Char => out.push_str("char"),
        Base::Int => out.push_str("int"),
        Base::Long => out.push_str("long"),
        Base::Mutex => out.push_str("mutex"),
        Base::Struct(tag) => {
            out.push_str("struct ")?;
            name(out, tag)
        }
    }
}

/// An expression of one primary; any other is `..`.
fn expr(out: &mut String, x: &Expr) -> Written {
    match x {
        Expr::Name(n) => name(out, n),
        Expr::Number(_, number) => {
            let value = number.value;
            write!(out, "{value}")
        }
        Expr::Null(_) => out.push_str("NULL"),
        Expr::Rule(_, w) => out.push_str(word(*w)),
        Expr::OldSymbol(at, n) => {
            write!(out, "$oldsym@{at} ")?;
            name(out, n)
        }
        Expr::New(at, fresh) => {
            write!(out, "$new@{at} ")?;
            base(out, &fresh.type_name.base)?;
            let stars = fresh.type_name.stars;
            let place = fresh.at;
            let count = fresh.count.value;
            write!(out, " {stars} {count}@{place}")
        }
        _ => out.push_str(".."),
    }
}

fn headed(out: &mut String, test: &Expr) -> Written {
    out.push_str("if ")?;
    expr(out, test)?;
    out.push(' ')
}

#[cycle(printing)]
fn acts(out: &mut String, left: u32, all: &[Act]) -> Written {
    out.push('[')?;
    for one in all {
        act(out, left, one)?;
    }
    out.push(']')
}

#[cycle(printing)]
fn act(out: &mut String, left: u32, one: &Act) -> Written {
    if left == 0 {
        return out.push_str("..");
    }
    match one {
        Act::Block(all) => acts(out, left - 1, all.as_slice()),
        Act::Empty => out.push(';'),
        Act::Assign(to, value) => {
            expr(out, to)?;
            out.push_str(" = ")?;
            expr(out, value)?;
            out.push(';')
        }
        Act::If(test, body) => {
            headed(out, test)?;
            act(out, left - 1, body.get())
        }
        Act::IfElse(test, body, other) => {
            headed(out, test)?;
            act(out, left - 1, body.get())?;
            out.push_str(" else ")?;
            act(out, left - 1, other.get())
        }
    }
}

fn ending(out: &mut String, body: &Option<Body>) -> Written {
    match body {
        None => Ok(()),
        Some(body) => {
            let first = body.first;
            let last = body.last;
            write!(out, " {first}-{last} ")?;
            acts(out, 10, body.acts.as_slice())
        }
    }
}

fn struct_name(out: &mut String, of: &StructName) -> Written {
    let at = of.at;
    write!(out, "struct@{at} ")?;
    name(out, &of.name)
}

fn target(out: &mut String, of: &Target) -> Written {
    match of {
        Target::Global(n) => {
            let at = n.at;
            name(out, n)?;
            write!(out, "@{at}")
        }
        Target::Field(of, field) => {
            struct_name(out, of)?;
            out.push('.')?;
            name(out, field)
        }
    }
}

fn side(out: &mut String, of: &Side) -> Written {
    match of {
        Side::Target(of) => target(out, of),
        Side::Local(function, local) => {
            name(out, function)?;
            out.push_str("::")?;
            name(out, local)
        }
    }
}

fn item(out: &mut String, rule: &RuleItem) -> Written {
    match rule {
        RuleItem::Structs(old, new) => {
            struct_name(out, old)?;
            out.push_str(" to ")?;
            struct_name(out, new)
        }
        RuleItem::Initial(of, body) => {
            out.push_str("init ")?;
            target(out, of)?;
            ending(out, body)
        }
        RuleItem::Move(old, new, body) => {
            side(out, old)?;
            out.push_str(" to ")?;
            side(out, new)?;
            ending(out, body)
        }
    }
}

/// The rules and the length.
pub(crate) fn file(out: &mut String, file: &RuleFile) -> Written {
    for rule in file.rules.as_slice() {
        item(out, rule)?;
        out.push_str(" / ")?;
    }
    let length = file.length;
    write!(out, "{length}")
}
