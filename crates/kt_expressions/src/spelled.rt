//! How an expression is written, parentheses aside, as far as the one around it asks for that.

ghost use Rattle.std.specs.Prelude.{◌≡◌, map};
ghost use Rattle.std.specs.Option.{option_map};
ghost use Rattle.kt_grammar.specs.Tree.{term_of, terms_of};
ghost use Rattle.kt_typing.specs.Terms.{first_token, is_allocator, is_allocation, text_in, name_in, first_text, first_name, struct_place};

use kt_calls::builtin::builtin_named;
use kt_grammar::{Base, Expr, Name};
use kt_typing::Builtin;
use sqlite_items::Items;

/// The place of an expression's first token.
#[tactic(auto, using(kt_operators::proofs::Syntax::terms))]
pub fn first_token(e: &Expr) -> u32
    ensures { result ≡ first_token (term_of e.now) }
{
    match e {
        Expr::Number(at, _) => *at,
        Expr::Character(at, _) => *at,
        Expr::Text(at, _) => *at,
        Expr::Null(at) => *at,
        Expr::Eof(at) => *at,
        Expr::Name(name) => name.at,
        Expr::Call(name, _) => name.at,
        Expr::Paren(at, _) => *at,
        Expr::SizeOf(at, _) => *at,
        Expr::Rule(at, _) => *at,
        Expr::OldSymbol(at, _) => *at,
        Expr::New(at, _) => *at,
        Expr::Transform(at, _) => *at,
        Expr::Index(a, _) => first_token(a.get()),
        Expr::Field(a, _) => first_token(a.get()),
        Expr::Arrow(a, _) => first_token(a.get()),
        Expr::Step(a, _) => first_token(a.get()),
        Expr::Prefix(at, _, _) => *at,
        Expr::Cast(at, _, _) => *at,
        Expr::Binary(_, a, _) => first_token(a.get()),
        Expr::Choice(c, _, _) => first_token(c.get()),
        Expr::Assign(_, a, _) => first_token(a.get()),
    }
}

// Whether a call of the name gives memory of a type.
fn is_allocator(call: Option<Builtin>) -> bool
    ensures { result ≡ is_allocator call }
{
    match call {
        Some(Builtin::Malloc) => true,
        Some(Builtin::Calloc) => true,
        _ => false,
    }
}

/// Whether the expression is an allocation.
#[tactic(auto, using(kt_operators::proofs::Syntax::terms))]
pub fn is_allocation(e: &Expr) -> bool
    ensures { result ≡ is_allocation (term_of e.now) }
{
    match e {
        Expr::Paren(_, a) => is_allocation(a.get()),
        Expr::Call(name, _) => is_allocator(builtin_named(name.word.as_bytes())),
        Expr::Number(_, _) => false,
        Expr::Character(_, _) => false,
        Expr::Text(_, _) => false,
        Expr::Null(_) => false,
        Expr::Eof(_) => false,
        Expr::Name(_) => false,
        Expr::SizeOf(_, _) => false,
        Expr::Rule(_, _) => false,
        Expr::OldSymbol(_, _) => false,
        Expr::New(_, _) => false,
        Expr::Transform(_, _) => false,
        Expr::Index(_, _) => false,
        Expr::Field(_, _) => false,
        Expr::Arrow(_, _) => false,
        Expr::Step(_, _) => false,
        Expr::Prefix(_, _, _) => false,
        Expr::Cast(_, _, _) => false,
        Expr::Binary(_, _, _) => false,
        Expr::Choice(_, _, _) => false,
        Expr::Assign(_, _, _) => false,
    }
}

/// The bytes of the expression, where it is a string.
#[tactic(auto, using(kt_operators::proofs::Syntax::terms))]
pub fn text_in(e: &Expr) -> Option<&[u8]>
    ensures { option_map (λ t. t.now) result ≡ text_in (term_of e.now) }
{
    match e {
        Expr::Paren(_, a) => text_in(a.get()),
        Expr::Text(_, bytes) => Some(bytes.as_slice()),
        Expr::Call(_, _) => None,
        Expr::Number(_, _) => None,
        Expr::Character(_, _) => None,
        Expr::Null(_) => None,
        Expr::Eof(_) => None,
        Expr::Name(_) => None,
        Expr::SizeOf(_, _) => None,
        Expr::Rule(_, _) => None,
        Expr::OldSymbol(_, _) => None,
        Expr::New(_, _) => None,
        Expr::Transform(_, _) => None,
        Expr::Index(_, _) => None,
        Expr::Field(_, _) => None,
        Expr::Arrow(_, _) => None,
        Expr::Step(_, _) => None,
        Expr::Prefix(_, _, _) => None,
        Expr::Cast(_, _, _) => None,
        Expr::Binary(_, _, _) => None,
        Expr::Choice(_, _, _) => None,
        Expr::Assign(_, _, _) => None,
    }
}

/// The name that the expression is, where it is one.
#[tactic(auto, using(kt_operators::proofs::Syntax::terms))]
pub fn name_in(e: &Expr) -> Option<&Name>
    ensures { option_map (λ n. n.now) result ≡ name_in (term_of e.now) }
{
    match e {
        Expr::Paren(_, a) => name_in(a.get()),
        Expr::Name(name) => Some(name),
        Expr::Text(_, _) => None,
        Expr::Call(_, _) => None,
        Expr::Number(_, _) => None,
        Expr::Character(_, _) => None,
        Expr::Null(_) => None,
        Expr::Eof(_) => None,
        Expr::SizeOf(_, _) => None,
        Expr::Rule(_, _) => None,
        Expr::OldSymbol(_, _) => None,
        Expr::New(_, _) => None,
        Expr::Transform(_, _) => None,
        Expr::Index(_, _) => None,
        Expr::Field(_, _) => None,
        Expr::Arrow(_, _) => None,
        Expr::Step(_, _) => None,
        Expr::Prefix(_, _, _) => None,
        Expr::Cast(_, _, _) => None,
        Expr::Binary(_, _, _) => None,
        Expr::Choice(_, _, _) => None,
        Expr::Assign(_, _, _) => None,
    }
}

/// The bytes of the first argument, where it is a string.
pub fn first_text(args: &Items<Expr>) -> Option<&[u8]>
    ensures { option_map (λ t. t.now) result ≡ first_text (terms_of (map term_of args.now)) }
{
    let args = args.as_slice();
    if args.is_empty() {
        return None;
    }
    text_in(&args[0])
}

/// The name that the first argument is, where it is one.
pub fn first_name(args: &Items<Expr>) -> Option<&Name>
    ensures { option_map (λ n. n.now) result ≡ first_name (terms_of (map term_of args.now)) }
{
    let args = args.as_slice();
    if args.is_empty() {
        return None;
    }
    name_in(&args[0])
}

/// The place where a struct's name is spelled, or else this one.
pub fn struct_place(base: &Base, at: u32) -> u32
    ensures { result ≡ struct_place base.now at }
{
    match base {
        Base::Struct(name) => name.at,
        Base::Char => at,
        Base::Int => at,
        Base::Long => at,
        Base::Mutex => at,
    }
}
