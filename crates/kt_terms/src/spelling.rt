//! How an argument is written, as far as built-in calls ask for it.

ghost use Rattle.std.specs.Prelude.{◌≡◌, map};
ghost use Rattle.std.specs.Option.{option_map};
ghost use Rattle.kt_grammar.specs.Tree.{term_of, terms_of};
ghost use Rattle.kt_terms.specs.Spellings.{spelling_of, spelled};
ghost use Rattle.kt_terms.specs.Specials.{only_spelling, first_spelling, first_of_two, second_of_two};

use kt_grammar::{Expr, Name, TypeName};
use sqlite_items::Items;

/// How an argument is written.
#[derive(Clone, Copy)]
pub(crate) enum Spelling<'e> {
    /// `sizeof` at its place, of a type name.
    Size(u32, &'e TypeName),
    /// Text in quotes.
    Text(&'e [u8]),
    Name(&'e Name),
    Null,
    Other,
}

/// How an expression is written.
pub(crate) fn spelling_of(e: &Expr) -> Spelling<'_>
    ensures { spelled result ≡ spelling_of (term_of e.now) }
{
    match e {
        Expr::SizeOf(at, t) => Spelling::Size(*at, t),
        Expr::Text(_, bytes) => Spelling::Text(bytes.as_slice()),
        Expr::Name(name) => Spelling::Name(name),
        Expr::Null(_) => Spelling::Null,
        Expr::Number(_, _) => Spelling::Other,
        Expr::Character(_, _) => Spelling::Other,
        Expr::Eof(_) => Spelling::Other,
        Expr::Call(_, _) => Spelling::Other,
        Expr::Paren(_, _) => Spelling::Other,
        Expr::Rule(_, _) => Spelling::Other,
        Expr::OldSymbol(_, _) => Spelling::Other,
        Expr::New(_, _) => Spelling::Other,
        Expr::Transform(_, _) => Spelling::Other,
        Expr::Index(_, _) => Spelling::Other,
        Expr::Field(_, _) => Spelling::Other,
        Expr::Arrow(_, _) => Spelling::Other,
        Expr::Step(_, _) => Spelling::Other,
        Expr::Prefix(_, _, _) => Spelling::Other,
        Expr::Cast(_, _, _) => Spelling::Other,
        Expr::Binary(_, _, _) => Spelling::Other,
        Expr::Choice(_, _, _) => Spelling::Other,
        Expr::Assign(_, _, _) => Spelling::Other,
    }
}

/// How the only argument is written.
pub(crate) fn only_spelling(args: &Items<Expr>) -> Option<Spelling<'_>>
    ensures { option_map spelled result ≡ only_spelling (terms_of (map term_of args.now)) }
{
    let args = args.as_slice();
    if args.len() != 1 {
        return None;
    }
    Some(spelling_of(&args[0]))
}

/// How the first argument is written.
pub(crate) fn first_spelling(args: &Items<Expr>) -> Option<Spelling<'_>>
    ensures { option_map spelled result ≡ first_spelling (terms_of (map term_of args.now)) }
{
    let args = args.as_slice();
    if args.len() == 0 {
        return None;
    }
    Some(spelling_of(&args[0]))
}

/// How the first of two arguments is written.
pub(crate) fn first_of_two(args: &Items<Expr>) -> Option<Spelling<'_>>
    ensures { option_map spelled result ≡ first_of_two (terms_of (map term_of args.now)) }
{
    let args = args.as_slice();
    if args.len() != 2 {
        return None;
    }
    Some(spelling_of(&args[0]))
}

/// How the second of two arguments is written.
pub(crate) fn second_of_two(args: &Items<Expr>) -> Option<Spelling<'_>>
    ensures { option_map spelled result ≡ second_of_two (terms_of (map term_of args.now)) }
{
    let args = args.as_slice();
    if args.len() != 2 {
        return None;
    }
    Some(spelling_of(&args[1]))
}
