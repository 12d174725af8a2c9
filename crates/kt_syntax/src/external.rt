//! External declarations.

ghost use Rattle.std.specs.Prelude.{◌≡◌, ◌<◌, ◌≤◌, ◌∷◌, [], map, length, drop, IfOk};
ghost use Rattle.std.specs.Option.{is_some};
ghost use Rattle.kt_grammar.specs.Cursor.{Gives, until_at, begins_sign};
ghost use Rattle.kt_syntax.specs.Tree.{external_of};
ghost use Rattle.kt_syntax.specs.Reading.{count_leading, fields_at, bare_stars, named_behind, declared_behind, void_behind, typed_at, struct_behind, struct_at, external_at, is_end, file_at};

use super::declarator::fields;
use super::function::function;
use super::global::{global_behind, globals_behind};
use super::pointer::{pointer, stars};
use super::tree::{Fields, Item, Pointer};
use kt_grammar::{
    Base, Fault, Keyword, Name, Sign, Symbol, bare_base, begins_sign, behind, behind_first, name,
};
use sqlite_items::Items;
use std::alloc::Global;

/// The symbols behind each `static` and `const` at the front.
#[tactic(auto, unfolding(crate::specs::Reading::count_leading))]
fn behind_leading(symbols: &[Symbol]) -> &[Symbol]
    ensures value { result.now ≡ drop (count_leading symbols.now) symbols.now }
    ensures shorter { length result.now ≤ length symbols.now }
{
    let mut rest = symbols;
    while let [
        Symbol::Keyword(_, Keyword::Static | Keyword::Const),
        behind @ ..,
    ] = rest
    {
        rest = behind;
    }
    rest
}

/// Whether no `E_PTRARRAY` stands there, as before a function's name.
fn is_bare(pointer: &Option<Pointer>) -> bool
    ensures { result ≡ is_some (bare_stars pointer.now) }
{
    match pointer {
        Some(pointer) => pointer.extent.is_none(),
        None => true,
    }
}

/// Globals, or a function where a parenthesis follows the name.
#[tactic(auto, unfolding(crate::specs::Reading::named_behind))]
fn named(
    alloc: Global,
    depth: u32,
    base: Base,
    pointer: Option<Pointer>,
    name: Name,
    symbols: &[Symbol],
) -> Result<(Item, &[Symbol]), Fault>
    ensures read { Gives (λ x. (external_of x.0, x.1.now)) result (named_behind depth base pointer name symbols.now) }
    ensures shorter { IfOk result (λ x. length x.1.now < length symbols.now) }
{
    if begins_sign(Sign::OpenParenthesis, symbols) && is_bare(&pointer) {
        let stars = pointer.map(|pointer| pointer.stars);
        return function(alloc, depth, Some(base), stars, name, behind_first(symbols));
    }
    let (first, rest) = global_behind(alloc, pointer, name, symbols)?;
    globals_behind(alloc, base, first, rest)
}

/// Globals or a function behind the base.
#[tactic(auto, unfolding(crate::specs::Reading::declared_behind))]
fn declared(
    alloc: Global,
    depth: u32,
    base: Base,
    symbols: &[Symbol],
) -> Result<(Item, &[Symbol]), Fault>
    ensures read { Gives (λ x. (external_of x.0, x.1.now)) result (declared_behind depth base symbols.now) }
    ensures shorter { IfOk result (λ x. length x.1.now < length symbols.now) }
{
    let (pointer, rest) = pointer(symbols)?;
    let (name, rest) = name(rest)?;
    named(alloc, depth, base, pointer, name, rest)
}

/// A function behind `void`.
#[tactic(auto, unfolding(crate::specs::Reading::void_behind))]
fn void(alloc: Global, depth: u32, symbols: &[Symbol]) -> Result<(Item, &[Symbol]), Fault>
    ensures read { Gives (λ x. (external_of x.0, x.1.now)) result (void_behind depth symbols.now) }
    ensures shorter { IfOk result (λ x. length x.1.now < length symbols.now) }
{
    let (stars, rest) = stars(symbols);
    let (name, rest) = name(rest)?;
    let inner = behind(Sign::OpenParenthesis, rest)?;
    function(alloc, depth, None, stars, name, inner)
}

/// Globals or a function behind `static` and `const`.
#[tactic(auto, unfolding(crate::specs::Reading::typed_at))]
fn typed(alloc: Global, depth: u32, symbols: &[Symbol]) -> Result<(Item, &[Symbol]), Fault>
    ensures read { Gives (λ x. (external_of x.0, x.1.now)) result (typed_at depth symbols.now) }
    ensures shorter { IfOk result (λ x. length x.1.now < length symbols.now) }
{
    match symbols {
        [Symbol::Keyword(_, Keyword::Void), rest @ ..] => void(alloc, depth, rest),
        _ => {
            let (base, rest) = bare_base(symbols)?;
            declared(alloc, depth, base, rest)
        }
    }
}

/// The first fields, and those as far as a closing brace.
fn more_fields(
    alloc: Global,
    first: Fields,
    symbols: &[Symbol],
) -> Result<(Items<Fields>, &[Symbol]), Fault>
    ensures read { Gives (λ x. (x.0, x.1.now)) result (until_at (begins_sign Sign.CloseBrace) fields_at (length symbols.now) (first ∷ []) symbols.now) }
    ensures shorter { IfOk result (λ x. length x.1.now ≤ length symbols.now) }
{
    let mut done = Items::new(alloc);
    done.push(first)?;
    let mut rest = symbols;
    while !begins_sign(Sign::CloseBrace, rest) {
        let (fields, behind) = fields(alloc, rest)?;
        done.push(fields)?;
        rest = behind;
    }
    Ok((done, rest))
}

/// Fields and what closes a struct, behind its opening brace.
#[tactic(auto, unfolding(crate::specs::Reading::struct_behind))]
fn defined(alloc: Global, name: Name, symbols: &[Symbol]) -> Result<(Item, &[Symbol]), Fault>
    ensures read { Gives (λ x. (external_of x.0, x.1.now)) result (struct_behind name symbols.now) }
    ensures shorter { IfOk result (λ x. length x.1.now < length symbols.now) }
{
    let (first, rest) = fields(alloc, symbols)?;
    let (fields, rest) = more_fields(alloc, first, rest)?;
    let rest = behind(Sign::Semicolon, behind_first(rest))?;
    Ok((Item::Struct(name, Some(fields)), rest))
}

/// A struct, or globals or a function of that type, behind `struct`.
#[tactic(auto, unfolding(crate::specs::Reading::struct_at))]
fn structured(alloc: Global, depth: u32, symbols: &[Symbol]) -> Result<(Item, &[Symbol]), Fault>
    ensures read { Gives (λ x. (external_of x.0, x.1.now)) result (struct_at depth symbols.now) }
    ensures shorter { IfOk result (λ x. length x.1.now < length symbols.now) }
{
    let (name, rest) = name(symbols)?;
    if begins_sign(Sign::Semicolon, rest) {
        return Ok((Item::Struct(name, None), behind_first(rest)));
    }
    if begins_sign(Sign::OpenBrace, rest) {
        return defined(alloc, name, behind_first(rest));
    }
    declared(alloc, depth, Base::Struct(name), rest)
}

/// An external declaration.
#[tactic(auto, unfolding(crate::specs::Reading::external_at))]
pub(crate) fn external(
    alloc: Global,
    depth: u32,
    symbols: &[Symbol],
) -> Result<(Item, &[Symbol]), Fault>
    ensures read { Gives (λ x. (external_of x.0, x.1.now)) result (external_at depth symbols.now) }
    ensures shorter { IfOk result (λ x. length x.1.now < length symbols.now) }
{
    match symbols {
        [Symbol::Keyword(_, Keyword::Struct), rest @ ..] => structured(alloc, depth, rest),
        _ => typed(alloc, depth, behind_leading(symbols)),
    }
}

/// Whether no symbol is left.
fn is_end(symbols: &[Symbol]) -> bool
    ensures { result ≡ is_end symbols.now }
{
    matches!(symbols, [])
}

/// The external declarations of a file.
#[tactic(auto, using(crate::proofs::Ends::nothing_left), unfolding(crate::specs::Reading::file_at))]
pub(crate) fn externals(alloc: Global, depth: u32, symbols: &[Symbol]) -> Result<Items<Item>, Fault>
    ensures read { Gives (λ x. (map external_of x, [])) result (file_at depth symbols.now) }
{
    let mut done = Items::new(alloc);
    let mut rest = symbols;
    while !is_end(rest) {
        let (item, behind) = external(alloc, depth, rest)?;
        done.push(item)?;
        rest = behind;
    }
    Ok(done)
}
