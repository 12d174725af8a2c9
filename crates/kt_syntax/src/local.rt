//! Locals.

ghost use Rattle.std.specs.Prelude.{◌≡◌, ◌<◌, ◌≤◌, [], length, map, IfOk};
ghost use Rattle.std.specs.Option.{option_map};
ghost use Rattle.kt_grammar.specs.Cursor.{Gives, listed_at};
ghost use Rattle.kt_grammar.specs.Tree.{term_of};
ghost use Rattle.kt_syntax.specs.Tree.{local_of, declaration_of};
ghost use Rattle.kt_syntax.specs.Reading.{value_at, local_at, declaration_at};

use super::pointer::pointer;
use super::tree::{LocalDeclarator, Locals};
use kt_grammar::{Dialect, Expr, Fault, Sign, Symbol, base, begins_sign, behind_first, expr, name};
use sqlite_items::Items;
use std::alloc::Global;

/// The initial value of a local, where it stands.
#[tactic(auto, unfolding(crate::specs::Reading::value_at))]
fn value(alloc: Global, depth: u32, symbols: &[Symbol]) -> Result<(Option<Expr>, &[Symbol]), Fault>
    ensures read { Gives (λ x. (option_map term_of x.0, x.1.now)) result (value_at depth symbols.now) }
    ensures shorter { IfOk result (λ x. length x.1.now ≤ length symbols.now) }
{
    if begins_sign(Sign::Assign, symbols) {
        let (value, rest) = expr(alloc, Dialect::C, depth, behind_first(symbols))?;
        Ok((Some(value), rest))
    } else {
        Ok((None, symbols))
    }
}

#[tactic(auto, unfolding(crate::specs::Reading::local_at))]
fn local(
    alloc: Global,
    depth: u32,
    symbols: &[Symbol],
) -> Result<(LocalDeclarator, &[Symbol]), Fault>
    ensures read { Gives (λ x. (local_of x.0, x.1.now)) result (local_at depth symbols.now) }
    ensures shorter { IfOk result (λ x. length x.1.now < length symbols.now) }
{
    let (pointer, rest) = pointer(symbols)?;
    let (name, rest) = name(rest)?;
    let (initial, rest) = value(alloc, depth, rest)?;
    Ok((
        LocalDeclarator {
            pointer,
            name,
            initial,
        },
        rest,
    ))
}

/// Locals with commas between them.
fn declarators(
    alloc: Global,
    depth: u32,
    symbols: &[Symbol],
) -> Result<(Items<LocalDeclarator>, &[Symbol]), Fault>
    ensures read { Gives (λ x. (map local_of x.0, x.1.now)) result (listed_at (local_at depth) (length symbols.now) [] symbols.now) }
    ensures shorter { IfOk result (λ x. length x.1.now < length symbols.now) }
{
    let mut done = Items::new(alloc);
    let mut rest = symbols;
    loop {
        let (local, behind) = local(alloc, depth, rest)?;
        done.push(local)?;
        if !begins_sign(Sign::Comma, behind) {
            return Ok((done, behind));
        }
        rest = behind_first(behind);
    }
}

/// Locals of one base, without a semicolon.
#[tactic(auto, unfolding(crate::specs::Reading::declaration_at))]
pub(crate) fn locals(
    alloc: Global,
    depth: u32,
    symbols: &[Symbol],
) -> Result<(Locals, &[Symbol]), Fault>
    ensures read { Gives (λ x. (declaration_of x.0, x.1.now)) result (declaration_at depth symbols.now) }
    ensures shorter { IfOk result (λ x. length x.1.now < length symbols.now) }
{
    let (base, rest) = base(symbols)?;
    let (declarators, rest) = declarators(alloc, depth, rest)?;
    Ok((Locals { base, declarators }, rest))
}
