//! Globals.

ghost use Rattle.std.specs.Prelude.{◌≡◌, ◌<◌, ◌≤◌, [], ◌∷◌, length, drop, if◌then◌else◌, Ok, IfOk};
ghost use Rattle.kt_grammar.specs.Cursor.{Gives, begins_sign, listed_at};
ghost use Rattle.kt_syntax.specs.Tree.{external_of};
ghost use Rattle.kt_syntax.specs.Reading.{global_behind, global_at, globals_behind};

use super::constant::initial;
use super::declarator::declarator_behind;
use super::pointer::pointer;
use super::tree::{GlobalDeclarator, Item, Pointer};
use kt_grammar::{Base, Fault, Name, Sign, Symbol, begins_sign, behind, behind_first, name};
use sqlite_items::Items;
use std::alloc::Global;

/// A global behind its stars and name.
#[tactic(auto, unfolding(crate::specs::Reading::global_behind))]
pub(crate) fn global_behind(
    alloc: Global,
    pointer: Option<Pointer>,
    name: Name,
    symbols: &[Symbol],
) -> Result<(GlobalDeclarator, &[Symbol]), Fault>
    ensures read { Gives (λ x. (x.0, x.1.now)) result (global_behind pointer name symbols.now) }
    ensures shorter { IfOk result (λ x. length x.1.now ≤ length symbols.now) }
{
    let (declarator, rest) = declarator_behind(pointer, name, symbols)?;
    let (initial, rest) = initial(alloc, rest)?;
    Ok((
        GlobalDeclarator {
            declarator,
            initial,
        },
        rest,
    ))
}

#[tactic(auto, unfolding(crate::specs::Reading::global_at))]
fn global(alloc: Global, symbols: &[Symbol]) -> Result<(GlobalDeclarator, &[Symbol]), Fault>
    ensures read { Gives (λ x. (x.0, x.1.now)) result (global_at symbols.now) }
    ensures shorter { IfOk result (λ x. length x.1.now < length symbols.now) }
{
    let (pointer, rest) = pointer(symbols)?;
    let (name, rest) = name(rest)?;
    global_behind(alloc, pointer, name, rest)
}

/// The first global, and those behind its comma.
fn globals(
    alloc: Global,
    first: GlobalDeclarator,
    symbols: &[Symbol],
) -> Result<(Items<GlobalDeclarator>, &[Symbol]), Fault>
    ensures read { Gives (λ x. (x.0, x.1.now)) result (if begins_sign Sign.Comma symbols.now then listed_at global_at (length symbols.now) (first ∷ []) (drop 1 symbols.now) else Ok (first ∷ [], symbols.now)) }
    ensures shorter { IfOk result (λ x. length x.1.now ≤ length symbols.now) }
{
    let mut done = Items::new(alloc);
    done.push(first)?;
    let mut rest = symbols;
    while begins_sign(Sign::Comma, rest) {
        let (global, behind) = global(alloc, behind_first(rest))?;
        done.push(global)?;
        rest = behind;
    }
    Ok((done, rest))
}

/// Globals behind the first one, and their semicolon.
#[tactic(auto, unfolding(crate::specs::Reading::globals_behind))]
pub(crate) fn globals_behind(
    alloc: Global,
    base: Base,
    first: GlobalDeclarator,
    symbols: &[Symbol],
) -> Result<(Item, &[Symbol]), Fault>
    ensures read { Gives (λ x. (external_of x.0, x.1.now)) result (globals_behind base first symbols.now) }
    ensures shorter { IfOk result (λ x. length x.1.now < length symbols.now) }
{
    let (globals, rest) = globals(alloc, first, symbols)?;
    let rest = behind(Sign::Semicolon, rest)?;
    Ok((Item::Globals(base, globals), rest))
}
