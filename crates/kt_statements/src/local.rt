//! Declarations of locals (ISO/IEC 9899:2011, 6.7).

ghost use Rattle.std.specs.Prelude.{◌≡◌, ◌+◌, ◌<◌, ◌≤◌, length, map, IfOk, OnOk, Some};
ghost use Rattle.std.specs.Option.{option_map};
ghost use Rattle.kt_grammar.specs.Tree.{term_of};
ghost use Rattle.kt_syntax.specs.Tree.{local_of, declaration_of};
ghost use Rattle.kt_program.specs.Judgments.{Judgment};
ghost use Rattle.kt_program.specs.Scopes.{declared, is_noted_once};
ghost use Rattle.kt_program.specs.Statements.{under, twice_fault, note_fault, initial, local, locals, behind_locals, declaration};
ghost use Rattle.kt_statements.specs.Judged.{Judges, JudgesLines, tree_made, lines_made, appended_of};
ghost use Rattle.kt_statements.specs.Scopes.{body_of, place_of, Fits};

use crate::answer::{Lines, both, under};
use crate::declarator::locals_base_fault;
use crate::line;
use crate::part::conversion;
use crate::scopes::{Body, Scopes};
use crate::whole::set_local;
use kt_calls::builtin::builtin_named;
use kt_declarations::declarator::{declarator_place, extent_fault, held_fault};
use kt_declarations::first::where_not;
use kt_grammar::{Base, Expr, Name};
use kt_syntax::{LocalDeclarator, Locals};
use kt_tree::Stmt;
use kt_typing::{Fault, Kind};
use sqlite_items::Items;
use std::alloc::AllocError;

/// A name stands once in a scope, and is no built-in call's.
pub(crate) fn twice_fault<'f>(body: &Body<'f>, scopes: &Scopes<'f>, name: &Name) -> Option<Fault>
    requires { Fits body.now scopes.now }
    ensures { result ≡ twice_fault (place_of scopes.now) name.now.word name.now.at }
{
    let word = name.word.as_bytes();
    let holds = builtin_named(word).is_none() && !scopes.has_own(body, word);
    where_not(holds, name.at, Kind::Twice)
}

// Whether the name may be a local's: with `E_NOTELOCALS` it stands once in the function.
#[tactic(auto, unfolding(kt_operands::specs::Views::scope_of))]
fn is_noted_once(body: &Body<'_>, scopes: &Scopes<'_>, name: &[u8]) -> bool
    ensures { result ≡ is_noted_once (body_of body.now) (place_of scopes.now) name.now }
{
    if !body.environment.noted {
        return true;
    }
    !body.has_among(scopes.next, name)
}

/// With `E_NOTELOCALS` a name stands once in the function.
pub(crate) fn note_fault(body: &Body<'_>, scopes: &Scopes<'_>, name: &Name) -> Option<Fault>
    ensures { result ≡ note_fault (body_of body.now) (place_of scopes.now) name.now.word name.now.at }
{
    let holds = is_noted_once(body, scopes, name.word.as_bytes());
    where_not(holds, name.at, Kind::Note)
}

// The initial value of a local, or that it has none.
fn initial(
    body: &Body<'_>,
    scopes: &Scopes<'_>,
    x: u32,
    at: u32,
    e: &Option<Expr>,
) -> Result<Lines, AllocError>
    requires fits { Fits body.now scopes.now }
    requires there { x < length (body_of body.now).environment.scope.locals }
    ensures { IfOk result (λ r. Judges lines_made (initial (body_of body.now) (place_of scopes.now) x at (option_map term_of e.now)) r) }
{
    let alloc = body.environment.alloc;
    match e {
        None => Ok(Ok(line::one(alloc, Stmt::Undefine(x))?)),
        Some(e) => {
            let ty = body.local_type(x);
            let value = conversion(body, scopes, ty, at, e)?;
            set_local(alloc, x, value)
        }
    }
}

// A local, which is in scope in its own initial value.
fn local<'f>(
    body: &Body<'f>,
    scopes: &mut Scopes<'f>,
    base: &Base,
    l: &'f LocalDeclarator,
) -> Result<Lines, AllocError>
    requires fits { Fits body.now scopes.old }
    requires room { (place_of scopes.old).next < length (body_of body.now).environment.scope.locals }
    ensures typed { IfOk result (λ r. Judges lines_made (local (body_of body.now) (place_of scopes.old) base.now (local_of l.now)) r) }
    ensures fits { OnOk result (Fits body.now scopes.new) }
    ensures place { OnOk result (place_of scopes.new ≡ declared (place_of scopes.old) l.now.name.word) }
{
    let outside = &body.environment;
    let held = held_fault(outside, base, &l.pointer, &l.name);
    let extent = extent_fault(outside, &l.pointer);
    let twice = twice_fault(body, scopes, &l.name);
    let note = note_fault(body, scopes, &l.name);
    let x = scopes.next;
    scopes.declare(body, l.name.word.as_bytes())?;
    let at = declarator_place(&l.pointer, &l.name);
    let value = initial(body, scopes, x, at, &l.initial)?;
    Ok(under(held, under(extent, under(twice, under(note, value)))))
}

/// Statements behind others, which may have faults both.
pub(crate) fn appended(all: Lines, more: Lines) -> Result<Lines, AllocError>
    ensures { IfOk result (λ r. r ≡ appended_of all more) }
{
    match both(all, more) {
        Ok((mut lines, rest)) => {
            lines.append(rest)?;
            Ok(Ok(lines))
        }
        Err(f) => Ok(Err(f)),
    }
}

// Locals, each in scope behind its declarator.
fn locals<'f>(
    body: &Body<'f>,
    scopes: &mut Scopes<'f>,
    base: &Base,
    ls: &'f [LocalDeclarator],
) -> Result<Lines, AllocError>
    requires fits { Fits body.now scopes.old }
    requires room { (place_of scopes.old).next + length ls.now ≤ length (body_of body.now).environment.scope.locals }
    ensures typed { IfOk result (λ r. JudgesLines (locals (body_of body.now) (place_of scopes.old) base.now (map local_of ls.now)) r) }
    ensures fits { OnOk result (Fits body.now scopes.new) }
    ensures place { OnOk result (place_of scopes.new ≡ behind_locals (place_of scopes.old) (map local_of ls.now)) }
{
    let mut all: Lines = Ok(Items::new(body.environment.alloc));
    for declarator in ls {
        let one = local(body, scopes, base, declarator)?;
        all = appended(all, one)?;
    }
    Ok(all)
}

/// A declaration of locals.
pub(crate) fn declaration<'f>(
    body: &Body<'f>,
    scopes: &mut Scopes<'f>,
    d: &'f Locals,
) -> Result<Lines, AllocError>
    requires fits { Fits body.now scopes.old }
    requires room { (place_of scopes.old).next + length d.now.declarators ≤ length (body_of body.now).environment.scope.locals }
    ensures typed { IfOk result (λ r. Judges lines_made (declaration (body_of body.now) (place_of scopes.old) (declaration_of d.now)) r) }
    ensures fits { OnOk result (Fits body.now scopes.new) }
    ensures place { OnOk result (place_of scopes.new ≡ behind_locals (place_of scopes.old) (map local_of d.now.declarators)) }
{
    let ls = d.declarators.as_slice();
    let broken = locals_base_fault(&body.environment, &d.base, ls);
    let all = locals(body, scopes, &d.base, ls)?;
    Ok(under(broken, all))
}
