//! Functions inside: their parameters and bodies (ISO/IEC 9899:2011, 6.9.1).

ghost use Rattle.std.specs.Prelude.{◌≡◌, ◌+◌, ◌<◌, ◌≤◌, ◌^◌, length, IfOk, OnOk};
ghost use Rattle.std.specs.Option.{option_map};
ghost use Rattle.kt_syntax.specs.Tree.{definition_of, routine_of};
ghost use Rattle.kt_program.specs.Functions.{parameter, parameters, behind_parameters};
ghost use Rattle.kt_program.specs.Scopes.{declared};
ghost use Rattle.kt_statements.specs.Functions.{locals_of_body, behind_body, body_at, inside};
ghost use Rattle.kt_statements.specs.Judged.{Judges, JudgesLines, lines_made};
ghost use Rattle.kt_statements.specs.Scopes.{body_of, place_of, meaning_in, Fits};

use crate::answer::{Lines, under};
use crate::declarator::parameter_base_fault;
use crate::local::{appended, note_fault, twice_fault};
use crate::scopes::{Body, Scopes};
use crate::statement::entries;
use crate::whole;
use indexmap::IndexMap;
use kt_declarations::declarator::{extent_fault, held_fault};
use kt_operands::meaning::Meaning;
use kt_syntax::{Function, Parameter};
use sqlite_items::Items;
use std::alloc::AllocError;

// A parameter, which gives no statements.
fn parameter<'f>(
    body: &Body<'f>,
    scopes: &mut Scopes<'f>,
    x: &'f Parameter,
) -> Result<Lines, AllocError>
    requires fits { Fits body.now scopes.old }
    requires room { (place_of scopes.old).next < length (body_of body.now).environment.scope.locals }
    ensures typed { IfOk result (λ r. Judges lines_made (parameter (body_of body.now) (place_of scopes.old) x.now) r) }
    ensures fits { OnOk result (Fits body.now scopes.new) }
    ensures place { OnOk result (place_of scopes.new ≡ declared (place_of scopes.old) x.now.name.word) }
{
    let outside = &body.environment;
    let base = parameter_base_fault(outside, &x.base, &x.pointer);
    let held = held_fault(outside, &x.base, &x.pointer, &x.name);
    let extent = extent_fault(outside, &x.pointer);
    let twice = twice_fault(body, scopes, &x.name);
    let note = note_fault(body, scopes, &x.name);
    scopes.declare(body, x.name.word.as_bytes())?;
    let nothing: Lines = Ok(Items::new(body.environment.alloc));
    let named = under(twice, under(note, nothing));
    Ok(under(base, under(held, under(extent, named))))
}

// Parameters, each in scope behind its declarator.
fn parameters<'f>(
    body: &Body<'f>,
    scopes: &mut Scopes<'f>,
    xs: &'f [Parameter],
) -> Result<Lines, AllocError>
    requires fits { Fits body.now scopes.old }
    requires room { (place_of scopes.old).next + length xs.now ≤ length (body_of body.now).environment.scope.locals }
    ensures typed { IfOk result (λ r. JudgesLines (parameters (body_of body.now) (place_of scopes.old) xs.now) r) }
    ensures fits { OnOk result (Fits body.now scopes.new) }
    ensures place { OnOk result (place_of scopes.new ≡ behind_parameters (place_of scopes.old) xs.now) }
{
    let mut all: Lines = Ok(Items::new(body.environment.alloc));
    for x in xs {
        let one = parameter(body, scopes, x)?;
        all = appended(all, one)?;
    }
    Ok(all)
}

// The body of a function, where it has one, behind its parameters.
fn definition<'f>(
    body: &Body<'f>,
    scopes: &mut Scopes<'f>,
    d: &'f Option<kt_syntax::Body>,
) -> Result<Lines, AllocError>
    requires fits { Fits body.now scopes.old }
    requires room { (place_of scopes.old).next + locals_of_body (option_map definition_of d.now) ≤ length (body_of body.now).environment.scope.locals }
    ensures typed { IfOk result (λ r. Judges lines_made (body_at (body_of body.now) (place_of scopes.old) (option_map definition_of d.now)) r) }
    ensures fits { OnOk result (Fits body.now scopes.new) }
    ensures place { OnOk result (place_of scopes.new ≡ behind_body (place_of scopes.old) (option_map definition_of d.now)) }
{
    let alloc = body.environment.alloc;
    match d {
        None => Ok(Ok(Items::new(alloc))),
        Some(d) => {
            let lines = entries(&d.entries, body, scopes)?;
            whole::block(alloc, lines)
        }
    }
}

/// A function inside: its parameters, and its body where it has one, in one scope. The names mean then what they meant before.
pub fn function<'f>(
    body: &Body<'f>,
    names: IndexMap<Vec<u8>, Meaning>,
    f: &'f Function,
) -> Result<(IndexMap<Vec<u8>, Meaning>, Lines), AllocError>
    requires count { length (body_of body.now).environment.scope.locals < 2 ^ 32 }
    requires room { length f.now.parameters + locals_of_body (option_map definition_of f.now.body) ≤ length (body_of body.now).environment.scope.locals }
    requires names { meaning_in names.entries ≡ (body_of body.now).environment.name }
    ensures typed { IfOk result (λ r. Judges lines_made (inside (body_of body.now) (routine_of f.now)) r.1) }
    ensures names { IfOk result (λ r. meaning_in r.0.entries ≡ (body_of body.now).environment.name) }
{
    let mut scopes = Scopes::new(body.environment.alloc, names);
    let mark = scopes.mark();
    let heads = parameters(body, &mut scopes, f.parameters.as_slice())?;
    let block = definition(body, &mut scopes, &f.body)?;
    scopes.leave(body, mark);
    let lines = appended(heads, block)?;
    Ok((scopes.names, lines))
}
