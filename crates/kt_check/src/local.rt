//! Declarations of locals (ISO/IEC 9899:2011, 6.7).

ghost use Rattle.std.specs.Prelude.{◌≡◌, List, [], ◌++◌, map, OnOk, Ok};
ghost use Rattle.std.specs.Option.{option_map};
ghost use Rattle.kt_grammar.specs.Tree.{term_of};
ghost use Rattle.kt_syntax.specs.Tree.{local_of, declaration_of};
ghost use Rattle.kt_tree.specs.Tree.{statement_of, expression_of, Evaluated, LocalSet};
ghost use Rattle.kt_names.specs.Checked.{and_then, both};
ghost use Rattle.kt_names.specs.Judges.{Judges};
ghost use Rattle.kt_names.specs.Types.{ctype};
ghost use Rattle.kt_names.specs.Uses.{stars_of};
ghost use Rattle.kt_names.specs.Operands.{convert};
ghost use Rattle.kt_names.specs.Terms.{typing, first_token};
ghost use Rattle.kt_names.specs.Statements.{here, declared, declarator_place, held, pointer_outside, new_name, initial, local, locals_from, locals, base_for};
ghost use Rattle.kt_names.specs.Views.{environment_of, operand_of};
ghost use Rattle.kt_names.specs.Scopes.{state_of, body_of, part_of, Grown};

use crate::declarator::{
    base_for, ctype, declarator_place, held, is_one_plain, pointer_outside, stars_of,
};
use kt_grammar::{Base, Name};
use kt_names::body::Body;
use kt_names::builtin::builtin_named;
use kt_names::ctype::CType;
use kt_names::environment::Environment;
use kt_names::fault::CheckFault;
use kt_names::info::Scopes;
use kt_names::judged::both;
use kt_names::node;
use kt_names::operand::Operand;
use kt_syntax::{LocalDeclarator, Locals};
use kt_terms::term::{first_token, typing};
use kt_tree::{Expr, Stmt};
use sqlite_items::Items;
use std::alloc::Global;

/// A local's name is no built-in call's, is once in its scope, and with `E_NOTELOCALS` once in the function.
pub(crate) fn new_name(
    body: &Body<'_, '_, '_>,
    scopes: &Scopes,
    name: &Name,
) -> Result<(), CheckFault>
    ensures { Judges (λ _. tt) result (new_name (body_of body.now) (state_of scopes.now) name.now) }
{
    let word = name.word.as_bytes();
    if builtin_named(word).is_some() || scopes.has_own(word) {
        return Err(CheckFault::Twice { at: name.at });
    }
    if body.noted && body.has_among(scopes.next, word) {
        return Err(CheckFault::Note { at: name.at });
    }
    Ok(())
}

/// A local that takes a value.
fn local_taken(alloc: Global, x: u32, value: Expr) -> Result<Stmt, CheckFault>
    ensures { Judges statement_of result (Ok (Evaluated (LocalSet x (expression_of value)))) }
{
    let whole = node::local_set(alloc, x, value)?;
    Ok(Stmt::Expr(whole))
}

/// A local that takes an operand as its initial value.
#[tactic(auto, using(kt_names::proofs::Parts::parts))]
fn initialised_by(
    env: &Environment<'_>,
    local: (u32, CType),
    own: u32,
    up: u32,
    operand: Operand,
) -> Result<Stmt, CheckFault>
    ensures { Judges statement_of result (and_then (convert (environment_of env.now) local.1 own up (operand_of operand)) (λ v. Ok (Evaluated (LocalSet local.0 v)))) }
{
    match operand.convert(env, local.1, own, up) {
        Ok(value) => local_taken(env.alloc, local.0, value),
        Err(fault) => Err(fault),
    }
}

/// A local that takes the value of an expression.
#[tactic(auto, using(kt_names::proofs::Parts::parts))]
fn initialised(
    env: &Environment<'_>,
    local: (u32, CType),
    up: u32,
    e: &kt_grammar::Expr,
) -> Result<Stmt, CheckFault>
    ensures { Judges statement_of result (and_then (typing (environment_of env.now) (term_of e.now)) (λ o. and_then (convert (environment_of env.now) local.1 (first_token (term_of e.now)) up o) (λ v. Ok (Evaluated (LocalSet local.0 v))))) }
{
    let own = first_token(e);
    match typing(env, e) {
        Ok(operand) => initialised_by(env, local, own, up, operand),
        Err(fault) => Err(fault),
    }
}

/// The initial value of a local, in whose scope the local is.
fn initial(
    body: &Body<'_, '_, '_>,
    scopes: &Scopes,
    local: (u32, CType),
    up: u32,
    e: &Option<kt_grammar::Expr>,
) -> Result<Stmt, CheckFault>
    ensures { Judges statement_of result (initial (body_of body.now) (state_of scopes.now) local.0 local.1 up (option_map term_of e.now)) }
{
    match e {
        None => Ok(Stmt::Undefine(local.0)),
        Some(e) => initialised(&body.here(scopes), local, up, e),
    }
}

/// What a local holds, where these names are in scope.
fn held_here(
    body: &Body<'_, '_, '_>,
    scopes: &Scopes,
    base: &Base,
    l: &LocalDeclarator,
) -> Result<(), CheckFault>
    ensures { Judges (λ _. tt) result (held (here (body_of body.now) (state_of scopes.now)) base.now l.now.pointer l.now.name) }
{
    held(&body.here(scopes), base, &l.pointer, &l.name)
}

/// A local's `E_PTRARRAY`, where these names are in scope.
fn extent_here(
    body: &Body<'_, '_, '_>,
    scopes: &Scopes,
    l: &LocalDeclarator,
) -> Result<(), CheckFault>
    ensures { Judges (λ _. tt) result (pointer_outside (here (body_of body.now) (state_of scopes.now)) l.now.pointer) }
{
    pointer_outside(&body.here(scopes), &l.pointer)
}

/// The base of locals.
fn base_here(body: &Body<'_, '_, '_>, scopes: &Scopes, d: &Locals) -> Result<(), CheckFault>
    ensures { Judges (λ _. tt) result (base_for (here (body_of body.now) (state_of scopes.now)) d.now.base (map (λ l. stars_of l.pointer) (declaration_of d.now).locals)) }
{
    let plain = is_one_plain(d.declarators.as_slice());
    base_for(&body.here(scopes), &d.base, plain)
}

/// The parts of a local, of which the last is its initial value; the local is declared.
fn local_parts(
    l: &LocalDeclarator,
    base: &Base,
    body: &Body<'_, '_, '_>,
    scopes: &mut Scopes,
) -> Result<((), ((), ((), Stmt))), CheckFault>
    ensures judged { Judges part_of result (both (held (here (body_of body.now) (state_of scopes.old)) base.now l.now.pointer l.now.name) (both (pointer_outside (here (body_of body.now) (state_of scopes.old)) l.now.pointer) (both (new_name (body_of body.now) (state_of scopes.old) l.now.name) (initial (body_of body.now) (declared (state_of scopes.old) l.now.name.word) (state_of scopes.old).next (ctype (body_of body.now).environment.names base.now (stars_of l.now.pointer)) (declarator_place l.now.pointer l.now.name) (option_map term_of l.now.initial))))) }
    ensures declared { OnOk result (state_of scopes.new ≡ declared (state_of scopes.old) l.now.name.word) }
    ensures grown { OnOk result (Grown scopes.old scopes.new) }
{
    let t = ctype(body.outside, base, stars_of(&l.pointer))?;
    let is_held = held_here(body, scopes, base, l);
    let pointer = extent_here(body, scopes, l);
    let is_new = new_name(body, scopes, &l.name);
    let x = scopes.next;
    scopes.declare(l.name.word.as_bytes())?;
    let up = declarator_place(&l.pointer, &l.name);
    let value = initial(body, scopes, (x, t), up, &l.initial);
    both(is_held, both(pointer, both(is_new, value)))
}

/// A local, which is declared.
fn local(
    l: &LocalDeclarator,
    base: &Base,
    body: &Body<'_, '_, '_>,
    scopes: &mut Scopes,
) -> Result<Stmt, CheckFault>
    ensures judged { Judges (λ s. (statement_of s, state_of scopes.new)) result (local (body_of body.now) (state_of scopes.old) base.now (local_of l.now)) }
    ensures grown { OnOk result (Grown scopes.old scopes.new) }
{
    match local_parts(l, base, body, scopes) {
        Ok((_, (_, (_, statement)))) => Ok(statement),
        Err(fault) => Err(fault),
    }
}

/// Locals of one base, one after the other.
fn locals_from(
    declarators: &[LocalDeclarator],
    base: &Base,
    body: &Body<'_, '_, '_>,
    scopes: &mut Scopes,
) -> Result<Items<Stmt>, CheckFault>
    ensures judged { Judges (λ ss. (map statement_of ss, state_of scopes.new)) result (locals_from (body_of body.now) (state_of scopes.old) base.now (map local_of declarators.now)) }
    ensures grown { OnOk result (Grown scopes.old scopes.new) }
{
    let mut statements = Items::new(body.outside.alloc);
    for declarator in declarators {
        match local(declarator, base, body, scopes) {
            Ok(statement) => statements.push(statement)?,
            Err(fault) => return Err(fault),
        }
    }
    Ok(statements)
}

/// A declaration of locals.
pub(crate) fn locals(
    d: &Locals,
    body: &Body<'_, '_, '_>,
    scopes: &mut Scopes,
) -> Result<Items<Stmt>, CheckFault>
    ensures judged { Judges (λ ss. (map statement_of ss, state_of scopes.new)) result (locals (body_of body.now) (state_of scopes.old) (declaration_of d.now)) }
    ensures grown { OnOk result (Grown scopes.old scopes.new) }
{
    match base_here(body, scopes, d) {
        Ok(_) => locals_from(d.declarators.as_slice(), &d.base, body, scopes),
        Err(fault) => Err(fault),
    }
}
