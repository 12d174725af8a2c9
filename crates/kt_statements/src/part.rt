//! Expressions of statements, at a place in a function.

ghost use Rattle.std.specs.Prelude.{IfOk};
ghost use Rattle.std.specs.Option.{option_map};
ghost use Rattle.kt_grammar.specs.Tree.{term_of};
ghost use Rattle.kt_typing.specs.Terms.{effect, condition, conversion};
ghost use Rattle.kt_program.specs.Judgments.{Judgment, Expressed};
ghost use Rattle.kt_program.specs.Scopes.{here};
ghost use Rattle.kt_program.specs.Statements.{perhaps};
ghost use Rattle.kt_statements.specs.Judged.{Judges, tree_made, option_made};
ghost use Rattle.kt_statements.specs.Scopes.{body_of, place_of, Fits};

use crate::answer::{Tree, told};
use crate::scopes::{Body, Scopes};
use crate::whole::Perhaps;
use kt_expressions::statement as expressions;
use kt_grammar::Expr;
use std::alloc::AllocError;

/// An expression whose value, if it has one, is not used.
pub(crate) fn effect(body: &Body<'_>, scopes: &Scopes<'_>, e: &Expr) -> Result<Tree, AllocError>
    requires { Fits body.now scopes.now }
    ensures { IfOk result (λ r. Judges tree_made (Expressed (effect (here (body_of body.now) (place_of scopes.now)) (term_of e.now))) r) }
{
    let env = body.here(scopes);
    told(expressions::effect(&env, e))
}

/// A condition.
pub(crate) fn condition(body: &Body<'_>, scopes: &Scopes<'_>, e: &Expr) -> Result<Tree, AllocError>
    requires { Fits body.now scopes.now }
    ensures { IfOk result (λ r. Judges tree_made (Expressed (condition (here (body_of body.now) (place_of scopes.now)) (term_of e.now))) r) }
{
    let env = body.here(scopes);
    told(expressions::condition(&env, e))
}

/// A value that converts to a type; the fault where it doesn't is at this place.
pub(crate) fn conversion(
    body: &Body<'_>,
    scopes: &Scopes<'_>,
    ty: u32,
    at: u32,
    e: &Expr,
) -> Result<Tree, AllocError>
    requires { Fits body.now scopes.now }
    ensures { IfOk result (λ r. Judges tree_made (Expressed (conversion (here (body_of body.now) (place_of scopes.now)) ty at (term_of e.now))) r) }
{
    let env = body.here(scopes);
    told(expressions::conversion(&env, ty, at, e))
}

// What may be missing, there.
fn there(tree: Tree) -> Perhaps
    ensures { (j : Judgment) → Judges tree_made j tree → Judges option_made j result }
{
    match tree {
        Ok(e) => Ok(Some(e)),
        Err(f) => Err(f),
    }
}

/// A test that may be missing.
pub(crate) fn test(
    body: &Body<'_>,
    scopes: &Scopes<'_>,
    e: &Option<Expr>,
) -> Result<Perhaps, AllocError>
    requires { Fits body.now scopes.now }
    ensures { IfOk result (λ r. Judges option_made (perhaps (λ e. Expressed (condition (here (body_of body.now) (place_of scopes.now)) e)) (option_map term_of e.now)) r) }
{
    match e {
        None => Ok(Ok(None)),
        Some(e) => {
            let tree = condition(body, scopes, e)?;
            Ok(there(tree))
        }
    }
}

/// A step that may be missing.
pub(crate) fn step(
    body: &Body<'_>,
    scopes: &Scopes<'_>,
    e: &Option<Expr>,
) -> Result<Perhaps, AllocError>
    requires { Fits body.now scopes.now }
    ensures { IfOk result (λ r. Judges option_made (perhaps (λ e. Expressed (effect (here (body_of body.now) (place_of scopes.now)) e)) (option_map term_of e.now)) r) }
{
    match e {
        None => Ok(Ok(None)),
        Some(e) => {
            let tree = effect(body, scopes, e)?;
            Ok(there(tree))
        }
    }
}
