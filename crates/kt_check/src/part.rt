//! Expressions as parts of statements (ISO/IEC 9899:2011, 6.8).

ghost use Rattle.std.specs.Prelude.{◌≡◌, Ok};
ghost use Rattle.std.specs.Option.{option_map};
ghost use Rattle.kt_grammar.specs.Tree.{term_of};
ghost use Rattle.kt_tree.specs.Tree.{expression_of, statement_of, Returned};
ghost use Rattle.kt_names.specs.Checked.{and_then};
ghost use Rattle.kt_names.specs.Judges.{Judges};
ghost use Rattle.kt_names.specs.Terms.{typing, first_token};
ghost use Rattle.kt_names.specs.Statements.{here, effect, effect_of, condition, perhaps, returned};
ghost use Rattle.kt_names.specs.Views.{environment_of, operand_of, value_of};
ghost use Rattle.kt_names.specs.Scopes.{state_of, body_of, scalar_of, returned_of};

use kt_grammar::Expr;
use kt_names::body::Body;
use kt_names::ctype::CType;
use kt_names::environment::Environment;
use kt_names::fault::CheckFault;
use kt_names::info::Scopes;
use kt_names::operand::Operand;
use kt_terms::term::{first_token, typing};
use kt_tree::Stmt;

/// An integer or a pointer, as an expression.
fn scalar_of(env: &Environment<'_>, at: u32, operand: Operand) -> Result<kt_tree::Expr, CheckFault>
    ensures { Judges expression_of result (scalar_of (environment_of env.now) at (operand_of operand)) }
{
    match operand.scalar(env, at, at) {
        Ok(value) => Ok(value.expression),
        Err(fault) => Err(fault),
    }
}

/// An operand whose value, if it has one, is dropped.
fn effect(env: &Environment<'_>, at: u32, operand: Operand) -> Result<kt_tree::Expr, CheckFault>
    ensures { Judges expression_of result (effect (environment_of env.now) at (operand_of operand)) }
{
    match operand {
        Operand::NoResult(whole) => Ok(whole),
        Operand::Valued(t, whole) => scalar_of(env, at, Operand::Valued(t, whole)),
        Operand::Zero => scalar_of(env, at, Operand::Zero),
        Operand::Null => scalar_of(env, at, Operand::Null),
        Operand::LocalPlace(x, t) => scalar_of(env, at, Operand::LocalPlace(x, t)),
        Operand::CellPlace(t, p) => scalar_of(env, at, Operand::CellPlace(t, p)),
        Operand::ArrayPlace(t, p) => scalar_of(env, at, Operand::ArrayPlace(t, p)),
        Operand::WholePlace(t, p) => scalar_of(env, at, Operand::WholePlace(t, p)),
    }
}

/// An expression whose value, if it has one, is dropped.
fn effect_in(env: &Environment<'_>, e: &Expr) -> Result<kt_tree::Expr, CheckFault>
    ensures { Judges expression_of result (effect_of (environment_of env.now) (term_of e.now)) }
{
    let at = first_token(e);
    match typing(env, e) {
        Ok(operand) => effect(env, at, operand),
        Err(fault) => Err(fault),
    }
}

/// A condition: an integer or a pointer.
fn condition_in(env: &Environment<'_>, e: &Expr) -> Result<kt_tree::Expr, CheckFault>
    ensures { Judges expression_of result (condition (environment_of env.now) (term_of e.now)) }
{
    let at = first_token(e);
    match typing(env, e) {
        Ok(operand) => scalar_of(env, at, operand),
        Err(fault) => Err(fault),
    }
}

/// An expression whose value, if it has one, is dropped, where these names are in scope.
pub(crate) fn effect_of(
    body: &Body<'_, '_, '_>,
    scopes: &Scopes,
    e: &Expr,
) -> Result<kt_tree::Expr, CheckFault>
    ensures { Judges expression_of result (effect_of (here (body_of body.now) (state_of scopes.now)) (term_of e.now)) }
{
    effect_in(&body.here(scopes), e)
}

/// A condition, where these names are in scope.
pub(crate) fn condition(
    body: &Body<'_, '_, '_>,
    scopes: &Scopes,
    e: &Expr,
) -> Result<kt_tree::Expr, CheckFault>
    ensures { Judges expression_of result (condition (here (body_of body.now) (state_of scopes.now)) (term_of e.now)) }
{
    condition_in(&body.here(scopes), e)
}

/// The test of a `for`, if it has one.
pub(crate) fn test(
    body: &Body<'_, '_, '_>,
    scopes: &Scopes,
    e: &Option<Expr>,
) -> Result<Option<kt_tree::Expr>, CheckFault>
    ensures { Judges (option_map expression_of) result (perhaps (condition (here (body_of body.now) (state_of scopes.now))) (option_map term_of e.now)) }
{
    match e {
        None => Ok(None),
        Some(e) => match condition(body, scopes, e) {
            Ok(whole) => Ok(Some(whole)),
            Err(fault) => Err(fault),
        },
    }
}

/// What a `for` evaluates after each body, if it has it.
pub(crate) fn step(
    body: &Body<'_, '_, '_>,
    scopes: &Scopes,
    e: &Option<Expr>,
) -> Result<Option<kt_tree::Expr>, CheckFault>
    ensures { Judges (option_map expression_of) result (perhaps (effect_of (here (body_of body.now) (state_of scopes.now))) (option_map term_of e.now)) }
{
    match e {
        None => Ok(None),
        Some(e) => match effect_of(body, scopes, e) {
            Ok(whole) => Ok(Some(whole)),
            Err(fault) => Err(fault),
        },
    }
}

/// The return of an operand, as a value of a type.
fn returned_by(
    env: &Environment<'_>,
    t: CType,
    at: u32,
    operand: Operand,
) -> Result<Stmt, CheckFault>
    ensures { Judges statement_of result (returned_of (environment_of env.now) t at (operand_of operand)) }
{
    match operand.convert(env, t, at, at) {
        Ok(value) => Ok(Stmt::Return(Some(value))),
        Err(fault) => Err(fault),
    }
}

/// The return of an expression's value, as a value of a type.
fn returned_value(env: &Environment<'_>, t: CType, e: &Expr) -> Result<Stmt, CheckFault>
    ensures { Judges statement_of result (and_then (typing (environment_of env.now) (term_of e.now)) (returned_of (environment_of env.now) t (first_token (term_of e.now)))) }
{
    let at = first_token(e);
    match typing(env, e) {
        Ok(operand) => returned_by(env, t, at, operand),
        Err(fault) => Err(fault),
    }
}

/// A `return`, in a function with a result or without.
pub(crate) fn returned(
    body: &Body<'_, '_, '_>,
    scopes: &Scopes,
    at: u32,
    e: &Option<Expr>,
) -> Result<Stmt, CheckFault>
    ensures { Judges statement_of result (returned (body_of body.now) (state_of scopes.now) at (option_map term_of e.now)) }
{
    match e {
        None => match body.result {
            Some(_) => Err(CheckFault::BadType { at }),
            None => Ok(Stmt::Return(None)),
        },
        Some(e) => match body.result {
            Some(t) => returned_value(&body.here(scopes), t, e),
            None => Err(CheckFault::BadType { at }),
        },
    }
}
