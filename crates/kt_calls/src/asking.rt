//! Built-in calls that are requests of their arguments.

ghost use Rattle.std.specs.Prelude.{[], ◌∷◌, Some, None};
ghost use Rattle.kt_tree.specs.declared.expr.Request.TheVariants as request;
ghost use Rattle.kt_tree.specs.Kinds.{int_type};
ghost use Rattle.kt_typing.specs.Calls.{Plain, Nullable, NullItself, argument_values, asked};
ghost use Rattle.kt_operands.specs.Judged.{Follows};
ghost use Rattle.kt_operands.specs.Views.{environment_of, scope_of, operand_of};
ghost use Rattle.kt_calls.specs.Arguments.{operands_of};

use crate::argument::{Answer, is_null_word, only, two};
use kt_operands::environment::Environment;
use kt_operands::given::{requested, requested_of};
use kt_operands::operand::{Operand, bad_type};
use kt_operands::types::INT;
use kt_tree::Request;

/// A request of nothing.
#[tactic(auto, using(crate::proofs::Askings::askings))]
pub(crate) fn asked_nothing(
    env: &Environment<'_>,
    at: u32,
    request: Request,
    ty: Option<u32>,
    arguments: Vec<Operand>,
) -> Answer
    ensures { Follows operand_of (asked (environment_of env.now) at request ty (argument_values (scope_of env.now) [] (operands_of arguments))) result }
{
    if !arguments.is_empty() {
        drop((request, arguments));
        return Err(bad_type(at));
    }
    requested(env, at, request, ty)
}

// A request of the value of an argument.
#[tactic(auto, using(crate::proofs::Askings::askings))]
fn asked_value(env: &Environment<'_>, at: u32, request: Request, x: Operand) -> Answer
    ensures { Follows operand_of (asked (environment_of env.now) at request (Some int_type) (argument_values (scope_of env.now) (Plain ∷ []) (operand_of x ∷ []))) result }
{
    match x.value(env, at) {
        Ok(v) => requested_of(env, at, request, Some(INT), v),
        Err(e) => {
            drop(request);
            Err(e)
        }
    }
}

/// A request of a value.
#[tactic(auto, using(crate::proofs::Askings::askings))]
pub(crate) fn asked_one(
    env: &Environment<'_>,
    at: u32,
    request: Request,
    arguments: Vec<Operand>,
) -> Answer
    ensures { Follows operand_of (asked (environment_of env.now) at request (Some int_type) (argument_values (scope_of env.now) (Plain ∷ []) (operands_of arguments))) result }
{
    match only(arguments) {
        Some(x) => asked_value(env, at, request, x),
        None => {
            drop(request);
            Err(bad_type(at))
        }
    }
}

// `free` of an argument, which may be null.
#[tactic(auto, using(crate::proofs::Askings::askings))]
fn released_value(env: &Environment<'_>, at: u32, x: Operand) -> Answer
    ensures { Follows operand_of (asked (environment_of env.now) at request.Release None (argument_values (scope_of env.now) (Nullable ∷ []) (operand_of x ∷ []))) result }
{
    match x.scalar(env, at) {
        Ok(v) => requested_of(env, at, Request::Release, None, v),
        Err(e) => Err(e),
    }
}

/// `free`
#[tactic(auto, using(crate::proofs::Askings::askings))]
pub(crate) fn released(env: &Environment<'_>, at: u32, arguments: Vec<Operand>) -> Answer
    ensures { Follows operand_of (asked (environment_of env.now) at request.Release None (argument_values (scope_of env.now) (Nullable ∷ []) (operands_of arguments))) result }
{
    match only(arguments) {
        Some(x) => released_value(env, at, x),
        None => Err(bad_type(at)),
    }
}

// `pthread_mutex_init` of two arguments, of which the second is `NULL`.
#[tactic(auto, using(crate::proofs::Askings::askings))]
fn initialised_as(env: &Environment<'_>, at: u32, x: Operand, null: Operand) -> Answer
    ensures { Follows operand_of (asked (environment_of env.now) at request.InitMutex (Some int_type) (argument_values (scope_of env.now) (Plain ∷ NullItself ∷ []) (operand_of x ∷ operand_of null ∷ []))) result }
{
    if !is_null_word(&null) {
        drop((x, null));
        return Err(bad_type(at));
    }
    drop(null);
    match x.value(env, at) {
        Ok(v) => requested_of(env, at, Request::InitMutex, Some(INT), v),
        Err(e) => Err(e),
    }
}

/// `pthread_mutex_init`
#[tactic(auto, using(crate::proofs::Askings::askings))]
pub(crate) fn initialised(env: &Environment<'_>, at: u32, arguments: Vec<Operand>) -> Answer
    ensures { Follows operand_of (asked (environment_of env.now) at request.InitMutex (Some int_type) (argument_values (scope_of env.now) (Plain ∷ NullItself ∷ []) (operands_of arguments))) result }
{
    match two(arguments) {
        Some((x, null)) => initialised_as(env, at, x, null),
        None => Err(bad_type(at)),
    }
}
