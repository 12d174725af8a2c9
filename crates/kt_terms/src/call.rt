//! Calls of functions (ISO/IEC 9899:2011, 6.5.2.2).

ghost use Rattle.std.specs.Prelude.{◌≡◌, Ok, IfOk, map};
ghost use Rattle.std.specs.Option.{option_map};
ghost use Rattle.kt_terms.specs.declared.argument.Wanted.TheVariants.{Parameter};
ghost use Rattle.kt_names.specs.Checked.{and_then};
ghost use Rattle.kt_names.specs.Judges.{Judges};
ghost use Rattle.kt_names.specs.Views.{environment_of, operand_of, declared_of, outer_of};
ghost use Rattle.kt_names.specs.Terms.{result_of, passed, called_function, callable, callable_outer};
ghost use Rattle.kt_terms.specs.Arguments.{TypedArguments, AreJudged, in_order};

use crate::argument::{Argument, Wanted};
use crate::wanted::all_wanted;
use kt_grammar::Name;
use kt_names::ctype::CType;
use kt_names::environment::Environment;
use kt_names::fault::CheckFault;
use kt_names::info::{Outer, Signature};
use kt_names::node;
use kt_names::operand::Operand;
use kt_tree::Expr;
use sqlite_items::Items;
use std::alloc::{AllocError, Global};

/// What parameters of these types want.
fn wanted_by(alloc: Global, parameters: &[CType]) -> Result<Items<Wanted>, AllocError>
    ensures { IfOk result (λ ws. ws ≡ map Parameter parameters.now) }
{
    let mut wanted = Items::new(alloc);
    for t in parameters {
        wanted.push(Wanted::Parameter(*t))?;
    }
    Ok(wanted)
}

/// As many arguments as parameters, each converted.
fn passed(
    env: &Environment<'_>,
    up: u32,
    parameters: &[CType],
    arguments: Items<Argument>,
) -> Result<Items<Expr>, CheckFault>
    ensures { (specs : TypedArguments) → AreJudged arguments specs → Judges in_order result (passed (environment_of env.now) up parameters.now specs) }
{
    match wanted_by(env.alloc, parameters) {
        Ok(wanted) => all_wanted(env, up, wanted.as_slice(), arguments),
        Err(_) => Err(CheckFault::NoMemory),
    }
}

/// The value of a function's call.
fn result_of(function: u32, t: Option<CType>, arguments: Items<Expr>) -> Operand
    ensures { operand_of result ≡ result_of function t (in_order arguments) }
{
    match t {
        None => Operand::NoResult(node::called(function, arguments)),
        Some(t) => Operand::Valued(t, node::called(function, arguments)),
    }
}

/// A call of a function of a number.
fn called_numbered(
    env: &Environment<'_>,
    up: u32,
    function: u32,
    signature: &Signature,
    arguments: Items<Argument>,
) -> Result<Operand, CheckFault>
    ensures { (specs : TypedArguments) → AreJudged arguments specs → Judges operand_of result (and_then (passed (environment_of env.now) up (declared_of signature.now).parameters specs) (λ es. Ok (result_of function (declared_of signature.now).result es))) }
{
    match passed(env, up, signature.parameters.as_slice(), arguments) {
        Ok(values) => Ok(result_of(function, signature.result, values)),
        Err(fault) => Err(fault),
    }
}

/// A call of a function.
fn called_function(
    env: &Environment<'_>,
    up: u32,
    signature: &Signature,
    arguments: Items<Argument>,
) -> Result<Operand, CheckFault>
    ensures { (specs : TypedArguments) → AreJudged arguments specs → Judges operand_of result (called_function (environment_of env.now) up (declared_of signature.now) specs) }
{
    match signature.number {
        None => Err(CheckFault::Unknown { at: up }),
        Some(function) => called_numbered(env, up, function, signature, arguments),
    }
}

/// A call of what this is outside of functions.
fn called_outer(
    env: &Environment<'_>,
    up: u32,
    outer: Option<&Outer>,
    arguments: Items<Argument>,
) -> Result<Operand, CheckFault>
    ensures { (specs : TypedArguments) → AreJudged arguments specs → Judges operand_of result (and_then (callable_outer up (option_map (λ o. outer_of o.now) outer.entry)) (λ d. called_function (environment_of env.now) up d specs)) }
{
    match outer {
        None => Err(CheckFault::Unknown { at: up }),
        Some(Outer::Global(_, _, _)) => Err(CheckFault::BadType { at: up }),
        Some(Outer::Function(signature)) => called_function(env, up, signature, arguments),
    }
}

/// A call of a name that no built-in call has.
pub(crate) fn called_name(
    env: &Environment<'_>,
    name: &Name,
    arguments: Items<Argument>,
) -> Result<Operand, CheckFault>
    ensures { (specs : TypedArguments) → AreJudged arguments specs → Judges operand_of result (and_then (callable (environment_of env.now) name.now) (λ d. called_function (environment_of env.now) name.now.at d specs)) }
{
    match env.local_named(name.word.as_bytes()) {
        Some(_) => Err(CheckFault::BadType { at: name.at }),
        None => called_outer(
            env,
            name.at,
            env.outer_named(name.word.as_bytes()),
            arguments,
        ),
    }
}
