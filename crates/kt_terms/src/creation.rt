//! Threads that begin at functions.

ghost use Rattle.std.specs.Prelude.{◌≡◌, slice_get, Ok};
ghost use Rattle.std.specs.Option.{option_map};
ghost use Rattle.kt_tree.specs.declared.expr.Request.TheVariants as request;
ghost use Rattle.kt_names.specs.Checked.{and_then, found};
ghost use Rattle.kt_names.specs.Types.{int};
ghost use Rattle.kt_names.specs.Operands.{convert};
ghost use Rattle.kt_names.specs.Judges.{Judges};
ghost use Rattle.kt_names.specs.Views.{environment_of, operand_of, declared_of, outer_of};
ghost use Rattle.kt_names.specs.Builtins.{one_of, gives, entry_in, entry_of, outer_unhidden, entry_fault, no_entry, created};
ghost use Rattle.kt_terms.specs.Arguments.{TypedArguments, JudgesArgument, AreJudged};
ghost use Rattle.kt_terms.specs.Spellings.{spelled};
ghost use Rattle.kt_terms.specs.Specials.{of_argument, created_by, only_parameter, numbered, entry_itself};

use crate::argument::Argument;
use crate::request::asking;
use crate::spelling::Spelling;
use crate::taken::second_argument;
use kt_grammar::Name;
use kt_names::builtin::builtin_named;
use kt_names::ctype::CType;
use kt_names::environment::Environment;
use kt_names::fault::CheckFault;
use kt_names::info::{Outer, Signature};
use kt_names::operand::{Operand, Value};
use kt_tree::Request;
use sqlite_items::Items;

/// The only parameter.
fn only_parameter(parameters: &[CType]) -> Option<CType>
    ensures { result ≡ only_parameter parameters.now }
{
    if parameters.len() != 1 {
        return None;
    }
    Some(parameters[0])
}

/// The number and the only parameter of a function.
fn numbered(parameter: Option<CType>, number: Option<u32>) -> Option<(u32, CType)>
    ensures { result ≡ numbered parameter number }
{
    match parameter {
        None => None,
        Some(p) => match number {
            None => None,
            Some(n) => Some((n, p)),
        },
    }
}

/// The number and the parameter of a defined `void` function of one parameter.
fn entry_in(signature: &Signature) -> Option<(u32, CType)>
    ensures { result ≡ entry_in (declared_of signature.now).result (declared_of signature.now).parameters (declared_of signature.now).number }
{
    match signature.result {
        Some(_) => None,
        None => numbered(
            only_parameter(signature.parameters.as_slice()),
            signature.number,
        ),
    }
}

/// What a thread can begin at, of what this is outside of functions.
fn entry_of(outer: Option<&Outer>) -> Option<(u32, CType)>
    ensures { result ≡ entry_of (option_map (λ o. outer_of o.now) outer.entry) }
{
    match outer {
        None => None,
        Some(Outer::Global(_, _, _)) => None,
        Some(Outer::Function(signature)) => entry_in(signature),
    }
}

/// What a name stands for where no local hides it.
fn outer_unhidden<'e>(env: &'e Environment<'_>, name: &[u8]) -> Option<&'e Outer>
    ensures { option_map (λ o. outer_of o.now) result ≡ outer_unhidden (environment_of env.now) name.now }
{
    match env.local_named(name) {
        None => env.outer_named(name),
        Some(_) => None,
    }
}

/// What is wrong with a name that is no entry, by what it is outside of functions.
fn entry_fault(at: u32, outer: Option<&Outer>) -> CheckFault
    ensures { result ≡ entry_fault at (option_map (λ o. outer_of o.now) outer.entry) }
{
    match outer {
        None => CheckFault::Unknown { at },
        Some(Outer::Global(_, _, _)) => CheckFault::Entry { at },
        Some(Outer::Function(signature)) => match signature.number {
            None => CheckFault::Unknown { at },
            Some(_) => CheckFault::Entry { at },
        },
    }
}

/// What is wrong with a name that is no entry.
fn no_entry(env: &Environment<'_>, f: &Name) -> CheckFault
    ensures { result ≡ no_entry (environment_of env.now) f.now }
{
    if env.local_named(f.word.as_bytes()).is_some() || builtin_named(f.word.as_bytes()).is_some() {
        return CheckFault::Entry { at: f.at };
    }
    entry_fault(f.at, env.outer_named(f.word.as_bytes()))
}

/// The function of a name that a thread begins at, and its parameter.
fn entry(env: &Environment<'_>, f: &Name) -> Result<(u32, CType), CheckFault>
    ensures { Judges entry_itself result (found (entry_of (outer_unhidden (environment_of env.now) f.now.word)) (no_entry (environment_of env.now) f.now)) }
{
    match entry_of(outer_unhidden(env, f.word.as_bytes())) {
        Some(entry) => Ok(entry),
        None => Err(no_entry(env, f)),
    }
}

/// A thread that begins at a function of a number and takes this argument, as its parameter has it.
fn beginning(
    env: &Environment<'_>,
    up: u32,
    function: u32,
    parameter: CType,
    x: Argument,
) -> Result<Operand, CheckFault>
    ensures { JudgesArgument x operand_of result (λ a. and_then (and_then a.typed (convert (environment_of env.now) parameter a.at up)) (λ v. Ok (gives (environment_of env.now) (request.Create function) int (one_of v)))) }
{
    match x.convert(env, parameter, up) {
        Ok(expression) => {
            let v = Value {
                ty: parameter,
                expression,
            };
            asking(env, Request::Create(function), CType::int(), v)
        }
        Err(fault) => Err(fault),
    }
}

/// A thread that begins at a function of this name and takes this argument.
fn created(env: &Environment<'_>, up: u32, f: &Name, x: Argument) -> Result<Operand, CheckFault>
    ensures { JudgesArgument x operand_of result (created (environment_of env.now) up f.now) }
{
    match entry(env, f) {
        Ok(entry) => beginning(env, up, entry.0, entry.1, x),
        Err(fault) => {
            x.let_go();
            Err(fault)
        }
    }
}

/// A thread that begins at a function of this name and takes the second argument.
fn created_second(
    env: &Environment<'_>,
    up: u32,
    f: &Name,
    arguments: Items<Argument>,
) -> Result<Operand, CheckFault>
    ensures { (specs : TypedArguments) → AreJudged arguments specs → Judges operand_of result (of_argument up (created (environment_of env.now) up f.now) (slice_get specs 1)) }
{
    match second_argument(arguments) {
        None => Err(CheckFault::BadType { at: up }),
        Some(x) => created(env, up, f, x),
    }
}

/// `ktthread_create`, whose first argument is written so.
pub(crate) fn created_by(
    env: &Environment<'_>,
    up: u32,
    spelling: Option<Spelling<'_>>,
    arguments: Items<Argument>,
) -> Result<Operand, CheckFault>
    ensures { (specs : TypedArguments) → AreJudged arguments specs → Judges operand_of result (created_by (environment_of env.now) up (option_map spelled spelling.entry) specs) }
{
    match spelling {
        None => Err(CheckFault::BadType { at: up }),
        Some(Spelling::Name(f)) => created_second(env, up, f, arguments),
        Some(Spelling::Size(_, _)) => Err(CheckFault::BadType { at: up }),
        Some(Spelling::Text(_)) => Err(CheckFault::BadType { at: up }),
        Some(Spelling::Null) => Err(CheckFault::BadType { at: up }),
        Some(Spelling::Other) => Err(CheckFault::BadType { at: up }),
    }
}
