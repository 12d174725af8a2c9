//! Calls by their rules, on arguments that may be faulty.

ghost use Rattle.std.specs.Prelude.{◌≡◌, Err};
ghost use Rattle.kt_operands.specs.declared.refusal.Refusal.TheVariants as refusal;
ghost use Rattle.kt_typing.specs.Forms.{Ruled};
ghost use Rattle.kt_operands.specs.Judged.{Follows};
ghost use Rattle.kt_operands.specs.Views.{environment_of, operand_of};
ghost use Rattle.kt_calls.specs.Arguments.{operands_of, AfterAll};
ghost use Rattle.kt_calls.specs.Rules.{rule_of};

use crate::allocation::{allocation, zeroed};
use crate::argument::{Answer, Arguments, despite};
use crate::asking::{asked_nothing, asked_one, initialised, released};
use crate::function::called;
use crate::point::{asked_from, kept_name, reached};
use crate::printing::printed;
use crate::thread::begun;
use kt_grammar::Name;
use kt_operands::environment::Environment;
use kt_operands::meaning::Head;
use kt_operands::operand::Operand;
use kt_operands::refusal::Refusal;
use kt_tree::Request;
use kt_typing::{Conversion, Fault};

/// What a call does with its arguments.
#[derive(Drop)]
pub enum Rule<'r> {
    /// It is faulty whatever they are.
    Broken(Fault),
    /// A call of the function of that number and head.
    Function(u32, &'r Head),
    /// A request of nothing, which gives a value of that type, or nothing.
    Nothing(Request, Option<u32>),
    /// A request of one value, which gives an `int`.
    One(Request),
    Release,
    InitMutex,
    Allocates,
    AllocatesZeros,
    Prints(&'r [Conversion]),
    Begins,
    Reaches(Option<&'r [u8]>),
    AsksFrom(Option<&'r [u8]>),
    Keeps(Option<&'r Name>),
}

// A faulty call.
fn broken(fault: Fault, arguments: Vec<Operand>) -> Answer
    ensures { result ≡ Err (refusal.Fault fault) }
{
    drop(arguments);
    Err(Refusal::Fault(fault))
}

// The rule of a call on arguments that have types.
fn applied(env: &Environment<'_>, at: u32, rule: Rule<'_>, arguments: Vec<Operand>) -> Answer
    ensures { Follows operand_of (rule_of (environment_of env.now) at rule.entry (operands_of arguments)) result }
{
    match rule {
        Rule::Broken(fault) => broken(fault, arguments),
        Rule::Function(function, head) => called(env, at, function, head, arguments),
        Rule::Nothing(request, ty) => asked_nothing(env, at, request, ty, arguments),
        Rule::One(request) => asked_one(env, at, request, arguments),
        Rule::Release => released(env, at, arguments),
        Rule::InitMutex => initialised(env, at, arguments),
        Rule::Allocates => allocation(env, at, arguments),
        Rule::AllocatesZeros => zeroed(env, at, arguments),
        Rule::Prints(pieces) => printed(env, at, pieces, arguments),
        Rule::Begins => begun(env, at, arguments),
        Rule::Reaches(text) => {
            drop(arguments);
            reached(env, at, text)
        }
        Rule::AsksFrom(text) => {
            drop(arguments);
            asked_from(env, at, text)
        }
        Rule::Keeps(name) => {
            drop(arguments);
            kept_name(env, at, name)
        }
    }
}

/// A call by its rule, beside what is wrong whatever its arguments are.
pub(crate) fn ruled(
    env: &Environment<'_>,
    at: u32,
    always: Option<Fault>,
    rule: Rule<'_>,
    arguments: Arguments,
) -> Answer
    ensures { AfterAll arguments (λ ps. Ruled always ps (rule_of (environment_of env.now) at rule.entry)) result }
{
    match arguments {
        Ok(xs) => despite(always, applied(env, at, rule, xs)),
        Err(e) => {
            drop(rule);
            despite(always, Err(e))
        }
    }
}
