//! The arguments of calls.

ghost use Rattle.std.specs.Prelude.{◌≡◌, ◌≤◌, map, length, Option, Some, Ok};
ghost use Rattle.std.specs.Option.{option_map};
ghost use Rattle.kt_grammar.specs.Tree.{term_of, terms_of};
ghost use Rattle.kt_typing.specs.declared.builtin.Builtin.TheVariants as builtin;
ghost use Rattle.kt_typing.specs.declared.fault.Fault.{Fault};
ghost use Rattle.kt_typing.specs.Calls.{row, uses_of};
ghost use Rattle.kt_typing.specs.Forms.{Form, Parts, Part};
ghost use Rattle.kt_typing.specs.Operands.{Operand as Typed};
ghost use Rattle.kt_typing.specs.Rules.{wrong};
ghost use Rattle.kt_typing.specs.Terms.{argument_uses};
ghost use Rattle.kt_operands.specs.Views.{environment_of, operand_of};
ghost use Rattle.kt_operators.specs.Judged.{Judges, JudgesPart, JudgesParts};
ghost use Rattle.kt_calls.specs.Arguments.{operands_of};
ghost use Rattle.kt_expressions.specs.Arguments.{turned_operands, use_at, takes_word, words, words_of, parts_behind, parts_of_call};

use crate::part::part_of;
use crate::spelled::{first_name, first_text};
use kt_calls::argument::Arguments;
use kt_calls::thread::entry;
use kt_grammar::{Expr, Name};
use kt_operands::environment::Environment;
use kt_operands::operand::Operand;
use kt_operators::first::both;
use kt_operators::forms::Answer;
use kt_typing::{Builtin, Use};
use sqlite_items::Items;

// What the argument of a number of a built-in call is used as.
#[tactic(auto, using(crate::proofs::Words::uses))]
fn use_of(builtin: Builtin, i: usize) -> Use
    ensures { result ≡ use_at (uses_of builtin) i }
{
    match builtin {
        Builtin::Malloc => { if i == 0 { Use::Count } else { Use::Value } }
        Builtin::Calloc => { if i == 1 { Use::Size } else { Use::Value } }
        Builtin::Free => Use::Value,
        Builtin::GetChar => Use::Value,
        Builtin::PutChar => Use::Value,
        Builtin::Puts => Use::Value,
        Builtin::Printf => Use::Value,
        Builtin::Lock => Use::Value,
        Builtin::Unlock => Use::Value,
        Builtin::InitMutex => Use::Value,
        Builtin::Create => Use::Value,
        Builtin::Join => Use::Value,
        Builtin::Update => Use::Value,
        Builtin::IsUpdating => Use::Value,
        Builtin::IsUpdatingFrom => Use::Value,
        Builtin::Automigrate => Use::Value,
        Builtin::MigrateLocal => Use::Value,
    }
}

/// What the argument of a number is used as.
pub(crate) fn use_at(call: Option<Builtin>, i: usize) -> Use
    ensures { result ≡ use_at (argument_uses call) i }
{
    match call {
        None => Use::Value,
        Some(builtin) => use_of(builtin, i),
    }
}

// Whether a built-in call takes its first argument as it is written.
fn takes_word(builtin: Builtin, text: Option<&[u8]>, name: Option<&Name>) -> bool
    ensures { result ≡ takes_word (row builtin) (option_map (λ t. t.now) text.entry) (option_map (λ n. n.now) name.entry) }
{
    match builtin {
        Builtin::Printf => text.is_some(),
        Builtin::Update => text.is_some(),
        Builtin::IsUpdatingFrom => text.is_some(),
        Builtin::Create => name.is_some(),
        Builtin::MigrateLocal => name.is_some(),
        Builtin::Malloc => false,
        Builtin::Calloc => false,
        Builtin::Free => false,
        Builtin::GetChar => false,
        Builtin::PutChar => false,
        Builtin::Puts => false,
        Builtin::Lock => false,
        Builtin::Unlock => false,
        Builtin::InitMutex => false,
        Builtin::Join => false,
        Builtin::IsUpdating => false,
        Builtin::Automigrate => false,
    }
}

// How many arguments at the front are no expressions.
fn words(call: Option<Builtin>, text: Option<&[u8]>, name: Option<&Name>) -> usize
    ensures { result ≡ words call (option_map (λ t. t.now) text.entry) (option_map (λ n. n.now) name.entry) }
{
    match call {
        None => 0,
        Some(builtin) => {
            if takes_word(builtin, text, name) {
                1
            } else {
                0
            }
        }
    }
}

/// How many arguments of a call, at the front, are no expressions.
pub(crate) fn words_of(call: Option<Builtin>, args: &Items<Expr>) -> usize
    ensures words { result ≡ words_of call (terms_of (map term_of args.now)) }
    ensures within { result ≤ length args.now }
{
    words(call, first_text(args), first_name(args))
}

// Operands, from the last to the first, and one more before them.
fn put_before(x: Operand, mut rest: Vec<Operand>) -> Arguments
    ensures { (w : Typed → Option Fault) (a : Form) (ps : Parts) → JudgesPart operand_of w a (Ok x) → JudgesParts turned_operands ps (Ok rest) → JudgesParts turned_operands (Part w a ps) result }
{
    rest.push(x)?;
    Ok(rest)
}

// A part before others.
fn part_before(x: Answer, rest: Arguments) -> Arguments
    ensures { (w : Typed → Option Fault) (a : Form) (ps : Parts) → JudgesPart operand_of w a x → JudgesParts turned_operands ps rest → JudgesParts turned_operands (Part w a ps) result }
{
    match both(x, rest) {
        Ok((first, others)) => put_before(first, others),
        Err(e) => Err(e),
    }
}

/// An argument, which is used so, before others.
pub(crate) fn argument_before(
    env: &Environment<'_>,
    to: Use,
    x: Answer,
    rest: Arguments,
) -> Arguments
    ensures { (a : Form) (ps : Parts) → Judges operand_of a x → JudgesParts turned_operands ps rest → JudgesParts turned_operands (Part (wrong (environment_of env.now) to) a ps) result }
{
    part_before(part_of(env, to, x), rest)
}

/// The arguments from the first to the last.
pub(crate) fn in_order(rest: Arguments) -> Arguments
    ensures { (ps : Parts) → JudgesParts turned_operands ps rest → JudgesParts operands_of ps result }
{
    match rest {
        Ok(mut operands) => {
            operands.reverse();
            Ok(operands)
        }
        Err(e) => Err(e),
    }
}

// The arguments of `ktthread_create`, whose first is the name where a thread begins, where it is a name.
fn begun(env: &Environment<'_>, args: &Items<Expr>, rest: Arguments) -> Arguments
    ensures { JudgesParts turned_operands (parts_behind (environment_of env.now) (Some builtin.Create) (words_of (Some builtin.Create) (terms_of (map term_of args.now))) (map term_of args.now)) rest → JudgesParts turned_operands (parts_of_call (environment_of env.now) builtin.Create (terms_of (map term_of args.now))) result }
{
    match first_name(args) {
        Some(name) => {
            let first = entry(env, name);
            part_before(first, rest)
        }
        None => rest,
    }
}

/// The arguments of a built-in call that it is judged from, by those that are expressions.
pub(crate) fn call_parts(
    env: &Environment<'_>,
    builtin: Builtin,
    args: &Items<Expr>,
    rest: Arguments,
) -> Arguments
    ensures { JudgesParts turned_operands (parts_behind (environment_of env.now) (Some builtin) (words_of (Some builtin) (terms_of (map term_of args.now))) (map term_of args.now)) rest → JudgesParts turned_operands (parts_of_call (environment_of env.now) builtin (terms_of (map term_of args.now))) result }
{
    match builtin {
        Builtin::Create => begun(env, args, rest),
        _ => rest,
    }
}
