//! Calls, by their arguments, which were judged by themselves.

ghost use Rattle.std.specs.Prelude.{map, Some, None};
ghost use Rattle.kt_grammar.specs.Tree.{term_of, terms_of};
ghost use Rattle.kt_typing.specs.Calls.{uses_of};
ghost use Rattle.kt_typing.specs.Terms.{argument_count, argument_uses, called, first_name, first_text, parts};
ghost use Rattle.kt_operands.specs.Views.{environment_of, operand_of};
ghost use Rattle.kt_operators.specs.Judged.{Judges, JudgesParts};
ghost use Rattle.kt_expressions.specs.Arguments.{turned_operands, words_of, parts_behind};

use crate::arguments::{call_parts, in_order};
use crate::spelled::{first_name, first_text};
use kt_calls::argument::Arguments;
use kt_calls::call::{builtin_called, meaning_called};
use kt_grammar::{Expr, Name};
use kt_operands::environment::Environment;
use kt_operators::forms::Answer;
use kt_typing::Builtin;
use sqlite_items::Items;

// A call of what a name stands for.
fn name_called(env: &Environment<'_>, name: &Name, args: &Items<Expr>, rest: Arguments) -> Answer
    ensures { JudgesParts turned_operands (parts_behind (environment_of env.now) None (words_of None (terms_of (map term_of args.now))) (map term_of args.now)) rest → Judges operand_of (called (environment_of env.now) name.now (argument_count (terms_of (map term_of args.now))) (first_text (terms_of (map term_of args.now))) (first_name (terms_of (map term_of args.now))) (parts (environment_of env.now) (argument_uses None) (terms_of (map term_of args.now))) None) result }
{
    let judged = in_order(rest);
    let meaning = env.named(name.word.as_bytes());
    meaning_called(env, name.at, args.as_slice().len(), meaning, judged)
}

// A built-in call.
fn word_called(
    env: &Environment<'_>,
    name: &Name,
    builtin: Builtin,
    args: &Items<Expr>,
    rest: Arguments,
) -> Answer
    ensures { JudgesParts turned_operands (parts_behind (environment_of env.now) (Some builtin) (words_of (Some builtin) (terms_of (map term_of args.now))) (map term_of args.now)) rest → Judges operand_of (called (environment_of env.now) name.now (argument_count (terms_of (map term_of args.now))) (first_text (terms_of (map term_of args.now))) (first_name (terms_of (map term_of args.now))) (parts (environment_of env.now) (argument_uses (Some builtin)) (terms_of (map term_of args.now))) (Some builtin)) result }
{
    let judged = in_order(call_parts(env, builtin, args, rest));
    let text = first_text(args);
    let first = first_name(args);
    builtin_called(
        env,
        name.at,
        args.as_slice().len(),
        text,
        first,
        builtin,
        judged,
    )
}

/// A call of what a name stands for, or a built-in call.
pub(crate) fn called(
    env: &Environment<'_>,
    name: &Name,
    call: Option<Builtin>,
    args: &Items<Expr>,
    rest: Arguments,
) -> Answer
    ensures { JudgesParts turned_operands (parts_behind (environment_of env.now) call (words_of call (terms_of (map term_of args.now))) (map term_of args.now)) rest → Judges operand_of (called (environment_of env.now) name.now (argument_count (terms_of (map term_of args.now))) (first_text (terms_of (map term_of args.now))) (first_name (terms_of (map term_of args.now))) (parts (environment_of env.now) (argument_uses call) (terms_of (map term_of args.now))) call) result }
{
    match call {
        None => name_called(env, name, args, rest),
        Some(builtin) => word_called(env, name, builtin, args, rest),
    }
}
