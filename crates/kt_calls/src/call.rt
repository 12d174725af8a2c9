//! Calls (ISO/IEC 9899:2011, 6.5.2.2): of the file's functions, and built-in ones.

ghost use Rattle.std.specs.Prelude.{slice_get, Some, None, Err};
ghost use Rattle.std.specs.Option.{option_map};
ghost use Rattle.kt_typing.specs.Faults.{fault_at};
ghost use Rattle.kt_typing.specs.Formats.{format_of};
ghost use Rattle.kt_calls.specs.Rules.{rule_of};
ghost use Rattle.kt_typing.specs.Calls.{Prints, function_called, miscounted, printed, print_form, row, meaning_called, row_called};
ghost use Rattle.kt_typing.specs.Forms.{Ruled, Parts};
ghost use Rattle.kt_operands.specs.Views.{environment_of, scope_of, operand_of, meaning_of};
ghost use Rattle.kt_operators.specs.Judged.{Judges, JudgesParts};
ghost use Rattle.kt_calls.specs.Arguments.{operands_of, row_parts, AfterAll};

use crate::argument::{Answer, Arguments, miscounted};
use crate::format::{format_of, taken_by};
use crate::rule::{Rule, ruled};
use kt_grammar::Name;
use kt_operands::environment::Environment;
use kt_operands::meaning::Meaning;
use kt_operands::refusal::Refusal;
use kt_operands::types::INT;
use kt_tree::Request;
use kt_typing::{Builtin, Fault, Kind};

// A call that is faulty whatever its arguments are.
fn faulty(env: &Environment<'_>, at: u32, kind: Kind, arguments: Arguments) -> Answer
    ensures { AfterAll arguments (λ ps. Ruled (Some (fault_at kind at)) ps (λ xs. Err (fault_at kind at))) result }
{
    let fault = Fault { at, kind };
    ruled(env, at, Some(fault), Rule::Broken(fault), arguments)
}

// A call of the function of a number.
fn function_called(
    env: &Environment<'_>,
    at: u32,
    count: usize,
    function: u32,
    arguments: Arguments,
) -> Answer
    ensures { AfterAll arguments (λ ps. function_called (environment_of env.now) at function count ps (slice_get (scope_of env.now).functions function)) result }
{
    match env.head(function) {
        None => faulty(env, at, Kind::Unknown, arguments),
        Some(head) => {
            let always = miscounted(at, head.parameters.len(), count);
            ruled(env, at, always, Rule::Function(function, head), arguments)
        }
    }
}

/// A call, at a place and with so many arguments, of what a name stands for.
pub fn meaning_called(
    env: &Environment<'_>,
    at: u32,
    count: usize,
    meaning: Meaning,
    arguments: Arguments,
) -> Answer
    ensures { AfterAll arguments (λ ps. meaning_called (environment_of env.now) at count ps (meaning_of meaning)) result }
{
    match meaning {
        Meaning::Missing => faulty(env, at, Kind::Unknown, arguments),
        Meaning::Barred => faulty(env, at, Kind::BadType, arguments),
        Meaning::Fixed(_, _, _) => faulty(env, at, Kind::BadType, arguments),
        Meaning::Local(_, _) => faulty(env, at, Kind::BadType, arguments),
        Meaning::Routine(function) => function_called(env, at, count, function, arguments),
    }
}

// A call that takes so many arguments.
fn counted(
    env: &Environment<'_>,
    at: u32,
    taken: usize,
    count: usize,
    rule: Rule<'_>,
    arguments: Arguments,
) -> Answer
    ensures { AfterAll arguments (λ ps. Ruled (miscounted at taken count) ps (rule_of (environment_of env.now) at rule.entry)) result }
{
    ruled(env, at, miscounted(at, taken, count), rule, arguments)
}

// `printf` of a format.
fn printed(
    env: &Environment<'_>,
    at: u32,
    count: usize,
    format: &[u8],
    arguments: Arguments,
) -> Answer
    ensures { AfterAll arguments (λ ps. printed (environment_of env.now) at count ps (format_of format.now)) result }
{
    let bad = Fault {
        at,
        kind: Kind::BadType,
    };
    match format_of(env.alloc, format) {
        Ok(Some(pieces)) => {
            let taken = taken_by(pieces.as_slice());
            let rule = Rule::Prints(pieces.as_slice());
            counted(env, at, taken + 1, count, rule, arguments)
        }
        Ok(None) => ruled(env, at, None, Rule::Broken(bad), arguments),
        Err(_) => {
            drop(arguments);
            Err(Refusal::NoMemory)
        }
    }
}

// `printf` with so many arguments, of which the first may be a string.
fn print_form(
    env: &Environment<'_>,
    at: u32,
    count: usize,
    text: Option<&[u8]>,
    arguments: Arguments,
) -> Answer
    ensures { (ps : Parts) → JudgesParts operands_of (row_parts (environment_of env.now) count (option_map (λ t. t.now) text.entry) None ps Prints) arguments → Judges operand_of (print_form (environment_of env.now) at count (option_map (λ t. t.now) text.entry) ps) result }
{
    if count == 0 {
        return faulty(env, at, Kind::BadType, arguments);
    }
    match text {
        Some(format) => printed(env, at, count, format, arguments),
        None => {
            let bad = Fault {
                at,
                kind: Kind::BadType,
            };
            ruled(env, at, None, Rule::Broken(bad), arguments)
        }
    }
}

/// A built-in call at a place, with so many arguments, of which the first may be a string or a name: those that are judged
/// leave out a string or name that the call takes by itself, and begin with the entry of `ktthread_create`.
pub fn builtin_called(
    env: &Environment<'_>,
    at: u32,
    count: usize,
    text: Option<&[u8]>,
    name: Option<&Name>,
    builtin: Builtin,
    arguments: Arguments,
) -> Answer
    ensures { (ps : Parts) → JudgesParts operands_of (row_parts (environment_of env.now) count (option_map (λ t. t.now) text.entry) (option_map (λ n. n.now) name.entry) ps (row builtin)) arguments → Judges operand_of (row_called (environment_of env.now) at count (option_map (λ t. t.now) text.entry) (option_map (λ n. n.now) name.entry) ps (row builtin)) result }
{
    match builtin {
        Builtin::Malloc => counted(env, at, 1, count, Rule::Allocates, arguments),
        Builtin::Calloc => counted(env, at, 2, count, Rule::AllocatesZeros, arguments),
        Builtin::Free => counted(env, at, 1, count, Rule::Release, arguments),
        Builtin::GetChar => counted(
            env,
            at,
            0,
            count,
            Rule::Nothing(Request::GetChar, Some(INT)),
            arguments,
        ),
        Builtin::PutChar => counted(env, at, 1, count, Rule::One(Request::PutChar), arguments),
        Builtin::Puts => counted(env, at, 1, count, Rule::One(Request::Puts), arguments),
        Builtin::Printf => print_form(env, at, count, text, arguments),
        Builtin::Lock => counted(env, at, 1, count, Rule::One(Request::Lock), arguments),
        Builtin::Unlock => counted(env, at, 1, count, Rule::One(Request::Unlock), arguments),
        Builtin::InitMutex => counted(env, at, 2, count, Rule::InitMutex, arguments),
        Builtin::Create => counted(env, at, 2, count, Rule::Begins, arguments),
        Builtin::Join => counted(env, at, 1, count, Rule::One(Request::Join), arguments),
        Builtin::Update => counted(env, at, 1, count, Rule::Reaches(text), arguments),
        Builtin::IsUpdating => counted(
            env,
            at,
            0,
            count,
            Rule::Nothing(Request::IsUpdating, Some(INT)),
            arguments,
        ),
        Builtin::IsUpdatingFrom => counted(env, at, 1, count, Rule::AsksFrom(text), arguments),
        Builtin::Automigrate => counted(
            env,
            at,
            0,
            count,
            Rule::Nothing(Request::Automigrate, None),
            arguments,
        ),
        Builtin::MigrateLocal => counted(env, at, 1, count, Rule::Keeps(name), arguments),
    }
}
