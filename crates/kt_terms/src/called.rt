//! Calls by their names: built-in calls, and calls of functions.

ghost use Rattle.std.specs.Prelude.{◌≡◌, map};
ghost use Rattle.kt_grammar.specs.Tree.{Called, term_of, terms_of};
ghost use Rattle.kt_names.specs.Judges.{Judges};
ghost use Rattle.kt_names.specs.Views.{environment_of, operand_of};
ghost use Rattle.kt_names.specs.Terms.{typing, typing_all, builtin_call, is_malloc, takes_memory, called_unhidden};
ghost use Rattle.kt_terms.specs.Arguments.{AreJudged, JudgesAll};

use crate::argument::Argument;
use crate::call::called_name;
use crate::creation::created_by;
use crate::memory::zeroed_by;
use crate::printf::printed_by;
use crate::request::{initialised_by, plain_builtin};
use crate::special::{migrated_by, updated_by, updating_by};
use crate::spelling::{first_of_two, first_spelling, only_spelling, second_of_two};
use kt_grammar::{Expr, Name};
use kt_names::builtin::{Builtin, builtin_named};
use kt_names::environment::Environment;
use kt_names::fault::CheckFault;
use kt_names::operand::Operand;
use sqlite_items::Items;

/// Whether the built-in call is `malloc`.
fn is_malloc(b: Option<Builtin>) -> bool
    ensures { result ≡ is_malloc b }
{
    match b {
        Some(Builtin::Malloc) => true,
        _ => false,
    }
}

/// Whether a name is that of `malloc`, and no local hides it.
pub(crate) fn takes_memory(env: &Environment<'_>, name: &Name) -> bool
    ensures { result ≡ takes_memory (environment_of env.now) name.now }
{
    match env.local_named(name.word.as_bytes()) {
        Some(_) => false,
        None => is_malloc(builtin_named(name.word.as_bytes())),
    }
}

/// A built-in call, whose arguments are typed. (`malloc` types its argument itself, so no call of it comes here.)
fn builtin_call(
    env: &Environment<'_>,
    up: u32,
    b: Builtin,
    args: &Items<Expr>,
    arguments: Items<Argument>,
) -> Result<Operand, CheckFault>
    ensures { AreJudged arguments (typing_all (environment_of env.now) (terms_of (map term_of args.now))) → Judges operand_of result (builtin_call (environment_of env.now) up b (typing_all (environment_of env.now) (terms_of (map term_of args.now))) (terms_of (map term_of args.now))) }
{
    match b {
        Builtin::Malloc => Err(CheckFault::NoMemory),
        Builtin::Calloc => zeroed_by(env, up, second_of_two(args), arguments),
        Builtin::Printf => printed_by(env, up, first_spelling(args), arguments),
        Builtin::InitMutex => initialised_by(env, up, second_of_two(args), arguments),
        Builtin::Create => created_by(env, up, first_of_two(args), arguments),
        Builtin::Update => updated_by(env, up, only_spelling(args)),
        Builtin::IsUpdatingFrom => updating_by(env, up, only_spelling(args)),
        Builtin::MigrateLocal => migrated_by(env, up, only_spelling(args)),
        Builtin::Free => plain_builtin(env, up, b, arguments),
        Builtin::GetChar => plain_builtin(env, up, b, arguments),
        Builtin::PutChar => plain_builtin(env, up, b, arguments),
        Builtin::Puts => plain_builtin(env, up, b, arguments),
        Builtin::Lock => plain_builtin(env, up, b, arguments),
        Builtin::Unlock => plain_builtin(env, up, b, arguments),
        Builtin::Join => plain_builtin(env, up, b, arguments),
        Builtin::IsUpdating => plain_builtin(env, up, b, arguments),
        Builtin::Automigrate => plain_builtin(env, up, b, arguments),
    }
}

/// A call of a name that no local has, whose arguments are typed.
fn called_unhidden(
    env: &Environment<'_>,
    name: &Name,
    args: &Items<Expr>,
    arguments: Items<Argument>,
) -> Result<Operand, CheckFault>
    ensures { AreJudged arguments (typing_all (environment_of env.now) (terms_of (map term_of args.now))) → Judges operand_of result (called_unhidden (environment_of env.now) name.now (terms_of (map term_of args.now))) }
{
    match builtin_named(name.word.as_bytes()) {
        None => called_name(env, name, arguments),
        Some(b) => builtin_call(env, name.at, b, args, arguments),
    }
}

/// A call, whose arguments are typed.
fn called_typed(
    env: &Environment<'_>,
    name: &Name,
    args: &Items<Expr>,
    arguments: Items<Argument>,
) -> Result<Operand, CheckFault>
    ensures { AreJudged arguments (typing_all (environment_of env.now) (terms_of (map term_of args.now))) → Judges operand_of result (typing (environment_of env.now) (Called name.now (terms_of (map term_of args.now)))) }
{
    match env.local_named(name.word.as_bytes()) {
        Some(_) => Err(CheckFault::BadType { at: name.at }),
        None => called_unhidden(env, name, args, arguments),
    }
}

/// A call, whose arguments may be typed.
pub(crate) fn called(
    env: &Environment<'_>,
    name: &Name,
    args: &Items<Expr>,
    arguments: Result<Items<Argument>, CheckFault>,
) -> Result<Operand, CheckFault>
    ensures { JudgesAll arguments (typing_all (environment_of env.now) (terms_of (map term_of args.now))) → Judges operand_of result (typing (environment_of env.now) (Called name.now (terms_of (map term_of args.now)))) }
{
    match arguments {
        Ok(arguments) => called_typed(env, name, args, arguments),
        Err(fault) => Err(fault),
    }
}
