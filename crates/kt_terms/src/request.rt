//! Built-in calls that take values alone.

ghost use Rattle.std.specs.Prelude.{◌≡◌, ◌∷◌, [], slice_get, Ok, None, if◌then◌else◌};
ghost use Rattle.std.specs.Option.{option_map};
ghost use Rattle.kt_tree.specs.Tree.{Requested, NoMore};
ghost use Rattle.kt_tree.specs.declared.expr.Request.TheVariants as request;
ghost use Rattle.kt_names.specs.declared.fault.CheckFault.TheVariants.{BadType};
ghost use Rattle.kt_names.specs.Checked.{fault};
ghost use Rattle.kt_names.specs.Types.{int, mutex, is_integer};
ghost use Rattle.kt_names.specs.Judges.{Judges};
ghost use Rattle.kt_names.specs.Views.{environment_of, operand_of, value_of};
ghost use Rattle.kt_names.specs.Operands.{NoResult};
ghost use Rattle.kt_names.specs.Builtins.{one_of, gives, asks_pointer, asks_integer};
ghost use Rattle.kt_names.specs.Terms.{released, releasing, plain_builtin};
ghost use Rattle.kt_terms.specs.Arguments.{TypedArguments, JudgesArgument, AreJudged};
ghost use Rattle.kt_terms.specs.Spellings.{spelled};
ghost use Rattle.kt_terms.specs.Specials.{of_argument, initialised_by};

use crate::argument::Argument;
use crate::spelling::Spelling;
use crate::taken::first_argument;
use crate::wanted::points_to;
use kt_names::builtin::Builtin;
use kt_names::ctype::CType;
use kt_names::environment::Environment;
use kt_names::fault::CheckFault;
use kt_names::node;
use kt_names::operand::{Operand, Value};
use kt_tree::Request;
use sqlite_items::Items;

/// A request of one value, which gives a value of a type.
pub(crate) fn asking(
    env: &Environment<'_>,
    request: Request,
    t: CType,
    v: Value,
) -> Result<Operand, CheckFault>
    ensures { Judges operand_of result (Ok (gives (environment_of env.now) request t (one_of (value_of v).expression))) }
{
    let ty = env.place(t);
    let whole = node::requested_of(env.alloc, request, Some(ty), v.expression)?;
    Ok(Operand::Valued(t, whole))
}

/// A request of nothing, which gives an `int`.
pub(crate) fn asking_nothing(env: &Environment<'_>, request: Request) -> Operand
    ensures { operand_of result ≡ gives (environment_of env.now) request int NoMore }
{
    let ty = env.place(CType::int());
    Operand::Valued(CType::int(), node::requested(env.alloc, request, Some(ty)))
}

/// A request of a pointer to a type.
fn asks_pointer(
    env: &Environment<'_>,
    up: u32,
    request: Request,
    e: CType,
    x: Argument,
) -> Result<Operand, CheckFault>
    ensures { JudgesArgument x operand_of result (asks_pointer (environment_of env.now) up request e) }
{
    match points_to(env, up, x, e) {
        Ok(v) => asking(env, request, CType::int(), v),
        Err(fault) => Err(fault),
    }
}

/// A request of an integer.
fn asks_integer(
    env: &Environment<'_>,
    up: u32,
    request: Request,
    x: Argument,
) -> Result<Operand, CheckFault>
    ensures { JudgesArgument x operand_of result (asks_integer (environment_of env.now) up request) }
{
    match x.integer(env, up) {
        Ok(v) => asking(env, request, CType::int(), v),
        Err(fault) => Err(fault),
    }
}

/// `free` of a value.
fn releasing(env: &Environment<'_>, up: u32, v: Value) -> Result<Operand, CheckFault>
    ensures { Judges operand_of result (releasing up (value_of v)) }
{
    if v.ty.is_integer() {
        v.let_go();
        return Err(CheckFault::BadType { at: up });
    }
    let whole = node::requested_of(env.alloc, Request::Release, None, v.expression)?;
    Ok(Operand::NoResult(whole))
}

/// `free`
fn released(env: &Environment<'_>, up: u32, x: Argument) -> Result<Operand, CheckFault>
    ensures { JudgesArgument x operand_of result (released (environment_of env.now) up) }
{
    match x.scalar(env, up) {
        Ok(v) => releasing(env, up, v),
        Err(fault) => Err(fault),
    }
}

/// A fault, for which an argument is let go.
fn refused(up: u32, x: Argument) -> Result<Operand, CheckFault>
    ensures { Judges operand_of result (fault (BadType up)) }
{
    x.let_go();
    Err(CheckFault::BadType { at: up })
}

/// A built-in call without arguments.
fn without_arguments(env: &Environment<'_>, up: u32, b: Builtin) -> Result<Operand, CheckFault>
    ensures { Judges operand_of result (plain_builtin (environment_of env.now) up b []) }
{
    match b {
        Builtin::GetChar => Ok(asking_nothing(env, Request::GetChar)),
        Builtin::IsUpdating => Ok(asking_nothing(env, Request::IsUpdating)),
        Builtin::Automigrate => {
            let whole = node::requested(env.alloc, Request::Automigrate, None);
            Ok(Operand::NoResult(whole))
        }
        Builtin::Malloc => Err(CheckFault::BadType { at: up }),
        Builtin::Calloc => Err(CheckFault::BadType { at: up }),
        Builtin::Free => Err(CheckFault::BadType { at: up }),
        Builtin::PutChar => Err(CheckFault::BadType { at: up }),
        Builtin::Puts => Err(CheckFault::BadType { at: up }),
        Builtin::Printf => Err(CheckFault::BadType { at: up }),
        Builtin::Lock => Err(CheckFault::BadType { at: up }),
        Builtin::Unlock => Err(CheckFault::BadType { at: up }),
        Builtin::InitMutex => Err(CheckFault::BadType { at: up }),
        Builtin::Create => Err(CheckFault::BadType { at: up }),
        Builtin::Join => Err(CheckFault::BadType { at: up }),
        Builtin::Update => Err(CheckFault::BadType { at: up }),
        Builtin::IsUpdatingFrom => Err(CheckFault::BadType { at: up }),
        Builtin::MigrateLocal => Err(CheckFault::BadType { at: up }),
    }
}

/// A built-in call of one value.
fn with_argument(
    env: &Environment<'_>,
    up: u32,
    b: Builtin,
    x: Argument,
) -> Result<Operand, CheckFault>
    ensures { JudgesArgument x operand_of result (λ a. plain_builtin (environment_of env.now) up b (a ∷ [])) }
{
    match b {
        Builtin::Free => released(env, up, x),
        Builtin::PutChar => asks_integer(env, up, Request::PutChar, x),
        Builtin::Puts => asks_pointer(env, up, Request::Puts, CType::char(), x),
        Builtin::Lock => asks_pointer(env, up, Request::Lock, CType::mutex(), x),
        Builtin::Unlock => asks_pointer(env, up, Request::Unlock, CType::mutex(), x),
        Builtin::Join => asks_integer(env, up, Request::Join, x),
        Builtin::GetChar => refused(up, x),
        Builtin::IsUpdating => refused(up, x),
        Builtin::Automigrate => refused(up, x),
        Builtin::Malloc => refused(up, x),
        Builtin::Calloc => refused(up, x),
        Builtin::Printf => refused(up, x),
        Builtin::InitMutex => refused(up, x),
        Builtin::Create => refused(up, x),
        Builtin::Update => refused(up, x),
        Builtin::IsUpdatingFrom => refused(up, x),
        Builtin::MigrateLocal => refused(up, x),
    }
}

/// A built-in call of values.
pub(crate) fn plain_builtin(
    env: &Environment<'_>,
    up: u32,
    b: Builtin,
    mut arguments: Items<Argument>,
) -> Result<Operand, CheckFault>
    ensures { (specs : TypedArguments) → AreJudged arguments specs → Judges operand_of result (plain_builtin (environment_of env.now) up b specs) }
{
    if arguments.len() > 1 {
        return Err(CheckFault::BadType { at: up });
    }
    match arguments.pop() {
        None => without_arguments(env, up, b),
        Some(x) => with_argument(env, up, b, x),
    }
}

/// `pthread_mutex_init` of the first argument.
fn initialised_first(
    env: &Environment<'_>,
    up: u32,
    arguments: Items<Argument>,
) -> Result<Operand, CheckFault>
    ensures { (specs : TypedArguments) → AreJudged arguments specs → Judges operand_of result (of_argument up (asks_pointer (environment_of env.now) up request.InitMutex mutex) (slice_get specs 0)) }
{
    match first_argument(arguments) {
        None => Err(CheckFault::BadType { at: up }),
        Some(x) => asks_pointer(env, up, Request::InitMutex, CType::mutex(), x),
    }
}

/// `pthread_mutex_init`, whose second argument is written so.
pub(crate) fn initialised_by(
    env: &Environment<'_>,
    up: u32,
    spelling: Option<Spelling<'_>>,
    arguments: Items<Argument>,
) -> Result<Operand, CheckFault>
    ensures { (specs : TypedArguments) → AreJudged arguments specs → Judges operand_of result (initialised_by (environment_of env.now) up (option_map spelled spelling.entry) specs) }
{
    match spelling {
        None => Err(CheckFault::BadType { at: up }),
        Some(Spelling::Null) => initialised_first(env, up, arguments),
        Some(Spelling::Size(_, _)) => Err(CheckFault::BadType { at: up }),
        Some(Spelling::Text(_)) => Err(CheckFault::BadType { at: up }),
        Some(Spelling::Name(_)) => Err(CheckFault::BadType { at: up }),
        Some(Spelling::Other) => Err(CheckFault::BadType { at: up }),
    }
}
