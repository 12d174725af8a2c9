//! Where threads begin.

ghost use Rattle.std.specs.Prelude.{◌≡◌, [], ◌∷◌, slice_get, None};
ghost use Rattle.kt_typing.specs.declared.standing.Standing.TheVariants as standing;
ghost use Rattle.kt_typing.specs.Faults.{fault_at};
ghost use Rattle.kt_typing.specs.declared.fault.Kind.TheVariants as kind;
ghost use Rattle.kt_operands.specs.declared.refusal.Refusal.TheVariants as refusal;
ghost use Rattle.kt_typing.specs.Calls.{entry_parameter, entry_of, entry, begun_at, begun, leaf};
ghost use Rattle.kt_operands.specs.Judged.{Follows};
ghost use Rattle.kt_operands.specs.Views.{environment_of, scope_of, operand_of, meaning_of};
ghost use Rattle.kt_operators.specs.Judged.{JudgesPart};
ghost use Rattle.kt_calls.specs.Arguments.{operands_of};

use crate::argument::{Answer, two};
use kt_grammar::Name;
use kt_operands::environment::Environment;
use kt_operands::given::requested_of;
use kt_operands::meaning::Meaning;
use kt_operands::operand::{Operand, bad_type, unknown};
use kt_operands::refusal::Refusal;
use kt_operands::tree;
use kt_operands::types::INT;
use kt_tree::Request;
use kt_typing::{Fault, Kind, Standing};
use sqlite_items::Items;

// No thread can begin there.
fn no_entry(at: u32) -> Refusal
    ensures { result ≡ refusal.Fault (fault_at kind.Entry at) }
{
    Refusal::Fault(Fault {
        at,
        kind: Kind::Entry,
    })
}

// The parameter of a `void` function of one parameter.
fn entry_parameter(env: &Environment<'_>, function: u32) -> Option<u32>
    ensures { result ≡ entry_parameter (slice_get (scope_of env.now).functions function) }
{
    let head = env.head(function)?;
    match head.result {
        Some(_) => None,
        None => match head.parameters.as_slice() {
            [parameter] => Some(*parameter),
            _ => None,
        },
    }
}

// The function of a number, where a thread can begin.
fn entry_of(env: &Environment<'_>, at: u32, function: u32) -> Answer
    ensures { Follows operand_of (entry_of at function (entry_parameter (slice_get (scope_of env.now).functions function))) result }
{
    match entry_parameter(env, function) {
        None => Err(no_entry(at)),
        Some(ty) => {
            let tree = tree::called(env.alloc, function, Items::new(env.alloc))?;
            Ok(Operand {
                at,
                standing: Standing::Entry(function),
                ty,
                tree,
            })
        }
    }
}

// What a name where a thread begins stands for.
fn entry_by(env: &Environment<'_>, at: u32, meaning: Meaning) -> Answer
    ensures { Follows operand_of (entry (environment_of env.now) at (meaning_of meaning)) result }
{
    match meaning {
        Meaning::Missing => Err(unknown(at)),
        Meaning::Routine(function) => entry_of(env, at, function),
        Meaning::Barred => Err(no_entry(at)),
        Meaning::Fixed(_, _, _) => Err(no_entry(at)),
        Meaning::Local(_, _) => Err(no_entry(at)),
    }
}

/// The name of a function where a thread begins, as the first argument of `ktthread_create`.
#[tactic(auto, using(crate::proofs::Leaves::leaves))]
pub fn entry(env: &Environment<'_>, name: &Name) -> Answer
    ensures { JudgesPart operand_of (λ x. None) (leaf (entry (environment_of env.now) name.now.at ((environment_of env.now).name name.now.word))) result }
{
    entry_by(env, name.at, env.named(name.word.as_bytes()))
}

// `ktthread_create` of a function and its argument.
#[tactic(auto, using(kt_operators::proofs::Steps::steps))]
fn begun_at(env: &Environment<'_>, at: u32, function: u32, ty: u32, y: Operand) -> Answer
    ensures { Follows operand_of (begun_at (environment_of env.now) at (standing.Entry function) ty (operand_of y)) result }
{
    match y.convert(env, at, ty) {
        Ok(value) => requested_of(env, at, Request::Create(function), Some(INT), value),
        Err(e) => Err(e),
    }
}

// `ktthread_create` of two arguments.
fn begun_by(env: &Environment<'_>, at: u32, x: Operand, y: Operand) -> Answer
    ensures { Follows operand_of (begun (environment_of env.now) at (operand_of x ∷ operand_of y ∷ [])) result }
{
    match x.standing {
        Standing::Entry(function) => {
            let ty = x.ty;
            drop(x);
            begun_at(env, at, function, ty, y)
        }
        _ => {
            drop((x, y));
            Err(bad_type(at))
        }
    }
}

/// `ktthread_create`
#[tactic(auto, using(crate::proofs::Taken::twos))]
pub(crate) fn begun(env: &Environment<'_>, at: u32, arguments: Vec<Operand>) -> Answer
    ensures { Follows operand_of (begun (environment_of env.now) at (operands_of arguments)) result }
{
    match two(arguments) {
        Some((x, y)) => begun_by(env, at, x, y),
        None => Err(bad_type(at)),
    }
}
