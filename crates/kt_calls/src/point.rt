//! Names of points, and locals that an update keeps.

ghost use Rattle.std.specs.Prelude.{◌≡◌, Some, None};
ghost use Rattle.std.specs.Option.{option_map};
ghost use Rattle.kt_lex.specs.Bytes.{is_word_byte};
ghost use Rattle.kt_tree.specs.Names.{is_point_name};
ghost use Rattle.kt_tree.specs.Kinds.{int_type};
ghost use Rattle.kt_tree.specs.declared.expr.Request.TheVariants as request;
ghost use Rattle.kt_typing.specs.declared.standing.Standing.TheVariants as standing;
ghost use Rattle.kt_tree.specs.Tree.{Constant', LocalRead};
ghost use Rattle.kt_typing.specs.Environment.{Stands};
ghost use Rattle.kt_typing.specs.Faults.{fault_at};
ghost use Rattle.kt_typing.specs.declared.fault.Kind.TheVariants as kind;
ghost use Rattle.kt_operands.specs.declared.refusal.Refusal.TheVariants as refusal;
ghost use Rattle.kt_typing.specs.Calls.{pointed_at, kept, kept_name};
ghost use Rattle.kt_operands.specs.Judged.{Follows};
ghost use Rattle.kt_operands.specs.Views.{environment_of, operand_of, meaning_of};

use crate::argument::Answer;
use kt_grammar::Name;
use kt_operands::environment::Environment;
use kt_operands::given::requested;
use kt_operands::meaning::Meaning;
use kt_operands::operand::{Value, bad_type, valued};
use kt_operands::refusal::Refusal;
use kt_operands::tree;
use kt_operands::types::INT;
use kt_tree::{Constant, Request};
use kt_typing::{Fault, Kind, Standing};
use sqlite_items::Items;

// Whether it is a letter, a digit or an underscore.
fn is_word_byte(b: u8) -> bool
    ensures { result ≡ is_word_byte b }
{
    b.is_ascii_alphanumeric() || b == b'_'
}

// Whether it is a name of a point.
fn is_point_name(name: &[u8]) -> bool
    ensures { result ≡ is_point_name name.now }
{
    name.iter().all(|b| is_word_byte(*b) || *b == b'-')
}

/// `kitsune_update` of a string.
pub(crate) fn reached(env: &Environment<'_>, at: u32, text: Option<&[u8]>) -> Answer
    ensures { Follows operand_of (pointed_at (environment_of env.now) at request.Point None (option_map (λ t. t.now) text.entry)) result }
{
    let Some(name) = text else {
        return Err(bad_type(at));
    };
    if !is_point_name(name) {
        return Err(bad_type(at));
    }
    requested(env, at, Request::Point(env.point(name)), None)
}

/// `kitsune_is_updating_from` of a string.
pub(crate) fn asked_from(env: &Environment<'_>, at: u32, text: Option<&[u8]>) -> Answer
    ensures { Follows operand_of (pointed_at (environment_of env.now) at request.IsUpdatingFrom (Some int_type) (option_map (λ t. t.now) text.entry)) result }
{
    let Some(name) = text else {
        return Err(bad_type(at));
    };
    if !is_point_name(name) {
        return Err(bad_type(at));
    }
    requested(env, at, Request::IsUpdatingFrom(env.point(name)), Some(INT))
}

// An update can't keep it.
fn not_kept(at: u32) -> Refusal
    ensures { result ≡ refusal.Fault (fault_at kind.Note at) }
{
    Refusal::Fault(Fault {
        at,
        kind: Kind::Note,
    })
}

// `MIGRATE_LOCAL` of the local of a number.
fn kept_local(env: &Environment<'_>, at: u32, local: u32) -> Answer
    ensures { Follows operand_of (kept (environment_of env.now) at (Stands (standing.Local local) 0 (LocalRead local))) result }
{
    let request = Request::MigrateLocal(local);
    if !env.takes_request(&request, Some(INT), &[]) {
        drop(request);
        return Err(not_kept(at));
    }
    let tree = tree::requested(env.alloc, request, Some(INT), Items::new(env.alloc))?;
    Ok(valued(at, Value { ty: INT, tree }))
}

// `MIGRATE_LOCAL` of what stands so.
fn kept_place(env: &Environment<'_>, at: u32, what: Standing, ty: u32, value: Constant) -> Answer
    ensures { Follows operand_of (kept (environment_of env.now) at (Stands what ty (Constant' value ty))) result }
{
    match what {
        Standing::Local(local) => kept_local(env, at, local),
        Standing::Value => Err(not_kept(at)),
        Standing::Zero => Err(not_kept(at)),
        Standing::Null => Err(not_kept(at)),
        Standing::Cell => Err(not_kept(at)),
        Standing::Whole => Err(not_kept(at)),
        Standing::Elements => Err(not_kept(at)),
        Standing::Size(_) => Err(not_kept(at)),
        Standing::Product(_) => Err(not_kept(at)),
        Standing::Nothing => Err(not_kept(at)),
        Standing::Entry(_) => Err(not_kept(at)),
    }
}

// `MIGRATE_LOCAL` of what a name stands for.
fn kept(env: &Environment<'_>, at: u32, meaning: Meaning) -> Answer
    ensures { Follows operand_of (kept (environment_of env.now) at (meaning_of meaning)) result }
{
    match meaning {
        Meaning::Local(local, _) => kept_local(env, at, local),
        Meaning::Missing => Err(not_kept(at)),
        Meaning::Barred => Err(not_kept(at)),
        Meaning::Fixed(what, ty, value) => kept_place(env, at, what, ty, value),
        Meaning::Routine(_) => Err(not_kept(at)),
    }
}

/// `MIGRATE_LOCAL` of a name.
pub(crate) fn kept_name(env: &Environment<'_>, at: u32, name: Option<&Name>) -> Answer
    ensures { Follows operand_of (kept_name (environment_of env.now) at (option_map (λ n. n.now) name.entry)) result }
{
    match name {
        None => Err(not_kept(at)),
        Some(name) => kept(env, at, env.named(name.word.as_bytes())),
    }
}
