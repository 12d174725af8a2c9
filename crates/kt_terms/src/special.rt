//! Built-in calls that ask how their arguments are written.

ghost use Rattle.std.specs.Prelude.{◌≡◌};
ghost use Rattle.std.specs.Option.{option_map};
ghost use Rattle.kt_lex.specs.Bytes.{is_word_byte};
ghost use Rattle.kt_tree.specs.Names.{is_point_name};
ghost use Rattle.kt_names.specs.Judges.{Judges};
ghost use Rattle.kt_names.specs.Views.{environment_of, operand_of};
ghost use Rattle.kt_names.specs.Builtins.{updated, updating_from, migrated};
ghost use Rattle.kt_terms.specs.Spellings.{spelled};
ghost use Rattle.kt_terms.specs.Specials.{updated_by, updating_by, migrated_by};

use crate::name::place_of;
use crate::request::asking_nothing;
use crate::spelling::Spelling;
use kt_grammar::Name;
use kt_names::environment::Environment;
use kt_names::fault::CheckFault;
use kt_names::node;
use kt_names::operand::Operand;
use kt_tree::Request;

/// Whether it is a letter, a digit or an underscore.
fn is_word_byte(b: u8) -> bool
    ensures { result ≡ is_word_byte b }
{
    b.is_ascii_alphanumeric() || b == b'_'
}

/// Whether it is a name of a point.
fn is_point_name(name: &[u8]) -> bool
    ensures { result ≡ is_point_name name.now }
{
    name.iter().all(|b| is_word_byte(*b) || *b == b'-')
}

/// `kitsune_update` of a name.
fn updated(env: &Environment<'_>, up: u32, name: &[u8]) -> Result<Operand, CheckFault>
    ensures { Judges operand_of result (updated (environment_of env.now) up name.now) }
{
    if !is_point_name(name) {
        return Err(CheckFault::BadType { at: up });
    }
    let point = place_of(env.points, name)?;
    let whole = node::requested(env.alloc, Request::Point(point), None);
    Ok(Operand::NoResult(whole))
}

/// `kitsune_is_updating_from` a name.
fn updating_from(env: &Environment<'_>, up: u32, name: &[u8]) -> Result<Operand, CheckFault>
    ensures { Judges operand_of result (updating_from (environment_of env.now) up name.now) }
{
    if !is_point_name(name) {
        return Err(CheckFault::BadType { at: up });
    }
    let point = place_of(env.points, name)?;
    Ok(asking_nothing(env, Request::IsUpdatingFrom(point)))
}

/// `MIGRATE_LOCAL` of a name.
fn migrated(env: &Environment<'_>, up: u32, name: &Name) -> Result<Operand, CheckFault>
    ensures { Judges operand_of result (migrated (environment_of env.now) up name.now) }
{
    if !env.noted {
        return Err(CheckFault::Note { at: up });
    }
    match env.local_named(name.word.as_bytes()) {
        None => Err(CheckFault::Note { at: up }),
        Some(local) => Ok(asking_nothing(env, Request::MigrateLocal(local))),
    }
}

/// `kitsune_update`, whose argument is written so.
pub(crate) fn updated_by(
    env: &Environment<'_>,
    up: u32,
    spelling: Option<Spelling<'_>>,
) -> Result<Operand, CheckFault>
    ensures { Judges operand_of result (updated_by (environment_of env.now) up (option_map spelled spelling.entry)) }
{
    match spelling {
        None => Err(CheckFault::BadType { at: up }),
        Some(Spelling::Text(name)) => updated(env, up, name),
        Some(Spelling::Size(_, _)) => Err(CheckFault::BadType { at: up }),
        Some(Spelling::Name(_)) => Err(CheckFault::BadType { at: up }),
        Some(Spelling::Null) => Err(CheckFault::BadType { at: up }),
        Some(Spelling::Other) => Err(CheckFault::BadType { at: up }),
    }
}

/// `kitsune_is_updating_from`, whose argument is written so.
pub(crate) fn updating_by(
    env: &Environment<'_>,
    up: u32,
    spelling: Option<Spelling<'_>>,
) -> Result<Operand, CheckFault>
    ensures { Judges operand_of result (updating_by (environment_of env.now) up (option_map spelled spelling.entry)) }
{
    match spelling {
        None => Err(CheckFault::BadType { at: up }),
        Some(Spelling::Text(name)) => updating_from(env, up, name),
        Some(Spelling::Size(_, _)) => Err(CheckFault::BadType { at: up }),
        Some(Spelling::Name(_)) => Err(CheckFault::BadType { at: up }),
        Some(Spelling::Null) => Err(CheckFault::BadType { at: up }),
        Some(Spelling::Other) => Err(CheckFault::BadType { at: up }),
    }
}

/// `MIGRATE_LOCAL`, whose argument is written so.
pub(crate) fn migrated_by(
    env: &Environment<'_>,
    up: u32,
    spelling: Option<Spelling<'_>>,
) -> Result<Operand, CheckFault>
    ensures { Judges operand_of result (migrated_by (environment_of env.now) up (option_map spelled spelling.entry)) }
{
    match spelling {
        None => Err(CheckFault::BadType { at: up }),
        Some(Spelling::Name(name)) => migrated(env, up, name),
        Some(Spelling::Text(_)) => Err(CheckFault::Note { at: up }),
        Some(Spelling::Size(_, _)) => Err(CheckFault::Note { at: up }),
        Some(Spelling::Null) => Err(CheckFault::Note { at: up }),
        Some(Spelling::Other) => Err(CheckFault::Note { at: up }),
    }
}
