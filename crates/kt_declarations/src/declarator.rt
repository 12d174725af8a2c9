//! What is judged of declarators, and the views that they give.

ghost use Rattle.std.specs.Prelude.{◌≡◌};
ghost use Rattle.kt_operands.specs.Views.{environment_of, scope_of, meaning_of};
ghost use Rattle.kt_program.specs.Declarators.{declarator_place, held_fault, is_integer_cell, is_count, extent_fault, extent_of};

use crate::base::{declared_type, is_holdable};
use crate::first::where_not;
use kt_grammar::{Base, Name};
use kt_operands::environment::Environment;
use kt_operands::meaning::Meaning;
use kt_syntax::{Extent, Pointer};
use kt_typing::{Fault, Kind, Standing};

/// The place of a declarator's first token.
pub fn declarator_place(pointer: &Option<Pointer>, name: &Name) -> u32
    ensures { result ≡ declarator_place pointer.now name.now }
{
    match pointer {
        None => name.at,
        Some(p) => p.stars.at,
    }
}

/// What is wrong where a local or parameter is neither an integer nor a pointer.
pub fn held_fault(
    env: &Environment<'_>,
    base: &Base,
    pointer: &Option<Pointer>,
    name: &Name,
) -> Option<Fault>
    ensures { result ≡ held_fault (environment_of env.now) base.now pointer.now name.now }
{
    let holds = is_holdable(env, declared_type(env, base, pointer));
    where_not(holds, declarator_place(pointer, name), Kind::BadType)
}

fn is_integer_cell(env: &Environment<'_>, ty: Option<u32>) -> bool
    ensures { result ≡ is_integer_cell (scope_of env.now) ty }
{
    match ty {
        None => false,
        Some(t) => env.is_integer(t),
    }
}

// Whether it is an integer global that is no array.
fn is_count(env: &Environment<'_>, meaning: Meaning) -> bool
    ensures { result ≡ is_count (scope_of env.now) (meaning_of meaning) }
{
    match meaning {
        Meaning::Fixed(Standing::Cell, t, _) => is_integer_cell(env, env.pointee(t)),
        _ => false,
    }
}

/// What is wrong where `E_PTRARRAY` names neither an integer global nor a number of at most 65,536.
pub fn extent_fault(env: &Environment<'_>, pointer: &Option<Pointer>) -> Option<Fault>
    ensures { result ≡ extent_fault (environment_of env.now) (extent_of pointer.now) }
{
    let Some(p) = pointer else {
        return None;
    };
    match &p.extent {
        None => None,
        Some(Extent::Name(n)) => {
            let counts = is_count(env, env.named(n.word.as_bytes()));
            where_not(counts, n.at, Kind::Unknown)
        }
        Some(Extent::Number(at, n)) => where_not(n.value <= 65_536, *at, Kind::Unknown),
    }
}
