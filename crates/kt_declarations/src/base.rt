//! Types of declarators by the bases that they have.

ghost use Rattle.std.specs.Prelude.{◌≡◌, ◌==◌, option_and_then, List, ℕ};
ghost use Rattle.std.specs.List.{list_any};
ghost use Rattle.kt_typing.specs.Environment.{base_type, starred};
ghost use Rattle.kt_operands.specs.Views.{environment_of, scope_of};
ghost use Rattle.kt_program.specs.Declarators.{declared_type, named_struct, has_cells, base_fault, is_holdable};
ghost use Rattle.kt_program.specs.Mentioned.{stars_of};
ghost use Rattle.kt_program.specs.Structs.{cells_of};

use crate::first::where_not;
use kt_grammar::Base;
use kt_operands::environment::Environment;
use kt_operands::types::{CHAR, INT, LONG, MUTEX};
use kt_syntax::Pointer;
use kt_typing::{Fault, Kind};

/// The type of a base.
pub fn base_type(env: &Environment<'_>, base: &Base) -> Option<u32>
    ensures { result ≡ base_type (environment_of env.now) base.now }
{
    match base {
        Base::Char => Some(CHAR),
        Base::Int => Some(INT),
        Base::Long => Some(LONG),
        Base::Mutex => Some(MUTEX),
        Base::Struct(name) => env.struct_named(name.word.as_bytes()),
    }
}

// The type of pointers to a type, where there is one.
fn pointer(env: &Environment<'_>, ty: Option<u32>) -> Option<u32>
    ensures { result ≡ option_and_then (environment_of env.now).pointer ty }
{
    let ty = ty?;
    env.pointer(ty)
}

/// The type with so many stars.
pub fn starred(env: &Environment<'_>, stars: usize, ty: Option<u32>) -> Option<u32>
    ensures { result ≡ starred (environment_of env.now) stars ty }
{
    let mut whole = ty;
    for _star in 0..stars {
        whole = pointer(env, whole);
    }
    whole
}

/// How many stars a declarator has.
pub fn stars_of(pointer: &Option<Pointer>) -> usize
    ensures { result ≡ stars_of pointer.now }
{
    match pointer {
        None => 0,
        Some(p) => p.stars.count,
    }
}

/// The type of a declarator, or of its elements where it is an array.
pub fn declared_type(env: &Environment<'_>, base: &Base, pointer: &Option<Pointer>) -> Option<u32>
    ensures { result ≡ declared_type (environment_of env.now) base.now pointer.now }
{
    starred(env, stars_of(pointer), base_type(env, base))
}

// The place where a base names a struct.
fn named_struct(base: &Base) -> u32
    ensures { result ≡ named_struct base.now }
{
    match base {
        Base::Struct(name) => name.at,
        Base::Char => 0,
        Base::Int => 0,
        Base::Long => 0,
        Base::Mutex => 0,
    }
}

fn has_cells(env: &Environment<'_>, ty: Option<u32>) -> bool
    ensures { result ≡ has_cells (scope_of env.now) ty }
{
    match ty {
        None => false,
        Some(t) => env.is_complete(t),
    }
}

/// What is wrong where a declarator of this base is a value, and no pointer, and the base a struct that is not defined before.
pub fn base_fault(env: &Environment<'_>, base: &Base, by_value: bool) -> Option<Fault>
    ensures { (stars : List ℕ) → list_any (λ n. n == 0) stars ≡ by_value → result ≡ base_fault (environment_of env.now) base.now stars }
{
    let complete = has_cells(env, base_type(env, base));
    where_not(!by_value || complete, named_struct(base), Kind::Incomplete)
}

/// Whether a type is what a local may hold and a function may give.
pub fn is_holdable(env: &Environment<'_>, ty: Option<u32>) -> bool
    ensures { result ≡ is_holdable (scope_of env.now) ty }
{
    match ty {
        None => false,
        Some(t) => env.is_scalar(t),
    }
}

/// How many cells a type has: 1 where it is not complete.
#[tactic(auto, unfolding(kt_operands::specs::Views::scope_of))]
pub fn cells_of(env: &Environment<'_>, ty: Option<u32>) -> u32
    ensures { result ≡ cells_of (scope_of env.now) ty }
{
    let Some(t) = ty else {
        return 1;
    };
    if env.types.is_complete(t) {
        env.types.cells_of(t)
    } else {
        1
    }
}
