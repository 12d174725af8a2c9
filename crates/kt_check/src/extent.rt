//! How much pointers point to (`E_PTRARRAY`), outside structs.

ghost use Rattle.std.specs.Prelude.{◌≡◌, Ok};
ghost use Rattle.std.specs.Option.{option_map};
ghost use Rattle.kt_names.specs.Checked.{holds};
ghost use Rattle.kt_names.specs.Judges.{Judges};
ghost use Rattle.kt_names.specs.Statements.{is_count, extent_outside, pointer_outside};
ghost use Rattle.kt_names.specs.Tables.{outer_view, plain_view, view_of, global_view};
ghost use Rattle.kt_names.specs.Views.{environment_of, outer_of};

use kt_grammar::Base;
use kt_names::environment::Environment;
use kt_names::fault::CheckFault;
use kt_names::info::Outer;
use kt_syntax::{Extent, Pointer};
use kt_types::View;

/// The fault, unless the test holds.
pub(crate) fn holds(test: bool, fault: CheckFault) -> Result<(), CheckFault>
    ensures { Judges (λ _. tt) result (holds test fault) }
{
    if test { Ok(()) } else { Err(fault) }
}

/// Whether a name stands for an integer global that is no array.
fn is_count(outer: Option<&Outer>) -> bool
    ensures { result ≡ is_count (option_map (λ o. outer_of o.now) outer.entry) }
{
    match outer {
        Some(outer) => match outer {
            Outer::Global(_, t, array) => !*array && t.is_integer(),
            Outer::Function(_) => false,
        },
        None => false,
    }
}

/// An extent names an integer global, or a number of at most 65,536.
pub(crate) fn extent_outside(env: &Environment<'_>, extent: &Extent) -> Result<(), CheckFault>
    ensures { Judges (λ _. tt) result (extent_outside (environment_of env.now) extent.now) }
{
    match extent {
        Extent::Name(name) => {
            let found = is_count(env.outer_named(name.word.as_bytes()));
            holds(found, CheckFault::Unknown { at: name.at })
        }
        Extent::Number(at, n) => holds(n.value <= 65_536, CheckFault::Unknown { at: *at }),
    }
}

/// The extent of a declarator outside a struct.
pub(crate) fn pointer_outside(
    env: &Environment<'_>,
    pointer: &Option<Pointer>,
) -> Result<(), CheckFault>
    ensures { Judges (λ _. tt) result (pointer_outside (environment_of env.now) pointer.now) }
{
    match pointer {
        None => Ok(()),
        Some(pointer) => {
            if pointer.stars.count == 0 {
                return Err(CheckFault::BadType {
                    at: pointer.stars.at,
                });
            }
            match &pointer.extent {
                None => Ok(()),
                Some(extent) => extent_outside(env, extent),
            }
        }
    }
}

/// The view of a plain declarator: a `char *` points to a whole object, another pointer to one element.
pub(crate) fn plain_view(base: &Base, pointer: &Option<Pointer>) -> View
    ensures { result ≡ plain_view base.now pointer.now }
{
    match base {
        Base::Char => match pointer {
            Some(pointer) => {
                if pointer.stars.count == 1 {
                    View::Whole
                } else {
                    View::One
                }
            }
            None => View::One,
        },
        Base::Int => View::One,
        Base::Long => View::One,
        Base::Mutex => View::One,
        Base::Struct(_) => View::One,
    }
}

/// The view of what a name stands for.
pub(crate) fn global_view(outer: Option<&Outer>) -> View
    ensures { result ≡ global_view (option_map (λ o. outer_of o.now) outer.entry) }
{
    match outer {
        Some(outer) => match outer {
            Outer::Global(number, _, _) => View::Global(*number),
            Outer::Function(_) => View::One,
        },
        None => View::One,
    }
}

/// The view of an extent outside a struct, which is right.
fn outer_view(env: &Environment<'_>, extent: &Extent) -> View
    ensures { extent_outside (environment_of env.now) extent.now ≡ Ok tt → result ≡ outer_view (environment_of env.now).outer extent.now }
{
    match extent {
        Extent::Name(name) => global_view(env.outer_named(name.word.as_bytes())),
        Extent::Number(_, n) => {
            if n.value <= 65_536 {
                View::Count(n.value as u32)
            } else {
                View::One
            }
        }
    }
}

/// The view of a declarator outside a struct, whose extent is right.
pub(crate) fn view_of(env: &Environment<'_>, base: &Base, pointer: &Option<Pointer>) -> View
    ensures { pointer_outside (environment_of env.now) pointer.now ≡ Ok tt → result ≡ view_of (environment_of env.now).outer base.now pointer.now }
{
    match pointer {
        None => plain_view(base, pointer),
        Some(stars) => match &stars.extent {
            None => plain_view(base, pointer),
            Some(extent) => outer_view(env, extent),
        },
    }
}
