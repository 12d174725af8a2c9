//! Which types and names declarations may have.

ghost use Rattle.std.specs.Prelude.{◌≡◌, ◌==◌, ◌||◌, not, List, map, IfOk, IfErr, Some};
ghost use Rattle.std.specs.List.{list_any};
ghost use Rattle.std.specs.Option.{option_map};
ghost use Rattle.kt_grammar.specs.declared.tree.Base.TheVariants as base;
ghost use Rattle.kt_syntax.specs.Tree.{local_of};
ghost use Rattle.kt_names.specs.declared.fault.CheckFault.TheVariants.{NoMemory, Incomplete};
ghost use Rattle.kt_names.specs.Checked.{holds};
ghost use Rattle.kt_names.specs.Judges.{Judges};
ghost use Rattle.kt_names.specs.Types.{ctype, root_of};
ghost use Rattle.kt_names.specs.Environment.{is_complete};
ghost use Rattle.kt_names.specs.Uses.{stars_of};
ghost use Rattle.kt_names.specs.Statements.{declarator_place, struct_place, base_for, held, is_count, extent_outside, pointer_outside};
ghost use Rattle.kt_names.specs.Views.{environment_of, outer_of};

use kt_grammar::{Base, Name};
use kt_names::ctype::{CType, Root};
use kt_names::environment::Environment;
use kt_names::fault::CheckFault;
use kt_names::info::Outer;
use kt_syntax::{Extent, LocalDeclarator, Pointer};

/// How many stars a declarator has.
pub(crate) fn stars_of(pointer: &Option<Pointer>) -> usize
    ensures { result ≡ stars_of pointer.now }
{
    match pointer {
        Some(pointer) => pointer.stars.count,
        None => 0,
    }
}

/// The number of the struct of this name.
fn struct_root(env: &Environment<'_>, name: &Name) -> Result<Root, CheckFault>
    ensures ok { IfOk result (λ r. r ≡ root_of (environment_of env.now).names (base.Struct name.now)) }
    ensures memory { IfErr result (λ f. f ≡ NoMemory) }
{
    match env.names.get_index_of(name.word.as_bytes()) {
        Some(place) => match u32::try_from(place) {
            Ok(number) => Ok(Root::Struct(number)),
            Err(_) => Err(CheckFault::NoMemory),
        },
        None => Ok(Root::Struct(0)),
    }
}

/// The type that a base names.
fn root_of(env: &Environment<'_>, base: &Base) -> Result<Root, CheckFault>
    ensures ok { IfOk result (λ r. r ≡ root_of (environment_of env.now).names base.now) }
    ensures memory { IfErr result (λ f. f ≡ NoMemory) }
{
    match base {
        Base::Char => Ok(Root::Char),
        Base::Int => Ok(Root::Int),
        Base::Long => Ok(Root::Long),
        Base::Mutex => Ok(Root::Mutex),
        Base::Struct(name) => struct_root(env, name),
    }
}

/// The type of a base with so many stars.
pub(crate) fn ctype(env: &Environment<'_>, base: &Base, stars: usize) -> Result<CType, CheckFault>
    ensures ok { IfOk result (λ t. t ≡ ctype (environment_of env.now).names base.now stars) }
    ensures memory { IfErr result (λ f. f ≡ NoMemory) }
{
    let root = root_of(env, base)?;
    Ok(CType { root, stars })
}

/// Where a declarator begins.
pub(crate) fn declarator_place(pointer: &Option<Pointer>, name: &Name) -> u32
    ensures { result ≡ declarator_place pointer.now name.now }
{
    match pointer {
        Some(pointer) => pointer.stars.at,
        None => name.at,
    }
}

/// Where a base names a struct.
fn struct_place(base: &Base) -> u32
    ensures { result ≡ struct_place base.now }
{
    match base {
        Base::Struct(name) => name.at,
        Base::Char => 0,
        Base::Int => 0,
        Base::Long => 0,
        Base::Mutex => 0,
    }
}

/// Whether one of the declarators has no stars.
pub(crate) fn is_one_plain(declarators: &[LocalDeclarator]) -> bool
    ensures { result ≡ list_any (λ n. n == 0) (map (λ l. stars_of l.pointer) (map local_of declarators.now)) }
{
    for declarator in declarators {
        if stars_of(&declarator.pointer) == 0 {
            return true;
        }
    }
    false
}

/// The struct of a base is defined before here, where it is declared without stars.
pub(crate) fn base_for(env: &Environment<'_>, base: &Base, plain: bool) -> Result<(), CheckFault>
    ensures { Judges (λ _. tt) result (holds (not plain || is_complete (environment_of env.now) (ctype (environment_of env.now).names base.now 0)) (Incomplete (struct_place base.now))) }
{
    let t = ctype(env, base, 0)?;
    if !plain || env.is_complete(t) {
        Ok(())
    } else {
        Err(CheckFault::Incomplete {
            at: struct_place(base),
        })
    }
}

/// A function holds integers and pointers alone.
pub(crate) fn held(
    env: &Environment<'_>,
    base: &Base,
    pointer: &Option<Pointer>,
    name: &Name,
) -> Result<(), CheckFault>
    ensures { Judges (λ _. tt) result (held (environment_of env.now) base.now pointer.now name.now) }
{
    let t = ctype(env, base, stars_of(pointer))?;
    if t.is_scalar() {
        Ok(())
    } else {
        Err(CheckFault::BadType {
            at: declarator_place(pointer, name),
        })
    }
}

/// Whether a name of the whole file is an integer global that is no array.
fn is_count(outer: Option<&Outer>) -> bool
    ensures { result ≡ is_count (option_map (λ o. outer_of o.now) outer.exit) }
{
    match outer {
        Some(Outer::Global(_, t, array)) => !*array && t.is_integer(),
        Some(Outer::Function(_)) => false,
        None => false,
    }
}

/// `E_PTRARRAY` outside a struct names an integer global or a number of at most 65,536.
fn extent_outside(env: &Environment<'_>, extent: &Extent) -> Result<(), CheckFault>
    ensures { Judges (λ _. tt) result (extent_outside (environment_of env.now) extent.now) }
{
    match extent {
        Extent::Name(name) => {
            if is_count(env.outer_named(name.word.as_bytes())) {
                Ok(())
            } else {
                Err(CheckFault::Unknown { at: name.at })
            }
        }
        Extent::Number(at, number) => {
            if number.value <= 65536 {
                Ok(())
            } else {
                Err(CheckFault::Unknown { at: *at })
            }
        }
    }
}

/// A declarator's `E_PTRARRAY`, where it has one.
pub(crate) fn pointer_outside(
    env: &Environment<'_>,
    pointer: &Option<Pointer>,
) -> Result<(), CheckFault>
    ensures { Judges (λ _. tt) result (pointer_outside (environment_of env.now) pointer.now) }
{
    match pointer {
        None => Ok(()),
        Some(pointer) => {
            if pointer.stars.count == 0 {
                return Err(CheckFault::BadType {
                    at: pointer.stars.at,
                });
            }
            match &pointer.extent {
                None => Ok(()),
                Some(extent) => extent_outside(env, extent),
            }
        }
    }
}
