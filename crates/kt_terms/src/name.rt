//! Names (ISO/IEC 9899:2011, 6.5.1), type names, and text in quotes.

ghost use Rattle.std.specs.Prelude.{◌≡◌, Ok, IfOk, IfErr, map};
ghost use Rattle.std.specs.Option.{option_map, option_copied};
ghost use Rattle.std.specs.Str.{bytes_eq};
ghost use Rattle.kt_tree.specs.Tree.{expression_of};
ghost use Rattle.kt_names.specs.declared.fault.CheckFault.TheVariants.{NoMemory};
ghost use Rattle.kt_names.specs.Judges.{Judges};
ghost use Rattle.kt_names.specs.Types.{root_of, place_by};
ghost use Rattle.kt_names.specs.Views.{environment_of, operand_of, outer_of};
ghost use Rattle.kt_names.specs.Terms.{global_address, global_place, local_place, outer_place, outer_name, named, string, named_type};

use crate::place::place_at;
use indexmap::IndexSet;
use kt_grammar::{Base, Name, TypeName};
use kt_names::builtin::builtin_named;
use kt_names::ctype::{CType, Root};
use kt_names::environment::Environment;
use kt_names::fault::CheckFault;
use kt_names::info::Outer;
use kt_names::operand::Operand;
use kt_tree::{Constant, Expr};

/// The address of the first cell of a global of a type.
fn global_address(env: &Environment<'_>, global: u32, t: CType) -> Result<Expr, CheckFault>
    ensures { Judges expression_of result (Ok (global_address (environment_of env.now) global t)) }
{
    let ty = t.pointer_to()?;
    Ok(Expr::Constant(Constant::Global(global), env.place(ty)))
}

/// The place of a global: its type, of an array that of its elements, and whether it is an array.
fn global_place(
    env: &Environment<'_>,
    global: u32,
    t: CType,
    array: bool,
) -> Result<Operand, CheckFault>
    ensures { Judges operand_of result (Ok (global_place (environment_of env.now) global t array)) }
{
    let address = global_address(env, global, t)?;
    if array {
        Ok(Operand::ArrayPlace(t, address))
    } else {
        Ok(place_at(t, address))
    }
}

/// The place of a local of a type.
fn local_place(local: u32, t: Option<&CType>) -> Operand
    ensures { operand_of result ≡ local_place local (option_copied t.entry) }
{
    match t {
        Some(t) => Operand::LocalPlace(local, *t),
        None => Operand::LocalPlace(local, CType::int()),
    }
}

/// A name of the whole file, for which this stands: a function's has no value, and what is not defined is unknown.
fn outer_place(env: &Environment<'_>, at: u32, outer: Option<&Outer>) -> Result<Operand, CheckFault>
    ensures { Judges operand_of result (outer_place (environment_of env.now) at (option_map (λ o. outer_of o.now) outer.entry)) }
{
    match outer {
        None => Err(CheckFault::Unknown { at }),
        Some(Outer::Global(global, t, array)) => global_place(env, *global, *t, *array),
        Some(Outer::Function(signature)) => match signature.number {
            Some(_) => Err(CheckFault::BadType { at }),
            None => Err(CheckFault::Unknown { at }),
        },
    }
}

/// A name that no local in scope has. A built-in call's has no value.
fn outer_name(env: &Environment<'_>, name: &Name) -> Result<Operand, CheckFault>
    ensures { Judges operand_of result (outer_name (environment_of env.now) name.now) }
{
    match builtin_named(name.word.as_bytes()) {
        Some(_) => Err(CheckFault::BadType { at: name.at }),
        None => outer_place(env, name.at, env.outer_named(name.word.as_bytes())),
    }
}

/// A name.
pub(crate) fn named(env: &Environment<'_>, name: &Name) -> Result<Operand, CheckFault>
    ensures { Judges operand_of result (named (environment_of env.now) name.now) }
{
    match env.local_named(name.word.as_bytes()) {
        None => outer_name(env, name),
        Some(local) => Ok(local_place(local, env.locals.get(local as usize))),
    }
}

/// The text in quotes at a place of the file.
pub(crate) fn string(env: &Environment<'_>, at: u32) -> Operand
    ensures { operand_of result ≡ string (environment_of env.now) at }
{
    let literal = match env.literals.get(&at) {
        Some(literal) => *literal,
        None => 0,
    };
    let ty = env.place(CType::text());
    Operand::Valued(
        CType::text(),
        Expr::Constant(Constant::Literal(literal), ty),
    )
}

/// The place of a name in a table; 0 where it is not there. There is no memory for as many names as a number can't count.
pub(crate) fn place_of(names: &IndexSet<Vec<u8>>, name: &[u8]) -> Result<u32, CheckFault>
    ensures ok { IfOk result (λ n. n ≡ place_by (λ n. bytes_eq n name.now) (map (λ n. n.items) names.now.keys)) }
    ensures err { IfErr result (λ f. f ≡ NoMemory) }
{
    match names.get_index_of(name) {
        None => Ok(0),
        Some(place) => match u32::try_from(place) {
            Ok(number) => Ok(number),
            Err(_) => Err(CheckFault::NoMemory),
        },
    }
}

/// What a base is without stars.
fn root_of(env: &Environment<'_>, base: &Base) -> Result<Root, CheckFault>
    ensures ok { IfOk result (λ r. r ≡ root_of (environment_of env.now).names base.now) }
    ensures err { IfErr result (λ f. f ≡ NoMemory) }
{
    match base {
        Base::Char => Ok(Root::Char),
        Base::Int => Ok(Root::Int),
        Base::Long => Ok(Root::Long),
        Base::Mutex => Ok(Root::Mutex),
        Base::Struct(name) => {
            let number = place_of(env.names, name.word.as_bytes())?;
            Ok(Root::Struct(number))
        }
    }
}

/// The type of a type name.
pub(crate) fn named_type(env: &Environment<'_>, t: &TypeName) -> Result<CType, CheckFault>
    ensures ok { IfOk result (λ r. r ≡ named_type (environment_of env.now) t.now) }
    ensures err { IfErr result (λ f. f ≡ NoMemory) }
{
    let root = root_of(env, &t.base)?;
    Ok(CType {
        root,
        stars: t.stars,
    })
}
