//! Elements and fields (ISO/IEC 9899:2011, 6.5.2.1, 6.5.2.3).

ghost use Rattle.std.specs.Prelude.{◌≡◌, Ok, []};
ghost use Rattle.kt_tree.specs.Tree.{expression_of};
ghost use Rattle.kt_tree.specs.declared.expr.Operation.TheVariants as operation;
ghost use Rattle.kt_names.specs.Judges.{Judges};
ghost use Rattle.kt_names.specs.Views.{environment_of, operand_of, value_of, found_as};
ghost use Rattle.kt_names.specs.Types.{pointee};
ghost use Rattle.kt_names.specs.Environment.{struct_in};
ghost use Rattle.kt_names.specs.Rules.{operated, place_at, element_place, element, field_pointer, field_of, field_place, struct_field, member, pointed_field, pointed};

use kt_grammar::Name;
use kt_names::ctype::CType;
use kt_names::environment::Environment;
use kt_names::fault::CheckFault;
use kt_names::info::FoundField;
use kt_names::node;
use kt_names::operand::{Operand, Value};
use kt_names::pair::Pair;
use kt_tree::{Expr, Operation};

/// The place of a type at a pointer to it.
pub(crate) fn place_at(t: CType, pointer: Expr) -> Operand
    ensures { operand_of result ≡ place_at t (expression_of pointer) }
{
    if t.is_scalar() {
        Operand::CellPlace(t, pointer)
    } else {
        Operand::WholePlace(t, pointer)
    }
}

/// The element of a type at a pointer and so many elements on.
fn element_at(env: &Environment<'_>, p: Value, i: Value, e: CType) -> Result<Operand, CheckFault>
    ensures { Judges operand_of result (Ok (place_at e (operated (environment_of env.now) (operation.ElementAfter ((environment_of env.now).place e)) p.ty (expression_of p.expression) (expression_of i.expression)))) }
{
    let operation = Operation::ElementAfter(env.place(e));
    let ty = env.place(p.ty);
    let pointer = node::operated(env.alloc, operation, ty, p.expression, i.expression)?;
    Ok(place_at(e, pointer))
}

/// The element that a pointer and an index give.
fn element_place(env: &Environment<'_>, at: u32, p: Value, i: Value) -> Result<Operand, CheckFault>
    ensures { Judges operand_of result (element_place (environment_of env.now) at (value_of p) (value_of i) (pointee p.ty)) }
{
    match p.ty.pointee() {
        None => {
            drop((p, i));
            Err(CheckFault::BadType { at })
        }
        Some(e) => {
            if env.is_complete(e) {
                element_at(env, p, i, e)
            } else {
                drop((p, i));
                Err(CheckFault::Incomplete { at })
            }
        }
    }
}

/// `a[i]`
#[tactic(auto, using(kt_names::proofs::Parts::parts))]
pub(crate) fn element(
    env: &Environment<'_>,
    at: u32,
    right: u32,
    a: Operand,
    i: Operand,
) -> Result<Operand, CheckFault>
    ensures { Judges operand_of result (element (environment_of env.now) at right (operand_of a) (operand_of i)) }
{
    let operands = Pair {
        left: a,
        at,
        right: i,
        other: right,
    };
    let values = operands.indexed(env, at)?;
    element_place(env, at, values.0, values.1)
}

/// A pointer to a field of a struct at a pointer.
fn field_pointer(
    env: &Environment<'_>,
    number: u32,
    pointer: Expr,
    field: FoundField,
) -> Result<Expr, CheckFault>
    ensures { Judges expression_of result (Ok (field_pointer (environment_of env.now) number (expression_of pointer) (found_as [] field))) }
{
    match field.ty.pointer_to() {
        Ok(t) => {
            let operation = Operation::Field(number, field.index);
            let pointer = node::operated_on(env.alloc, operation, env.place(t), pointer)?;
            Ok(pointer)
        }
        Err(fault) => {
            drop(pointer);
            Err(fault)
        }
    }
}

/// The place of a field: an array field is one of its elements' type.
fn field_of(
    env: &Environment<'_>,
    number: u32,
    pointer: Expr,
    field: FoundField,
) -> Result<Operand, CheckFault>
    ensures { Judges operand_of result (Ok (field_of (environment_of env.now) number (expression_of pointer) (found_as [] field))) }
{
    let pointer = field_pointer(env, number, pointer, field)?;
    if field.array {
        Ok(Operand::ArrayPlace(field.ty, pointer))
    } else {
        Ok(place_at(field.ty, pointer))
    }
}

/// The field of a struct at a pointer, where the struct is defined before here.
fn field_place(
    env: &Environment<'_>,
    at: u32,
    pointer: Expr,
    field: &Name,
    t: CType,
) -> Result<Operand, CheckFault>
    ensures { Judges operand_of result (field_place (environment_of env.now) at (expression_of pointer) field.now (struct_in (environment_of env.now) t)) }
{
    match env.struct_in(t) {
        None => {
            drop(pointer);
            Err(CheckFault::Incomplete { at })
        }
        Some((number, info)) => match info.field_named(field.word.as_bytes()) {
            None => {
                drop(pointer);
                Err(CheckFault::Unknown { at: field.at })
            }
            Some(found) => field_of(env, number, pointer, found),
        },
    }
}

/// The field of a type that is a struct, at a pointer.
fn struct_field(
    env: &Environment<'_>,
    at: u32,
    pointer: Expr,
    field: &Name,
    t: CType,
) -> Result<Operand, CheckFault>
    ensures { Judges operand_of result (struct_field (environment_of env.now) at (expression_of pointer) field.now t) }
{
    if t.is_struct() {
        field_place(env, at, pointer, field, t)
    } else {
        drop(pointer);
        Err(CheckFault::BadType { at })
    }
}

/// `s.f`
pub(crate) fn member(
    env: &Environment<'_>,
    at: u32,
    a: Operand,
    field: &Name,
) -> Result<Operand, CheckFault>
    ensures { Judges operand_of result (member (environment_of env.now) at (operand_of a) field.now) }
{
    match a {
        Operand::WholePlace(t, pointer) => struct_field(env, at, pointer, field, t),
        Operand::Valued(_, gone) => {
            drop(gone);
            Err(CheckFault::BadType { at })
        }
        Operand::Zero => Err(CheckFault::BadType { at }),
        Operand::Null => Err(CheckFault::BadType { at }),
        Operand::LocalPlace(_, _) => Err(CheckFault::BadType { at }),
        Operand::CellPlace(_, gone) => {
            drop(gone);
            Err(CheckFault::BadType { at })
        }
        Operand::ArrayPlace(_, gone) => {
            drop(gone);
            Err(CheckFault::BadType { at })
        }
        Operand::NoResult(gone) => {
            drop(gone);
            Err(CheckFault::BadType { at })
        }
    }
}

/// The field of what a pointer points to.
fn pointed_field(
    env: &Environment<'_>,
    at: u32,
    p: Value,
    field: &Name,
) -> Result<Operand, CheckFault>
    ensures { Judges operand_of result (pointed_field (environment_of env.now) at (expression_of p.expression) field.now (pointee p.ty)) }
{
    match p.ty.pointee() {
        None => {
            drop(p);
            Err(CheckFault::BadType { at })
        }
        Some(t) => struct_field(env, at, p.expression, field, t),
    }
}

/// `p->f`
#[tactic(auto, using(kt_names::proofs::Parts::parts))]
pub(crate) fn pointed(
    env: &Environment<'_>,
    at: u32,
    a: Operand,
    field: &Name,
) -> Result<Operand, CheckFault>
    ensures { Judges operand_of result (pointed (environment_of env.now) at (operand_of a) field.now) }
{
    let p = a.pointer(env, at, at)?;
    pointed_field(env, at, p, field)
}
