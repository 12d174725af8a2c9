//! Places: elements and fields (ISO/IEC 9899:2011, 6.5.2).

ghost use Rattle.std.specs.Prelude.{◌≡◌, Ok};
ghost use Rattle.kt_tree.specs.Kinds.{pointee};
ghost use Rattle.kt_typing.specs.Rules.{place_standing, place_at, indexed, element_of, element, field_standing, field_found, field_at, pointed_type, pointed, is_whole, member};
ghost use Rattle.kt_operands.specs.Judged.{Follows, found};
ghost use Rattle.kt_operands.specs.Views.{environment_of, scope_of, operand_of, value_of};

use kt_grammar::Name;
use kt_operands::environment::Environment;
use kt_operands::given::{operated, operated_on};
use kt_operands::operand::{Operand, Value, bad_type, unknown};
use kt_operands::refusal::Refusal;
use kt_tree::Operation;
use kt_types::{Field, Ty};
use kt_typing::Standing;

/// What stands at a pointer of a type: a cell, or a struct or mutex.
pub fn place_standing(env: &Environment<'_>, ty: u32) -> Standing
    ensures { result ≡ place_standing (scope_of env.now) ty }
{
    match env.pointee(ty) {
        None => Standing::Whole,
        Some(e) => {
            if env.is_scalar(e) {
                Standing::Cell
            } else {
                Standing::Whole
            }
        }
    }
}

// The place at a pointer that an operation gives.
fn place_at(env: &Environment<'_>, pointer: Operand) -> Operand
    ensures { place_at (scope_of env.now) (Ok (operand_of pointer)) ≡ Ok (operand_of result) }
{
    let standing = place_standing(env, pointer.ty);
    Operand {
        at: pointer.at,
        standing,
        ty: pointer.ty,
        tree: pointer.tree,
    }
}

// What is indexed: a pointer.
fn indexed(env: &Environment<'_>, at: u32, x: Operand) -> Result<Value, Refusal>
    ensures { Follows value_of (found at (indexed (scope_of env.now) (operand_of x))) result }
{
    match x.standing {
        Standing::Elements => Ok(x.as_value()),
        Standing::Value => x.value(env, at),
        Standing::Zero => x.value(env, at),
        Standing::Null => x.value(env, at),
        Standing::Local(_) => x.value(env, at),
        Standing::Cell => x.value(env, at),
        Standing::Whole => x.value(env, at),
        Standing::Size(_) => x.value(env, at),
        Standing::Product(_) => x.value(env, at),
        Standing::Nothing => x.value(env, at),
        Standing::Entry(_) => x.value(env, at),
    }
}

// `p[i]`, of values.
#[tactic(auto, using(crate::proofs::Steps::steps))]
fn element_of(env: &Environment<'_>, at: u32, p: Value, i: Value) -> Result<Operand, Refusal>
    ensures { Follows operand_of (element_of (environment_of env.now) at (pointee (scope_of env.now) p.ty) (value_of p) (value_of i)) result }
{
    let ty = p.ty;
    match env.pointee(ty) {
        Some(e) => {
            let place = operated(env, at, Operation::ElementAfter(e), ty, p, i)?;
            Ok(place_at(env, place))
        }
        None => {
            drop((p, i));
            Err(bad_type(at))
        }
    }
}

/// `a[i]`
#[tactic(auto, using(crate::proofs::Steps::steps))]
pub fn element(env: &Environment<'_>, at: u32, a: Operand, i: Operand) -> Result<Operand, Refusal>
    ensures { Follows operand_of (element (environment_of env.now) at (operand_of a) (operand_of i)) result }
{
    let p = indexed(env, at, a)?;
    let n = i.value(env, at)?;
    element_of(env, at, p, n)
}

// The place of a field at a pointer that an operation gives: of an array field the pointer to its first element.
fn field_place(env: &Environment<'_>, field: Field, pointer: Operand) -> Operand
    ensures { field_standing (scope_of env.now) field (Ok (operand_of pointer)) ≡ Ok (operand_of result) }
{
    if env.is_array(field.ty) {
        pointer
    } else {
        place_at(env, pointer)
    }
}

// A field of the struct of a number, at a pointer to it.
#[tactic(auto, using(crate::proofs::Steps::steps))]
fn field_found(
    env: &Environment<'_>,
    at: u32,
    named: u32,
    number: u32,
    p: Value,
    field: Option<Field>,
) -> Result<Operand, Refusal>
    ensures { Follows operand_of (field_found (environment_of env.now) at named number (value_of p) field) result }
{
    let Some(field) = field else {
        drop(p);
        return Err(unknown(named));
    };
    let Some(ty) = env.pointer(env.field_pointee(field.ty)) else {
        drop(p);
        return Err(bad_type(at));
    };
    let place = operated_on(env, at, Operation::Field(number, field.index), ty, p)?;
    Ok(field_place(env, field, place))
}

// What a pointer of the type points to, as a type.
fn pointed_type(env: &Environment<'_>, ty: u32) -> Option<Ty>
    ensures { result ≡ pointed_type (scope_of env.now) ty }
{
    let e = env.pointee(ty)?;
    env.ty(e)
}

// A field of what a pointer points to, which is a struct with a definition.
fn field_at(env: &Environment<'_>, at: u32, f: &Name, p: Value) -> Result<Operand, Refusal>
    ensures { Follows operand_of (field_at (environment_of env.now) at f.now (value_of p) (pointed_type (scope_of env.now) p.ty)) result }
{
    match pointed_type(env, p.ty) {
        Some(Ty::Struct(number)) => match env.fields(number) {
            Some(_) => {
                let field = env.field_named(number, f.word.as_bytes());
                field_found(env, at, f.at, number, p, field)
            }
            None => {
                drop(p);
                Err(Refusal::Fault(env.without_fields(at, f.at)))
            }
        },
        _ => {
            drop(p);
            Err(bad_type(at))
        }
    }
}

/// `p->f`
#[tactic(auto, using(crate::proofs::Steps::steps))]
pub fn pointed(env: &Environment<'_>, at: u32, f: &Name, x: Operand) -> Result<Operand, Refusal>
    ensures { Follows operand_of (pointed (environment_of env.now) at f.now (operand_of x)) result }
{
    let p = x.value(env, at)?;
    field_at(env, at, f, p)
}

// Whether what stands so is a struct or a mutex.
fn is_whole(standing: Standing) -> bool
    ensures { result ≡ is_whole standing }
{
    match standing {
        Standing::Whole => true,
        _ => false,
    }
}

/// `s.f`
pub fn member(env: &Environment<'_>, at: u32, f: &Name, x: Operand) -> Result<Operand, Refusal>
    ensures { Follows operand_of (member (environment_of env.now) at f.now (operand_of x)) result }
{
    if is_whole(x.standing) {
        field_at(env, at, f, x.as_value())
    } else {
        drop(x);
        Err(bad_type(at))
    }
}
