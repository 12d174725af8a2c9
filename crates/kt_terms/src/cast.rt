//! Casts (ISO/IEC 9899:2011, 6.5.4).

ghost use Rattle.std.specs.Prelude.{Ok, ◌&&◌, if◌then◌else◌};
ghost use Rattle.kt_names.specs.declared.fault.CheckFault.TheVariants.{BadType};
ghost use Rattle.kt_names.specs.Checked.{and_then, fault};
ghost use Rattle.kt_names.specs.Judges.{Judges};
ghost use Rattle.kt_names.specs.Types.{is_pointer, same_ctype};
ghost use Rattle.kt_names.specs.Views.{environment_of, operand_of};
ghost use Rattle.kt_names.specs.Operands.{Valued, value_type, integer, converted_to};
ghost use Rattle.kt_names.specs.Terms.{cast_to, cast};

use crate::name::named_type;
use kt_grammar::TypeName;
use kt_names::ctype::CType;
use kt_names::environment::Environment;
use kt_names::fault::CheckFault;
use kt_names::operand::Operand;

/// The type of an operand's value, where the operand stands at `own` in an expression that begins at `up`.
fn value_type(a: &Operand, own: u32, up: u32) -> Result<CType, CheckFault>
    ensures { Judges (λ t. t) result (value_type own up (operand_of a.now)) }
{
    match a {
        Operand::Valued(t, _) => Ok(*t),
        Operand::Zero => Ok(CType::int()),
        Operand::Null => Err(CheckFault::BadType { at: up }),
        Operand::LocalPlace(_, t) => Ok(*t),
        Operand::CellPlace(t, _) => Ok(*t),
        Operand::ArrayPlace(t, _) => {
            let t = t.pointer_to()?;
            Ok(t)
        }
        Operand::WholePlace(_, _) => Err(CheckFault::BadType { at: own }),
        Operand::NoResult(_) => Err(CheckFault::BadType { at: up }),
    }
}

/// The operand, where its type is this type of pointers.
fn kept(at: u32, t: CType, own: CType, a: Operand) -> Result<Operand, CheckFault>
    ensures { Judges operand_of result (if is_pointer own && same_ctype own t then Ok (operand_of a) else fault (BadType at)) }
{
    if own.is_pointer() && own.is(t) {
        return Ok(a);
    }
    a.let_go();
    Err(CheckFault::BadType { at })
}

/// An operand whose value is a pointer of a type, as it is.
#[tactic(auto, using(kt_names::proofs::Parts::parts))]
fn cast_pointer(at: u32, inner: u32, t: CType, a: Operand) -> Result<Operand, CheckFault>
    ensures { Judges operand_of result (and_then (value_type inner at (operand_of a)) (λ own. if is_pointer own && same_ctype own t then Ok (operand_of a) else fault (BadType at))) }
{
    match value_type(&a, inner, at) {
        Ok(own) => kept(at, t, own, a),
        Err(fault) => {
            a.let_go();
            Err(fault)
        }
    }
}

/// An integer as one of another type.
#[tactic(auto, using(kt_names::proofs::Parts::parts))]
fn cast_integer(
    env: &Environment<'_>,
    at: u32,
    inner: u32,
    t: CType,
    a: Operand,
) -> Result<Operand, CheckFault>
    ensures { Judges operand_of result (and_then (integer (environment_of env.now) inner at (operand_of a)) (λ v. Ok (Valued t (converted_to (environment_of env.now) t v)))) }
{
    let v = a.integer(env, inner, at)?;
    let expression = v.converted_to(env, t)?;
    Ok(Operand::Valued(t, expression))
}

/// A cast to an integer type, or to the pointer type of the allocation behind it.
fn cast_to(
    env: &Environment<'_>,
    at: u32,
    inner: u32,
    t: CType,
    allocates: bool,
    a: Operand,
) -> Result<Operand, CheckFault>
    ensures { Judges operand_of result (cast_to (environment_of env.now) at inner t allocates (operand_of a)) }
{
    if t.is_integer() {
        return cast_integer(env, at, inner, t, a);
    }
    if allocates {
        return cast_pointer(at, inner, t, a);
    }
    a.let_go();
    Err(CheckFault::BadType { at })
}

/// A cast to a type name; `allocates` tells whether an allocation stands behind it.
pub(crate) fn cast(
    env: &Environment<'_>,
    at: u32,
    inner: u32,
    t: &TypeName,
    allocates: bool,
    a: Operand,
) -> Result<Operand, CheckFault>
    ensures { Judges operand_of result (cast (environment_of env.now) at inner t.now allocates (operand_of a)) }
{
    match named_type(env, t) {
        Ok(t) => cast_to(env, at, inner, t, allocates, a),
        Err(fault) => {
            a.let_go();
            Err(fault)
        }
    }
}
