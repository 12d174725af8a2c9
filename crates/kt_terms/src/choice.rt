//! The conditional operator (ISO/IEC 9899:2011, 6.5.15).

ghost use Rattle.std.specs.Prelude.{◌≡◌, Ok};
ghost use Rattle.kt_tree.specs.Tree.{expression_of, Chosen};
ghost use Rattle.kt_names.specs.Checked.{and_then, both, found};
ghost use Rattle.kt_names.specs.Judges.{Judges};
ghost use Rattle.kt_names.specs.Views.{environment_of, operand_of, value_of, values_of, choice_of};
ghost use Rattle.kt_names.specs.declared.fault.CheckFault.TheVariants.{BadType};
ghost use Rattle.kt_names.specs.Operands.{Valued, scalar};
ghost use Rattle.kt_names.specs.Rules.{arms, arm_values, chosen_of, choice};

use crate::compare::{is_null, null_before, null_behind};
use kt_names::ctype::CType;
use kt_names::environment::Environment;
use kt_names::fault::CheckFault;
use kt_names::judged::both;
use kt_names::node;
use kt_names::operand::{Operand, Value};
use kt_names::pair::Pair;

/// The type of the whole, of the arms' types: two integers, or two pointers of one type.
fn arms(a: &Value, b: &Value) -> Option<CType>
    ensures { result ≡ arms (value_of a.now) (value_of b.now) }
{
    if a.ty.is_integer() && b.ty.is_integer() {
        return Some(a.ty.common(b.ty));
    }
    if a.ty.is_pointer() && a.ty.is(b.ty) {
        return Some(a.ty);
    }
    None
}

/// The values of two arms, of which one may be null, which is then of the other's type.
#[tactic(auto, using(crate::proofs::Nulls::null_arms))]
fn arm_values(env: &Environment<'_>, at: u32, pair: Pair) -> Result<(Value, Value), CheckFault>
    ensures { Judges values_of result (arm_values (environment_of env.now) at pair.at pair.other (operand_of pair.left) (operand_of pair.right)) }
{
    let left = is_null(&pair.left);
    let right = is_null(&pair.right);
    if left && right {
        return pair.scalars(env, at);
    }
    if left {
        return null_before(env, pair, at);
    }
    if right {
        return null_behind(env, pair, at);
    }
    pair.values(env, at)
}

/// The condition and the arms.
fn choice_parts(
    env: &Environment<'_>,
    at: u32,
    c: Operand,
    pair: Pair,
) -> Result<(Value, (Value, Value)), CheckFault>
    ensures { Judges choice_of result (both (scalar (environment_of env.now) at at (operand_of c)) (arm_values (environment_of env.now) at pair.at pair.other (operand_of pair.left) (operand_of pair.right))) }
{
    both(c.scalar(env, at, at), arm_values(env, at, pair))
}

/// The choice between two values of one type.
fn chosen(
    env: &Environment<'_>,
    t: CType,
    c: Value,
    a: Value,
    b: Value,
) -> Result<Operand, CheckFault>
    ensures { Judges operand_of result (Ok (Valued t (Chosen (expression_of c.expression) ((environment_of env.now).place t) (expression_of a.expression) (expression_of b.expression)))) }
{
    let ty = env.place(t);
    let whole = node::chosen(env.alloc, c.expression, ty, a.expression, b.expression)?;
    Ok(Operand::Valued(t, whole))
}

/// The choice between two values.
fn chosen_of(
    env: &Environment<'_>,
    at: u32,
    parts: (Value, (Value, Value)),
) -> Result<Operand, CheckFault>
    ensures { Judges operand_of result (chosen_of (environment_of env.now) at (choice_of parts)) }
{
    let (c, (a, b)) = parts;
    match arms(&a, &b) {
        Some(t) => chosen(env, t, c, a, b),
        None => {
            c.let_go();
            a.let_go();
            b.let_go();
            Err(CheckFault::BadType { at })
        }
    }
}

/// `c ? a : b`
#[tactic(auto, using(kt_names::proofs::Parts::parts))]
pub(crate) fn choice(
    env: &Environment<'_>,
    at: u32,
    c: Operand,
    pair: Pair,
) -> Result<Operand, CheckFault>
    ensures { Judges operand_of result (choice (environment_of env.now) at pair.at pair.other (operand_of c) (operand_of pair.left) (operand_of pair.right)) }
{
    let parts = choice_parts(env, at, c, pair)?;
    chosen_of(env, at, parts)
}
