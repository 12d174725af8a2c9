//! Unary operators (ISO/IEC 9899:2011, 6.5.3), and numbers (6.4.4.1).

ghost use Rattle.std.specs.Prelude.{◌≡◌, Ok, false};
ghost use Rattle.kt_tree.specs.Tree.{expression_of, Operated, More, NoMore};
ghost use Rattle.kt_tree.specs.declared.expr.Operation.TheVariants as operation;
ghost use Rattle.kt_grammar.specs.declared.operator.PrefixOperator.TheVariants as prefix;
ghost use Rattle.kt_names.specs.Checked.{and_then};
ghost use Rattle.kt_names.specs.Judges.{Judges};
ghost use Rattle.kt_names.specs.Views.{environment_of, operand_of, value_of};
ghost use Rattle.kt_names.specs.Types.{int, common, pointee, pointer_to};
ghost use Rattle.kt_names.specs.Operands.{Valued, zero};
ghost use Rattle.kt_names.specs.Rules.{operated, dereferenced, address_of, unary, number, number_type, changed, one};

use crate::assign::{Change, changed, one};
use crate::combine::operated;
use crate::place::place_at;
use kt_grammar::{BinaryOperator, PrefixOperator};
use kt_lex::Number;
use kt_names::ctype::CType;
use kt_names::environment::Environment;
use kt_names::fault::CheckFault;
use kt_names::node;
use kt_names::operand::{Operand, Value, number_value, zero};
use kt_tree::{Expr, Operation};

/// The type of a number: an `int` has no suffix and is at most 2,147,483,647.
fn number_type(n: Number) -> CType
    ensures { result ≡ number_type n }
{
    if n.long || n.value > 2_147_483_647 {
        CType::long()
    } else {
        CType::int()
    }
}

/// A number; the one spelled `0` converts to pointers.
pub(crate) fn number(env: &Environment<'_>, at: u32, n: Number) -> Result<Operand, CheckFault>
    ensures { Judges operand_of result (number (environment_of env.now) at n) }
{
    if n.value == 0 && !n.long && !n.hexadecimal {
        return Ok(Operand::Zero);
    }
    if n.value > i64::MAX as u64 {
        return Err(CheckFault::BadType { at });
    }
    let t = number_type(n);
    Ok(Operand::Valued(t, number_value(env, t, n.value as i64)))
}

/// `-v`
fn negative(env: &Environment<'_>, v: Value) -> Result<Operand, CheckFault>
    ensures { Judges operand_of result (Ok (Valued (common v.ty v.ty) (operated (environment_of env.now) operation.Subtract (common v.ty v.ty) (zero (environment_of env.now)) (expression_of v.expression)))) }
{
    let t = v.ty.common(v.ty);
    let whole = operated(env, Operation::Subtract, t, zero(env), v.expression)?;
    Ok(Operand::Valued(t, whole))
}

/// `!v`
fn inverse(env: &Environment<'_>, v: Value) -> Result<Operand, CheckFault>
    ensures { Judges operand_of result (Ok (Valued int (Operated operation.Not ((environment_of env.now).place int) (More (expression_of v.expression) NoMore)))) }
{
    let ty = env.place(CType::int());
    let whole = node::operated_on(env.alloc, Operation::Not, ty, v.expression)?;
    Ok(Operand::Valued(CType::int(), whole))
}

/// `*p`, of a value
fn dereferenced(at: u32, p: Value) -> Result<Operand, CheckFault>
    ensures { Judges operand_of result (dereferenced at (value_of p) (pointee p.ty)) }
{
    match p.ty.pointee() {
        None => {
            drop(p);
            Err(CheckFault::BadType { at })
        }
        Some(e) => Ok(place_at(e, p.expression)),
    }
}

/// A pointer to a place of a type.
fn pointing(t: CType, pointer: Expr) -> Result<Operand, CheckFault>
    ensures { Judges operand_of result (Ok (Valued (pointer_to t) (expression_of pointer))) }
{
    match t.pointer_to() {
        Ok(ty) => Ok(Operand::Valued(ty, pointer)),
        Err(fault) => {
            drop(pointer);
            Err(fault)
        }
    }
}

/// `&x`
fn address_of(at: u32, a: Operand) -> Result<Operand, CheckFault>
    ensures { Judges operand_of result (address_of at (operand_of a)) }
{
    match a {
        Operand::CellPlace(t, pointer) => pointing(t, pointer),
        Operand::WholePlace(t, pointer) => pointing(t, pointer),
        Operand::Valued(_, gone) => {
            drop(gone);
            Err(CheckFault::BadType { at })
        }
        Operand::Zero => Err(CheckFault::BadType { at }),
        Operand::Null => Err(CheckFault::BadType { at }),
        Operand::LocalPlace(_, _) => Err(CheckFault::BadType { at }),
        Operand::ArrayPlace(_, gone) => {
            drop(gone);
            Err(CheckFault::BadType { at })
        }
        Operand::NoResult(gone) => {
            drop(gone);
            Err(CheckFault::BadType { at })
        }
    }
}

/// `-a`
#[tactic(auto, using(kt_names::proofs::Parts::parts))]
fn negated(env: &Environment<'_>, at: u32, inner: u32, a: Operand) -> Result<Operand, CheckFault>
    ensures { Judges operand_of result (unary (environment_of env.now) at inner prefix.Negate (operand_of a)) }
{
    let v = a.integer(env, inner, at)?;
    negative(env, v)
}

/// `!a`
#[tactic(auto, using(kt_names::proofs::Parts::parts))]
fn inverted(env: &Environment<'_>, at: u32, inner: u32, a: Operand) -> Result<Operand, CheckFault>
    ensures { Judges operand_of result (unary (environment_of env.now) at inner prefix.Not (operand_of a)) }
{
    let v = a.scalar(env, inner, at)?;
    inverse(env, v)
}

/// `*a`
#[tactic(auto, using(kt_names::proofs::Parts::parts))]
fn pointed_to(env: &Environment<'_>, at: u32, inner: u32, a: Operand) -> Result<Operand, CheckFault>
    ensures { Judges operand_of result (unary (environment_of env.now) at inner prefix.Dereference (operand_of a)) }
{
    let p = a.pointer(env, inner, at)?;
    dereferenced(at, p)
}

/// `++a` and `--a`
fn stepped(
    env: &Environment<'_>,
    at: u32,
    op: BinaryOperator,
    a: Operand,
) -> Result<Operand, CheckFault>
    ensures { Judges operand_of result (changed (environment_of env.now) at false op (operand_of a) (one (environment_of env.now))) }
{
    let change = Change { at, old: false, op };
    let v = one(env);
    changed(env, change, a, v)
}

/// A prefix operator at `at`, and its operand, which begins at `inner`.
pub(crate) fn unary(
    env: &Environment<'_>,
    at: u32,
    inner: u32,
    op: PrefixOperator,
    a: Operand,
) -> Result<Operand, CheckFault>
    ensures { Judges operand_of result (unary (environment_of env.now) at inner op (operand_of a)) }
{
    match op {
        PrefixOperator::Negate => negated(env, at, inner, a),
        PrefixOperator::Not => inverted(env, at, inner, a),
        PrefixOperator::Dereference => pointed_to(env, at, inner, a),
        PrefixOperator::AddressOf => address_of(at, a),
        PrefixOperator::Increment => stepped(env, at, BinaryOperator::Add, a),
        PrefixOperator::Decrement => stepped(env, at, BinaryOperator::Subtract, a),
    }
}
