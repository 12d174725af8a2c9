//! What calls want of their arguments.

ghost use Rattle.std.specs.Prelude.{◌≡◌, slice_get, ◌++◌, ◌∷◌, [], Ok, IfOk, IfErr, if◌then◌else◌};
ghost use Rattle.kt_tree.specs.Tree.{Expression, Expressions, More, expression_of};
ghost use Rattle.kt_terms.specs.declared.argument.Wanted.TheVariants.{Parameter};
ghost use Rattle.kt_names.specs.declared.fault.CheckFault.TheVariants.{BadType, NoMemory};
ghost use Rattle.kt_names.specs.Checked.{Checked, fault, and_then, both};
ghost use Rattle.kt_names.specs.Types.{long, char, pointer_to, same_ctype};
ghost use Rattle.kt_names.specs.Judges.{Judges};
ghost use Rattle.kt_names.specs.Views.{environment_of, operand_of, expressions_of, value_of};
ghost use Rattle.kt_names.specs.Operands.{Operand};
ghost use Rattle.kt_names.specs.Builtins.{points_to, takes, integer_argument};
ghost use Rattle.kt_terms.specs.Arguments.{TypedArguments, argument_at, JudgesArgument, AreJudged, wanted_value, all_wanted, with_wanted, none_left, last_first, in_order};

use crate::argument::{Argument, Wanted};
use kt_names::ctype::CType;
use kt_names::environment::Environment;
use kt_names::fault::CheckFault;
use kt_names::format::Conversion;
use kt_names::judged::both;
use kt_names::operand::Value;
use kt_tree::Expr;
use sqlite_items::Items;
use std::alloc::Global;

/// The value, where it is of this type.
fn of_type(up: u32, t: CType, v: Value) -> Result<Value, CheckFault>
    ensures { Judges value_of result (if same_ctype v.ty t then Ok (value_of v) else fault (BadType up)) }
{
    if v.ty.is(t) {
        return Ok(v);
    }
    v.let_go();
    Err(CheckFault::BadType { at: up })
}

/// The value, where it is no `long`.
fn not_long(up: u32, v: Value) -> Result<Value, CheckFault>
    ensures { Judges value_of result (if same_ctype v.ty long then fault (BadType up) else Ok (value_of v)) }
{
    if v.ty.is(CType::long()) {
        v.let_go();
        return Err(CheckFault::BadType { at: up });
    }
    Ok(v)
}

/// The value of an argument that is a pointer to this type, in a call at `up`.
pub(crate) fn points_to(
    env: &Environment<'_>,
    up: u32,
    x: Argument,
    e: CType,
) -> Result<Value, CheckFault>
    ensures { JudgesArgument x value_of result (λ a. points_to (environment_of env.now) up a e) }
{
    match x.pointer(env, up) {
        Ok(v) => points_at(up, e, v),
        Err(fault) => Err(fault),
    }
}

/// The value, where it is a pointer to this type.
fn points_at(up: u32, e: CType, v: Value) -> Result<Value, CheckFault>
    ensures { Judges value_of result (if same_ctype v.ty (pointer_to e) then Ok (value_of v) else fault (BadType up)) }
{
    match e.pointer_to() {
        Ok(t) => of_type(up, t, v),
        Err(fault) => {
            v.let_go();
            Err(fault)
        }
    }
}

/// The argument of `%ld`.
fn takes_long(env: &Environment<'_>, up: u32, x: Argument) -> Result<Value, CheckFault>
    ensures { JudgesArgument x value_of result (λ a. and_then (integer_argument (environment_of env.now) up a) (λ v. if same_ctype v.ty long then Ok v else fault (BadType up))) }
{
    match x.integer(env, up) {
        Ok(v) => of_type(up, CType::long(), v),
        Err(fault) => Err(fault),
    }
}

/// The argument of `%d` or `%c`.
fn takes_int(env: &Environment<'_>, up: u32, x: Argument) -> Result<Value, CheckFault>
    ensures { JudgesArgument x value_of result (λ a. and_then (integer_argument (environment_of env.now) up a) (λ v. if same_ctype v.ty long then fault (BadType up) else Ok v)) }
{
    match x.integer(env, up) {
        Ok(v) => not_long(up, v),
        Err(fault) => Err(fault),
    }
}

/// The argument of a piece of a format.
fn takes(
    env: &Environment<'_>,
    up: u32,
    piece: Conversion,
    x: Argument,
) -> Result<Value, CheckFault>
    ensures { JudgesArgument x value_of result (takes (environment_of env.now) up piece) }
{
    match piece {
        Conversion::Plain(_) => takes_int(env, up, x),
        Conversion::Decimal => takes_int(env, up, x),
        Conversion::LongDecimal => takes_long(env, up, x),
        Conversion::Byte => takes_int(env, up, x),
        Conversion::Text => points_to(env, up, x, CType::char()),
    }
}

/// The argument of a piece of a format, as an operand.
fn piece_value(
    env: &Environment<'_>,
    up: u32,
    piece: Conversion,
    x: Argument,
) -> Result<Expr, CheckFault>
    ensures { JudgesArgument x expression_of result (λ a. and_then (takes (environment_of env.now) up piece a) (λ v. Ok v.expression)) }
{
    match takes(env, up, piece, x) {
        Ok(v) => Ok(v.expression),
        Err(fault) => Err(fault),
    }
}

/// An argument as what is wanted of it.
fn wanted_value(
    env: &Environment<'_>,
    up: u32,
    wanted: Wanted,
    x: Argument,
) -> Result<Expr, CheckFault>
    ensures { JudgesArgument x expression_of result (wanted_value (environment_of env.now) up wanted) }
{
    match wanted {
        Wanted::Parameter(t) => x.convert(env, t, up),
        Wanted::Piece(piece) => piece_value(env, up, piece, x),
    }
}

/// The operands, and one more at the end.
fn pushed(mut operands: Vec<Expr>, operand: Expr) -> Result<Vec<Expr>, CheckFault>
    ensures ok { IfOk result (λ es. es.items ≡ operands.items ++ operand ∷ []) }
    ensures err { IfErr result (λ f. f ≡ NoMemory) }
{
    operands.push(operand)?;
    Ok(operands)
}

/// An operand before those that are judged, of which the last comes first.
fn with_operand(
    operand: Result<Expr, CheckFault>,
    rest: Result<Vec<Expr>, CheckFault>,
) -> Result<Vec<Expr>, CheckFault>
    ensures { (a : Checked Expression) → (r : Checked Expressions) → Judges expression_of operand a → Judges last_first rest r → Judges last_first result (and_then (both a r) (λ y. Ok (More y.0 y.1))) }
{
    match both(operand, rest) {
        Ok(parts) => pushed(parts.1, parts.0),
        Err(fault) => Err(fault),
    }
}

/// An argument, where one is wanted, before those that are judged.
fn with_wanted(
    env: &Environment<'_>,
    up: u32,
    wanted: Option<Wanted>,
    x: Argument,
    rest: Result<Vec<Expr>, CheckFault>,
) -> Result<Vec<Expr>, CheckFault>
    ensures { (s : Checked Operand) → (r : Checked Expressions) → Judges operand_of x.typed s → Judges last_first rest r → Judges last_first result (with_wanted (environment_of env.now) up wanted (argument_at x s) r) }
{
    match wanted {
        None => {
            drop((x, rest));
            Err(CheckFault::BadType { at: up })
        }
        Some(wanted) => with_operand(wanted_value(env, up, wanted, x), rest),
    }
}

/// What is behind all arguments: a fault, where more is wanted.
fn none_left(alloc: Global, up: u32, wanted: Option<Wanted>) -> Result<Vec<Expr>, CheckFault>
    ensures { Judges last_first result (none_left up wanted) }
{
    match wanted {
        None => Ok(Vec::new(alloc)),
        Some(_) => Err(CheckFault::BadType { at: up }),
    }
}

/// What is wanted at a place.
fn wanted_at(wanted: &[Wanted], at: usize) -> Option<Wanted>
    ensures { result ≡ slice_get wanted.now at }
{
    wanted.get(at).copied()
}

/// Operands of which the last comes first, in order.
fn in_order(operands: Result<Vec<Expr>, CheckFault>) -> Result<Items<Expr>, CheckFault>
    ensures { (r : Checked Expressions) → Judges last_first operands r → Judges in_order result r }
{
    let mut operands = operands?;
    operands.reverse();
    Ok(Items::from_vec(operands))
}

/// As many arguments as are wanted, each as what is wanted of it. They are judged from the last to the first.
pub(crate) fn all_wanted(
    env: &Environment<'_>,
    up: u32,
    wanted: &[Wanted],
    mut arguments: Items<Argument>,
) -> Result<Items<Expr>, CheckFault>
    ensures { (specs : TypedArguments) → AreJudged arguments specs → Judges in_order result (all_wanted (environment_of env.now) up wanted.now specs) }
{
    let mut operands = none_left(env.alloc, up, wanted_at(wanted, arguments.len()));
    while let Some(x) = arguments.pop() {
        operands = with_wanted(env, up, wanted_at(wanted, arguments.len()), x, operands);
    }
    in_order(operands)
}
