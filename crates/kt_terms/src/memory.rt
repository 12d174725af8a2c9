//! Allocations.

ghost use Rattle.std.specs.Prelude.{◌≡◌, true, false, Ok, slice_get};
ghost use Rattle.std.specs.Option.{option_map};
ghost use Rattle.kt_names.specs.declared.fault.CheckFault.TheVariants.{Incomplete};
ghost use Rattle.kt_names.specs.Checked.{Checked, holds};
ghost use Rattle.kt_names.specs.Environment.{is_complete};
ghost use Rattle.kt_names.specs.Operands.{Value};
ghost use Rattle.kt_names.specs.Judges.{Judges};
ghost use Rattle.kt_names.specs.Views.{environment_of, operand_of, value_of};
ghost use Rattle.kt_names.specs.Rules.{one};
ghost use Rattle.kt_names.specs.Terms.{struct_place, allocated, counted};
ghost use Rattle.kt_terms.specs.Arguments.{TypedArguments, JudgesArgument, JudgesTwo, AreJudged};
ghost use Rattle.kt_terms.specs.Spellings.{spelled};
ghost use Rattle.kt_terms.specs.Specials.{of_argument, zeroed_by, elements, nothing_of, counted_type, counted_of, TypedCount, allocated_at, bytes_by, memory_by, operated_by, operated_bytes, left_product, product, operation_by};

use crate::applied::operated_at;
use crate::argument::Argument;
use crate::assign::one;
use crate::name::named_type;
use crate::request::asking;
use crate::spelling::Spelling;
use crate::taken::first_argument;
use kt_grammar::{Base, BinaryOperator, TypeName};
use kt_names::ctype::CType;
use kt_names::environment::Environment;
use kt_names::fault::CheckFault;
use kt_names::judged::both;
use kt_names::operand::{Operand, Value};
use kt_tree::Request;
use sqlite_items::Items;

/// The place where a struct's name is spelled.
fn struct_place(base: &Base, at: u32) -> u32
    ensures { result ≡ struct_place base.now at }
{
    match base {
        Base::Struct(name) => name.at,
        Base::Char => at,
        Base::Int => at,
        Base::Long => at,
        Base::Mutex => at,
    }
}

/// So many elements of a type.
fn elements(
    env: &Environment<'_>,
    t: CType,
    zeros: bool,
    count: Value,
) -> Result<Operand, CheckFault>
    ensures { Judges operand_of result (Ok (elements (environment_of env.now) t zeros (value_of count))) }
{
    match t.pointer_to() {
        Ok(pointer) => asking(env, Request::Allocate(env.place(t), zeros), pointer, count),
        Err(fault) => {
            count.let_go();
            Err(fault)
        }
    }
}

/// The type, where it has its cells.
fn complete(env: &Environment<'_>, place: u32, t: CType) -> Result<CType, CheckFault>
    ensures { Judges nothing_of result (holds (is_complete (environment_of env.now) t) (Incomplete place)) }
{
    if env.is_complete(t) {
        return Ok(t);
    }
    Err(CheckFault::Incomplete { at: place })
}

/// A count, and a type that has its cells.
fn counted_type(
    env: &Environment<'_>,
    place: u32,
    t: CType,
    count: Result<Value, CheckFault>,
) -> Result<(Value, CType), CheckFault>
    ensures { (s : TypedCount) → Judges value_of count s → Judges counted_of result (counted_type (environment_of env.now) place t s) }
{
    both(count, complete(env, place, t))
}

/// An allocation of a count of elements of a type, whose fault is at `place`.
fn allocated_at(
    env: &Environment<'_>,
    place: u32,
    t: CType,
    zeros: bool,
    count: Result<Value, CheckFault>,
) -> Result<Operand, CheckFault>
    ensures { (s : TypedCount) → Judges value_of count s → Judges operand_of result (allocated_at (environment_of env.now) place t zeros s) }
{
    match counted_type(env, place, t, count) {
        Ok(parts) => elements(env, t, zeros, parts.0),
        Err(fault) => Err(fault),
    }
}

/// An allocation of a count of elements of a type name.
fn allocated(
    env: &Environment<'_>,
    at: u32,
    t: &TypeName,
    zeros: bool,
    count: Result<Value, CheckFault>,
) -> Result<Operand, CheckFault>
    ensures { (s : TypedCount) → Judges value_of count s → Judges operand_of result (allocated (environment_of env.now) at t.now zeros s) }
{
    match named_type(env, t) {
        Ok(own) => allocated_at(env, struct_place(&t.base, at), own, zeros, count),
        Err(fault) => {
            drop(count);
            Err(fault)
        }
    }
}

/// Elements of a type name, as many as an argument tells.
fn so_many(
    env: &Environment<'_>,
    up: u32,
    at: u32,
    t: &TypeName,
    zeros: bool,
    x: Argument,
) -> Result<Operand, CheckFault>
    ensures { JudgesArgument x operand_of result (λ a. allocated (environment_of env.now) at t.now zeros (counted (environment_of env.now) a.at up a.typed)) }
{
    allocated(env, at, t, zeros, x.integer(env, up))
}

/// Zeroed elements of a type name, as many as the first argument tells.
fn zeroed_first(
    env: &Environment<'_>,
    up: u32,
    at: u32,
    t: &TypeName,
    arguments: Items<Argument>,
) -> Result<Operand, CheckFault>
    ensures { (specs : TypedArguments) → AreJudged arguments specs → Judges operand_of result (of_argument up (λ a. allocated (environment_of env.now) at t.now true (counted (environment_of env.now) a.at up a.typed)) (slice_get specs 0)) }
{
    match first_argument(arguments) {
        None => Err(CheckFault::BadType { at: up }),
        Some(x) => so_many(env, up, at, t, true, x),
    }
}

/// `calloc`, whose second argument is written so.
pub(crate) fn zeroed_by(
    env: &Environment<'_>,
    up: u32,
    spelling: Option<Spelling<'_>>,
    arguments: Items<Argument>,
) -> Result<Operand, CheckFault>
    ensures { (specs : TypedArguments) → AreJudged arguments specs → Judges operand_of result (zeroed_by (environment_of env.now) up (option_map spelled spelling.entry) specs) }
{
    match spelling {
        None => Err(CheckFault::BadType { at: up }),
        Some(Spelling::Size(at, t)) => zeroed_first(env, up, at, t, arguments),
        Some(Spelling::Text(_)) => Err(CheckFault::BadType { at: up }),
        Some(Spelling::Name(_)) => Err(CheckFault::BadType { at: up }),
        Some(Spelling::Null) => Err(CheckFault::BadType { at: up }),
        Some(Spelling::Other) => Err(CheckFault::BadType { at: up }),
    }
}

/// So many bytes, counted by an argument.
fn bytes_by(env: &Environment<'_>, up: u32, x: Argument) -> Result<Operand, CheckFault>
    ensures { JudgesArgument x operand_of result (bytes_by (environment_of env.now) up) }
{
    match x.integer(env, up) {
        Ok(v) => elements(env, CType::char(), false, v),
        Err(fault) => Err(fault),
    }
}

/// One element of a type name.
fn one_element(env: &Environment<'_>, at: u32, t: &TypeName) -> Result<Operand, CheckFault>
    ensures { Judges operand_of result (allocated (environment_of env.now) at t.now false (Ok (one (environment_of env.now)))) }
{
    allocated(env, at, t, false, Ok(one(env)))
}

/// `malloc` of an argument that is no operation and is written so.
pub(crate) fn memory_by(
    env: &Environment<'_>,
    up: u32,
    spelling: Spelling<'_>,
    x: Argument,
) -> Result<Operand, CheckFault>
    ensures { JudgesArgument x operand_of result (memory_by (environment_of env.now) up (spelled spelling.entry)) }
{
    match spelling {
        Spelling::Size(at, t) => {
            drop(x);
            one_element(env, at, t)
        }
        Spelling::Text(_) => bytes_by(env, up, x),
        Spelling::Name(_) => bytes_by(env, up, x),
        Spelling::Null => bytes_by(env, up, x),
        Spelling::Other => bytes_by(env, up, x),
    }
}

/// An operation on two arguments.
fn operated_by(
    env: &Environment<'_>,
    op: BinaryOperator,
    x: Argument,
    y: Argument,
) -> Result<Operand, CheckFault>
    ensures { JudgesTwo x y operand_of result (operated_by (environment_of env.now) op) }
{
    let Argument { at, typed: left } = x;
    let Argument {
        at: other,
        typed: right,
    } = y;
    operated_at(env, op, at, other, both(left, right))
}

/// So many bytes, counted by an operation on two arguments.
fn operated_bytes(
    env: &Environment<'_>,
    up: u32,
    op: BinaryOperator,
    x: Argument,
    y: Argument,
) -> Result<Operand, CheckFault>
    ensures { JudgesTwo x y operand_of result (operated_bytes (environment_of env.now) up op) }
{
    let at = x.at;
    let typed = operated_by(env, op, x, y);
    bytes_by(env, up, Argument { at, typed })
}

/// `malloc` of a product whose left side is written so, and whose right side is no size.
fn left_product(
    env: &Environment<'_>,
    up: u32,
    left: Spelling<'_>,
    x: Argument,
    y: Argument,
) -> Result<Operand, CheckFault>
    ensures { JudgesTwo x y operand_of result (left_product (environment_of env.now) up (spelled left.entry)) }
{
    match left {
        Spelling::Size(at, t) => {
            x.let_go();
            so_many(env, up, at, t, false, y)
        }
        Spelling::Text(_) => operated_bytes(env, up, BinaryOperator::Multiply, x, y),
        Spelling::Name(_) => operated_bytes(env, up, BinaryOperator::Multiply, x, y),
        Spelling::Null => operated_bytes(env, up, BinaryOperator::Multiply, x, y),
        Spelling::Other => operated_bytes(env, up, BinaryOperator::Multiply, x, y),
    }
}

/// `malloc` of a product whose sides are written so.
fn product(
    env: &Environment<'_>,
    up: u32,
    sides: (Spelling<'_>, Spelling<'_>),
    x: Argument,
    y: Argument,
) -> Result<Operand, CheckFault>
    ensures { JudgesTwo x y operand_of result (product (environment_of env.now) up (spelled sides.entry.0) (spelled sides.entry.1)) }
{
    let (left, right) = sides;
    match right {
        Spelling::Size(at, t) => {
            y.let_go();
            so_many(env, up, at, t, false, x)
        }
        Spelling::Text(_) => left_product(env, up, left, x, y),
        Spelling::Name(_) => left_product(env, up, left, x, y),
        Spelling::Null => left_product(env, up, left, x, y),
        Spelling::Other => left_product(env, up, left, x, y),
    }
}

/// `malloc` of an operation whose sides are written so.
pub(crate) fn operation_by(
    env: &Environment<'_>,
    up: u32,
    op: BinaryOperator,
    sides: (Spelling<'_>, Spelling<'_>),
    x: Argument,
    y: Argument,
) -> Result<Operand, CheckFault>
    ensures { JudgesTwo x y operand_of result (operation_by (environment_of env.now) up op (spelled sides.entry.0) (spelled sides.entry.1)) }
{
    match op {
        BinaryOperator::Multiply => product(env, up, sides, x, y),
        BinaryOperator::Or => operated_bytes(env, up, op, x, y),
        BinaryOperator::And => operated_bytes(env, up, op, x, y),
        BinaryOperator::Equal => operated_bytes(env, up, op, x, y),
        BinaryOperator::NotEqual => operated_bytes(env, up, op, x, y),
        BinaryOperator::Less => operated_bytes(env, up, op, x, y),
        BinaryOperator::Greater => operated_bytes(env, up, op, x, y),
        BinaryOperator::LessEqual => operated_bytes(env, up, op, x, y),
        BinaryOperator::GreaterEqual => operated_bytes(env, up, op, x, y),
        BinaryOperator::Add => operated_bytes(env, up, op, x, y),
        BinaryOperator::Subtract => operated_bytes(env, up, op, x, y),
        BinaryOperator::Divide => operated_bytes(env, up, op, x, y),
        BinaryOperator::Remainder => operated_bytes(env, up, op, x, y),
    }
}
