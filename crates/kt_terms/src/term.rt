//! The typing of expressions (ISO/IEC 9899:2011, 6.5).

ghost use Rattle.std.specs.Prelude.{◌≡◌, map, Ok};
ghost use Rattle.kt_grammar.specs.Tree.{term_of, terms_of};
ghost use Rattle.kt_names.specs.Judges.{Judges};
ghost use Rattle.kt_names.specs.Views.{environment_of, operand_of};
ghost use Rattle.kt_names.specs.Terms.{character, end_of_file, first_token, is_allocator, is_allocation, argument, typing, typing_all};
ghost use Rattle.kt_terms.specs.Arguments.{JudgesAll};
ghost use Rattle.kt_terms.specs.Spellings.{spelling_of};
ghost use Rattle.kt_terms.specs.Specials.{TypedTerm, memory_by, operation_by, memory_call};

use crate::applied::{
    assigned_of, cast_of, chosen_of, element_of, member_of, operated_of, pointed_of, prefixed_of,
    stepped_of,
};
use crate::argument::Argument;
use crate::called::{called, takes_memory};
use crate::memory::{memory_by, operation_by};
use crate::name::{named, string};
use crate::spelling::spelling_of;
use crate::unary::number;
use kt_grammar::{BinaryOperator, Expr};
use kt_names::builtin::{Builtin, builtin_named};
use kt_names::ctype::CType;
use kt_names::environment::Environment;
use kt_names::fault::CheckFault;
use kt_names::judged::both;
use kt_names::operand::{Operand, number_value};
use sqlite_items::Items;

/// The place of an expression's first token.
#[tactic(auto, using(crate::proofs::Syntax::terms))]
pub fn first_token(e: &Expr) -> u32
    ensures { result ≡ first_token (term_of e.now) }
{
    match e {
        Expr::Number(at, _) => *at,
        Expr::Character(at, _) => *at,
        Expr::Text(at, _) => *at,
        Expr::Null(at) => *at,
        Expr::Eof(at) => *at,
        Expr::Name(name) => name.at,
        Expr::Call(name, _) => name.at,
        Expr::Paren(at, _) => *at,
        Expr::SizeOf(at, _) => *at,
        Expr::Rule(at, _) => *at,
        Expr::OldSymbol(at, _) => *at,
        Expr::New(at, _) => *at,
        Expr::Transform(at, _) => *at,
        Expr::Index(a, _) => first_token(a.get()),
        Expr::Field(a, _) => first_token(a.get()),
        Expr::Arrow(a, _) => first_token(a.get()),
        Expr::Step(a, _) => first_token(a.get()),
        Expr::Prefix(at, _, _) => *at,
        Expr::Cast(at, _, _) => *at,
        Expr::Binary(_, a, _) => first_token(a.get()),
        Expr::Choice(c, _, _) => first_token(c.get()),
        Expr::Assign(_, a, _) => first_token(a.get()),
    }
}

/// Whether a name is that of a call that gives memory of a type.
fn is_allocator(call: Option<Builtin>) -> bool
    ensures { result ≡ is_allocator call }
{
    match call {
        Some(Builtin::Malloc) => true,
        Some(Builtin::Calloc) => true,
        _ => false,
    }
}

/// Whether the expression, parentheses aside, is an allocation.
#[tactic(auto, using(crate::proofs::Syntax::terms))]
pub(crate) fn is_allocation(e: &Expr) -> bool
    ensures { result ≡ is_allocation (term_of e.now) }
{
    match e {
        Expr::Paren(_, a) => is_allocation(a.get()),
        Expr::Call(name, _) => is_allocator(builtin_named(name.word.as_bytes())),
        Expr::Number(_, _) => false,
        Expr::Character(_, _) => false,
        Expr::Text(_, _) => false,
        Expr::Null(_) => false,
        Expr::Eof(_) => false,
        Expr::Name(_) => false,
        Expr::SizeOf(_, _) => false,
        Expr::Rule(_, _) => false,
        Expr::OldSymbol(_, _) => false,
        Expr::New(_, _) => false,
        Expr::Transform(_, _) => false,
        Expr::Index(_, _) => false,
        Expr::Field(_, _) => false,
        Expr::Arrow(_, _) => false,
        Expr::Step(_, _) => false,
        Expr::Prefix(_, _, _) => false,
        Expr::Cast(_, _, _) => false,
        Expr::Binary(_, _, _) => false,
        Expr::Choice(_, _, _) => false,
        Expr::Assign(_, _, _) => false,
    }
}

/// A character.
fn character(env: &Environment<'_>, _at: u32, b: u8) -> Operand
    ensures { character (environment_of env.now) _at b ≡ Ok (operand_of result) }
{
    let expression = number_value(env, CType::int(), i64::from(b));
    Operand::Valued(CType::int(), expression)
}

/// `EOF`
fn end_of_file(env: &Environment<'_>) -> Operand
    ensures { operand_of result ≡ end_of_file (environment_of env.now) }
{
    let expression = number_value(env, CType::int(), -1);
    Operand::Valued(CType::int(), expression)
}

/// `malloc` of an expression that is no operation.
fn memory_of(
    env: &Environment<'_>,
    up: u32,
    e: &Expr,
    typed: Result<Operand, CheckFault>,
) -> Result<Operand, CheckFault>
    ensures { (s : TypedTerm) → Judges operand_of typed s → Judges operand_of result (memory_by (environment_of env.now) up (spelling_of (term_of e.now)) (argument (term_of e.now) s)) }
{
    let at = first_token(e);
    memory_by(env, up, spelling_of(e), Argument { at, typed })
}

/// `malloc` of an operation.
fn operation_of(
    env: &Environment<'_>,
    up: u32,
    op: BinaryOperator,
    a: &Expr,
    b: &Expr,
    x: Result<Operand, CheckFault>,
    y: Result<Operand, CheckFault>,
) -> Result<Operand, CheckFault>
    ensures { (s : TypedTerm) → (t : TypedTerm) → Judges operand_of x s → Judges operand_of y t → Judges operand_of result (operation_by (environment_of env.now) up op (spelling_of (term_of a.now)) (spelling_of (term_of b.now)) (argument (term_of a.now) s) (argument (term_of b.now) t)) }
{
    let left = Argument {
        at: first_token(a),
        typed: x,
    };
    let right = Argument {
        at: first_token(b),
        typed: y,
    };
    let sides = (spelling_of(a), spelling_of(b));
    operation_by(env, up, op, sides, left, right)
}

/// The arguments of a call, each with its place.
#[cycle(terms)]
fn typing_all(env: &Environment<'_>, args: &Items<Expr>) -> Result<Items<Argument>, CheckFault>
    ensures { JudgesAll result (typing_all (environment_of env.now) (terms_of (map term_of args.now))) }
{
    let mut arguments = Items::new(env.alloc);
    for e in args.as_slice() {
        let at = first_token(e);
        let typed = typing(env, e);
        arguments.push(Argument { at, typed })?;
    }
    Ok(arguments)
}

/// A call of `malloc`.
#[cycle(terms)]
fn memory(env: &Environment<'_>, up: u32, args: &Items<Expr>) -> Result<Operand, CheckFault>
    ensures { Judges operand_of result (memory_call (environment_of env.now) up (terms_of (map term_of args.now))) }
{
    let args = args.as_slice();
    if args.len() != 1 {
        return Err(CheckFault::BadType { at: up });
    }
    let size = &args[0];
    match size {
        Expr::Binary(op, a, b) => {
            let left = a.get();
            let right = b.get();
            let typed_left = typing(env, left);
            let typed_right = typing(env, right);
            operation_of(env, up, *op, left, right, typed_left, typed_right)
        }
        _ => {
            let typed = typing(env, size);
            memory_of(env, up, size, typed)
        }
    }
}

/// The typing of an expression.
#[cycle(terms)]
pub fn typing(env: &Environment<'_>, e: &Expr) -> Result<Operand, CheckFault>
    ensures { Judges operand_of result (typing (environment_of env.now) (term_of e.now)) }
{
    match e {
        Expr::Number(at, n) => number(env, *at, *n),
        Expr::Character(at, b) => Ok(character(env, *at, *b)),
        Expr::Text(at, _) => Ok(string(env, *at)),
        Expr::Null(_) => Ok(Operand::Null),
        Expr::Eof(_) => Ok(end_of_file(env)),
        Expr::Name(name) => named(env, name),
        Expr::Call(name, args) => {
            if takes_memory(env, name) {
                return memory(env, name.at, args);
            }
            let arguments = typing_all(env, args);
            called(env, name, args, arguments)
        }
        Expr::Paren(_, inside) => typing(env, inside.get()),
        Expr::SizeOf(at, _) => Err(CheckFault::BadType { at: *at }),
        Expr::Rule(at, _) => Err(CheckFault::Unknown { at: *at }),
        Expr::OldSymbol(at, _) => Err(CheckFault::Unknown { at: *at }),
        Expr::New(at, _) => Err(CheckFault::Unknown { at: *at }),
        Expr::Transform(at, _) => Err(CheckFault::Unknown { at: *at }),
        Expr::Index(a, i) => {
            let base = a.get();
            let index = i.get();
            let typed_base = typing(env, base);
            let typed_index = typing(env, index);
            let indexed = both(typed_base, typed_index);
            element_of(env, base, index, indexed)
        }
        Expr::Field(a, field) => {
            let whole = a.get();
            let typed_whole = typing(env, whole);
            member_of(env, whole, typed_whole, field)
        }
        Expr::Arrow(a, field) => {
            let pointer = a.get();
            let typed_pointer = typing(env, pointer);
            pointed_of(env, pointer, typed_pointer, field)
        }
        Expr::Step(a, op) => {
            let stepped = a.get();
            let typed_stepped = typing(env, stepped);
            stepped_of(env, *op, stepped, typed_stepped)
        }
        Expr::Prefix(at, op, a) => {
            let operand = a.get();
            let typed_operand = typing(env, operand);
            prefixed_of(env, *at, *op, operand, typed_operand)
        }
        Expr::Cast(at, t, a) => {
            let converted = a.get();
            let typed_converted = typing(env, converted);
            cast_of(env, *at, t, converted, typed_converted)
        }
        Expr::Binary(op, a, b) => {
            let left = a.get();
            let right = b.get();
            let typed_left = typing(env, left);
            let typed_right = typing(env, right);
            let operands = both(typed_left, typed_right);
            operated_of(env, *op, left, right, operands)
        }
        Expr::Choice(c, a, b) => {
            let test = c.get();
            let one = a.get();
            let other = b.get();
            let typed_test = typing(env, test);
            let typed_one = typing(env, one);
            let typed_other = typing(env, other);
            let arms = both(typed_one, typed_other);
            let parts = both(typed_test, arms);
            chosen_of(env, test, one, other, parts)
        }
        Expr::Assign(op, a, b) => {
            let place = a.get();
            let value = b.get();
            let typed_place = typing(env, place);
            let typed_value = typing(env, value);
            let assigned = both(typed_place, typed_value);
            assigned_of(env, *op, place, value, assigned)
        }
    }
}
