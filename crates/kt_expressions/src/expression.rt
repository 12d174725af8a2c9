//! The walk over an expression (ISO/IEC 9899:2011, 6.5).

ghost use Rattle.std.specs.Prelude.{◌≤◌, map, length};
ghost use Rattle.kt_grammar.specs.Tree.{term_of};
ghost use Rattle.kt_typing.specs.Terms.{form};
ghost use Rattle.kt_operands.specs.Views.{environment_of, operand_of};
ghost use Rattle.kt_operators.specs.Judged.{Judges, JudgesParts};
ghost use Rattle.kt_expressions.specs.Arguments.{turned_operands, parts_behind};

use crate::arguments::{argument_before, use_at, words_of};
use crate::called::called;
use crate::formed::{
    assigned, chosen, converted, element, factor_use, member, operand_use, operated, pointed,
    prefixed, stepped, transformed,
};
use crate::leaf::{
    character, end_of_file, named, new_object, null, number, old_symbol, size_of, string, worded,
};
use kt_calls::argument::Arguments;
use kt_calls::builtin::builtin_named;
use kt_grammar::Expr;
use kt_operands::environment::Environment;
use kt_operators::forms::Answer;
use kt_typing::{Builtin, Use};
use sqlite_items::Items;

// The arguments of a call behind so many, from the last to the first.
#[cycle(expressions)]
fn arguments(
    env: &Environment<'_>,
    call: Option<Builtin>,
    from: usize,
    args: &Items<Expr>,
) -> Arguments
    requires { from ≤ length args.now }
    ensures { JudgesParts turned_operands (parts_behind (environment_of env.now) call from (map term_of args.now)) result }
{
    let items = args.as_slice();
    let mut done: Arguments = Ok(Vec::new(env.alloc));
    let mut i = items.len();
    while from < i {
        i -= 1;
        let to = use_at(call, i);
        let typed = expression(env, to, &items[i]);
        done = argument_before(env, to, typed, done);
    }
    done
}

/// What an expression is that is used so, or its first fault.
#[cycle(expressions)]
pub fn expression(env: &Environment<'_>, to: Use, e: &Expr) -> Answer
    ensures { Judges operand_of (form (environment_of env.now) to (term_of e.now)) result }
{
    match e {
        Expr::Number(at, n) => number(env, *at, *n),
        Expr::Character(at, b) => character(env, *at, *b),
        Expr::Text(at, _) => string(env, *at),
        Expr::Null(at) => null(env, *at),
        Expr::Eof(at) => end_of_file(env, *at),
        Expr::Name(name) => named(env, name),
        Expr::Call(name, args) => {
            let call = builtin_named(name.word.as_bytes());
            let from = words_of(call, args);
            let rest = arguments(env, call, from, args);
            called(env, name, call, args, rest)
        }
        Expr::Paren(_, inside) => expression(env, to, inside.get()),
        Expr::SizeOf(at, ty) => size_of(env, *at, ty),
        Expr::Rule(at, word) => worded(env, *at, *word),
        Expr::OldSymbol(at, name) => old_symbol(env, *at, name),
        Expr::New(at, _) => new_object(*at),
        Expr::Transform(at, a) => {
            let inside = a.get();
            let typed = expression(env, Use::Value, inside);
            transformed(env, *at, typed)
        }
        Expr::Index(a, i) => {
            let base = a.get();
            let index = i.get();
            let typed_base = expression(env, Use::Indexed, base);
            let typed_index = expression(env, Use::Value, index);
            element(env, base, typed_base, typed_index)
        }
        Expr::Field(a, field) => {
            let whole = a.get();
            let typed_whole = expression(env, Use::Whole, whole);
            member(env, whole, field, typed_whole)
        }
        Expr::Arrow(a, field) => {
            let pointer = a.get();
            let typed_pointer = expression(env, Use::Value, pointer);
            pointed(env, pointer, field, typed_pointer)
        }
        Expr::Step(a, op) => {
            let place = a.get();
            let typed_place = expression(env, Use::Value, place);
            stepped(env, place, *op, typed_place)
        }
        Expr::Prefix(at, op, a) => {
            let operand = a.get();
            let used = operand_use(*op);
            let typed_operand = expression(env, used, operand);
            prefixed(env, *at, *op, typed_operand)
        }
        Expr::Cast(at, ty, a) => {
            let source = a.get();
            let typed_source = expression(env, Use::Value, source);
            converted(env, *at, ty, source, typed_source)
        }
        Expr::Binary(op, a, b) => {
            let left = a.get();
            let right = b.get();
            let used = factor_use(*op, to);
            let typed_left = expression(env, used, left);
            let typed_right = expression(env, used, right);
            operated(env, used, *op, left, typed_left, typed_right)
        }
        Expr::Choice(c, a, b) => {
            let test = c.get();
            let one = a.get();
            let other = b.get();
            let typed_test = expression(env, Use::Value, test);
            let typed_one = expression(env, Use::Value, one);
            let typed_other = expression(env, Use::Value, other);
            chosen(env, test, typed_test, typed_one, typed_other)
        }
        Expr::Assign(op, a, b) => {
            let target = a.get();
            let value = b.get();
            let typed_target = expression(env, Use::Value, target);
            let typed_value = expression(env, Use::Value, value);
            assigned(env, *op, target, typed_target, typed_value)
        }
    }
}
