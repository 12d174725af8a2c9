//! Heads of functions as they are written, and their results.

ghost use Rattle.std.specs.Prelude.{◌≡◌, [], ◌∷◌};
ghost use Rattle.kt_syntax.specs.Tree.{routine_of};
ghost use Rattle.kt_operands.specs.Views.{environment_of};
ghost use Rattle.kt_program.specs.Declarators.{base_fault};
ghost use Rattle.kt_program.specs.Functions.{result_place, result_complete, is_result};
ghost use Rattle.kt_program.specs.Mentioned.{result_stars};
ghost use Rattle.kt_declarations.specs.Heads.{same_base, same_written, same_results, same_parameters, same_head};

use crate::base::{base_fault, base_type, is_holdable, starred, stars_of};
use kt_grammar::Base;
use kt_operands::environment::Environment;
use kt_syntax::{Function, Parameter, Stars};
use kt_typing::Fault;

fn same_base(one: &Base, other: &Base) -> bool
    ensures { result ≡ same_base one.now other.now }
{
    match one {
        Base::Char => matches!(other, Base::Char),
        Base::Int => matches!(other, Base::Int),
        Base::Long => matches!(other, Base::Long),
        Base::Mutex => matches!(other, Base::Mutex),
        Base::Struct(n) => match other {
            Base::Struct(m) => n.word.as_bytes() == m.word.as_bytes(),
            _ => false,
        },
    }
}

fn same_written(one: &Base, stars: usize, other: &Base, other_stars: usize) -> bool
    ensures { result ≡ same_written one.now stars other.now other_stars }
{
    same_base(one, other) && stars == other_stars
}

/// How many stars stand before the name of a function.
pub(crate) fn result_stars(stars: &Option<Stars>) -> usize
    ensures { result ≡ result_stars stars.now }
{
    match stars {
        None => 0,
        Some(s) => s.count,
    }
}

fn same_results(one: &Function, other: &Function) -> bool
    ensures { result ≡ same_results one.now.result (result_stars one.now.stars) other.now.result (result_stars other.now.stars) }
{
    match &one.result {
        None => other.result.is_none(),
        Some(a) => match &other.result {
            None => false,
            Some(b) => same_written(a, result_stars(&one.stars), b, result_stars(&other.stars)),
        },
    }
}

fn same_parameters(one: &[Parameter], other: &[Parameter]) -> bool
    ensures { result ≡ same_parameters one.now other.now }
{
    let mut rest = other;
    for p in one {
        match rest {
            [q, behind @ ..] => {
                if !same_written(&p.base, stars_of(&p.pointer), &q.base, stars_of(&q.pointer)) {
                    return false;
                }
                rest = behind;
            }
            [] => return false,
        }
    }
    rest.is_empty()
}

/// Whether two declarations are of functions of one type, as they are written.
pub(crate) fn same_head(one: &Function, other: &Function) -> bool
    ensures { result ≡ same_head (routine_of one.now) (routine_of other.now) }
{
    same_results(one, other)
        && same_parameters(one.parameters.as_slice(), other.parameters.as_slice())
}

// What is wrong where a base with so many stars is a struct that is not defined before.
fn given_fault(env: &Environment<'_>, base: &Base, stars: usize) -> Option<Fault>
    ensures { result ≡ base_fault (environment_of env.now) base.now (stars ∷ []) }
{
    base_fault(env, base, stars == 0)
}

/// What is wrong where a function gives a struct that is not defined before.
pub(crate) fn result_complete(env: &Environment<'_>, f: &Function) -> Option<Fault>
    ensures { result ≡ result_complete (environment_of env.now) f.now.result (routine_of f.now) }
{
    match &f.result {
        None => None,
        Some(base) => given_fault(env, base, result_stars(&f.stars)),
    }
}

/// Whether the result is `void`, an integer or a pointer, and no pointer to `void`.
pub(crate) fn is_result(env: &Environment<'_>, f: &Function) -> bool
    ensures { result ≡ is_result (environment_of env.now) f.now.result f.now.stars }
{
    match &f.result {
        None => f.stars.is_none(),
        Some(base) => is_holdable(
            env,
            starred(env, result_stars(&f.stars), base_type(env, base)),
        ),
    }
}

/// The place of the first token of a function's declarator.
pub(crate) fn result_place(f: &Function) -> u32
    ensures { result ≡ result_place f.now.stars (routine_of f.now) }
{
    match &f.stars {
        None => f.name.at,
        Some(s) => s.at,
    }
}
