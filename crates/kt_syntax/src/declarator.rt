//! Declarators of fields and globals, fields and parameters.

ghost use Rattle.std.specs.Prelude.{◌≡◌, ◌<◌, ◌≤◌, [], length, IfOk};
ghost use Rattle.kt_grammar.specs.Cursor.{Gives, listed_at};
ghost use Rattle.kt_syntax.specs.Reading.{count_behind, count_at, declarator_behind, declarator_at, fields_at, parameter_at};

use super::pointer::pointer;
use super::tree::{Declarator, Fields, Parameter, Pointer};
use kt_grammar::{Fault, Name, Sign, Symbol, base, begins_sign, behind, behind_first, name};
use kt_lex::Number;
use sqlite_items::Items;
use std::alloc::Global;

/// A number and its closing bracket.
#[tactic(auto, unfolding(crate::specs::Reading::count_behind))]
fn count_behind(symbols: &[Symbol]) -> Result<(Number, &[Symbol]), Fault>
    ensures read { Gives (λ x. (x.0, x.1.now)) result (count_behind symbols.now) }
    ensures shorter { IfOk result (λ x. length x.1.now < length symbols.now) }
{
    match symbols {
        [Symbol::Number(_, number), rest @ ..] => {
            let after = behind(Sign::CloseBracket, rest)?;
            Ok((*number, after))
        }
        _ => Err(Fault::Syntax(symbols.len())),
    }
}

/// The number in brackets, where it stands.
#[tactic(auto, unfolding(crate::specs::Reading::count_at))]
fn count(symbols: &[Symbol]) -> Result<(Option<Number>, &[Symbol]), Fault>
    ensures read { Gives (λ x. (x.0, x.1.now)) result (count_at symbols.now) }
    ensures shorter { IfOk result (λ x. length x.1.now ≤ length symbols.now) }
{
    if begins_sign(Sign::OpenBracket, symbols) {
        let (number, rest) = count_behind(behind_first(symbols))?;
        Ok((Some(number), rest))
    } else {
        Ok((None, symbols))
    }
}

/// A declarator behind its stars and name.
pub(crate) fn declarator_behind(
    pointer: Option<Pointer>,
    name: Name,
    symbols: &[Symbol],
) -> Result<(Declarator, &[Symbol]), Fault>
    ensures read { Gives (λ x. (x.0, x.1.now)) result (declarator_behind pointer name symbols.now) }
    ensures shorter { IfOk result (λ x. length x.1.now ≤ length symbols.now) }
{
    let (count, rest) = count(symbols)?;
    Ok((
        Declarator {
            pointer,
            name,
            count,
        },
        rest,
    ))
}

#[tactic(auto, unfolding(crate::specs::Reading::declarator_at))]
fn declarator(symbols: &[Symbol]) -> Result<(Declarator, &[Symbol]), Fault>
    ensures read { Gives (λ x. (x.0, x.1.now)) result (declarator_at symbols.now) }
    ensures shorter { IfOk result (λ x. length x.1.now < length symbols.now) }
{
    let (pointer, rest) = pointer(symbols)?;
    let (name, rest) = name(rest)?;
    declarator_behind(pointer, name, rest)
}

/// Declarators with commas between them.
fn declarators(alloc: Global, symbols: &[Symbol]) -> Result<(Items<Declarator>, &[Symbol]), Fault>
    ensures read { Gives (λ x. (x.0, x.1.now)) result (listed_at declarator_at (length symbols.now) [] symbols.now) }
    ensures shorter { IfOk result (λ x. length x.1.now < length symbols.now) }
{
    let mut done = Items::new(alloc);
    let mut rest = symbols;
    loop {
        let (declarator, behind) = declarator(rest)?;
        done.push(declarator)?;
        if !begins_sign(Sign::Comma, behind) {
            return Ok((done, behind));
        }
        rest = behind_first(behind);
    }
}

/// Fields of one base and their semicolon.
#[tactic(auto, unfolding(crate::specs::Reading::fields_at))]
pub(crate) fn fields(alloc: Global, symbols: &[Symbol]) -> Result<(Fields, &[Symbol]), Fault>
    ensures read { Gives (λ x. (x.0, x.1.now)) result (fields_at symbols.now) }
    ensures shorter { IfOk result (λ x. length x.1.now < length symbols.now) }
{
    let (base, rest) = base(symbols)?;
    let (declarators, rest) = declarators(alloc, rest)?;
    let rest = behind(Sign::Semicolon, rest)?;
    Ok((Fields { base, declarators }, rest))
}

#[tactic(auto, unfolding(crate::specs::Reading::parameter_at))]
fn parameter(symbols: &[Symbol]) -> Result<(Parameter, &[Symbol]), Fault>
    ensures read { Gives (λ x. (x.0, x.1.now)) result (parameter_at symbols.now) }
    ensures shorter { IfOk result (λ x. length x.1.now < length symbols.now) }
{
    let (base, rest) = base(symbols)?;
    let (pointer, rest) = pointer(rest)?;
    let (name, rest) = name(rest)?;
    Ok((
        Parameter {
            base,
            pointer,
            name,
        },
        rest,
    ))
}

/// Parameters with commas between them.
pub(crate) fn parameters(
    alloc: Global,
    symbols: &[Symbol],
) -> Result<(Items<Parameter>, &[Symbol]), Fault>
    ensures read { Gives (λ x. (x.0, x.1.now)) result (listed_at parameter_at (length symbols.now) [] symbols.now) }
    ensures shorter { IfOk result (λ x. length x.1.now < length symbols.now) }
{
    let mut done = Items::new(alloc);
    let mut rest = symbols;
    loop {
        let (parameter, behind) = parameter(rest)?;
        done.push(parameter)?;
        if !begins_sign(Sign::Comma, behind) {
            return Ok((done, behind));
        }
        rest = behind_first(behind);
    }
}
