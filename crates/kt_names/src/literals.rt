//! The literals of a file, and their numbers by their places.

ghost use Rattle.std.specs.Prelude.{◌≡◌, ◌==◌, ℕ, List, [], ◌∷◌, ◌++◌, Some, None, OnOk, IfOk, if◌then◌else◌};
ghost use Rattle.std.specs.Option.{option_or};
ghost use Rattle.std.specs.List.{position_from};
ghost use Rattle.std.specs.Map.{lookup};
ghost use Rattle.kt_names.specs.Gathered.{written_as, written_in};
ghost use Rattle.kt_names.specs.Views.{literal_at};
ghost use Rattle.kt_names.specs.Tables.{Written as TextWritten, literals_in, literal_places, literal_number};

use crate::written::Written;
use indexmap::IndexMap;
use kt_types::Text;
use std::alloc::{AllocError, Global};

/// The literal more, where the string is one.
fn push_literal(
    literals: &mut Vec<Text>,
    alloc: Global,
    written: Written<'_>,
) -> Result<(), AllocError>
    ensures { OnOk result (literals.new.items ≡ literals.old.items ++ literals_in (written_as written.entry ∷ [])) }
{
    match written {
        Written::Literal(_, bytes) => {
            let text = Text::from_vec(Vec::from_slice(alloc, bytes)?);
            literals.push(text)?;
            Ok(())
        }
        Written::Updates(_) => Ok(()),
        Written::Asks(_) => Ok(()),
    }
}

/// The literals, in order.
#[tactic(auto, using(crate::proofs::Noted::strings))]
pub(crate) fn literals(alloc: Global, strings: &[Written<'_>]) -> Result<Vec<Text>, AllocError>
    ensures { IfOk result (λ texts. texts.items ≡ literals_in (written_in strings.now)) }
{
    let mut literals = Vec::new(alloc);
    for written in strings {
        push_literal(&mut literals, alloc, *written)?;
    }
    Ok(literals)
}

/// Notes the number of a literal at its place, where none is noted there.
fn note(numbers: &mut IndexMap<u32, u32>, at: u32, number: u32) -> Result<(), AllocError>
    ensures { OnOk result ((q : ℕ) → lookup (λ k. q == k) numbers.new.entries ≡ option_or (lookup (λ k. q == k) numbers.old.entries) (if at == q then Some number else None)) }
{
    if numbers.get(&at).is_some() {
        return Ok(());
    }
    numbers.insert(at, number)?;
    Ok(())
}

/// Notes a string, where it is a literal, under the next number: the next one after it.
fn note_written(
    numbers: &mut IndexMap<u32, u32>,
    number: u32,
    written: Written<'_>,
) -> Result<u32, AllocError>
    ensures { IfOk result (λ next. (ws : List TextWritten) (q : ℕ) → option_or (lookup (λ k. q == k) numbers.new.entries) (position_from (λ p. p == q) next (literal_places ws)) ≡ option_or (lookup (λ k. q == k) numbers.old.entries) (position_from (λ p. p == q) number (literal_places (written_as written.entry ∷ ws)))) }
{
    match written {
        Written::Literal(at, _) => {
            let next = number.checked_add(1).ok_or(AllocError)?;
            note(numbers, at, number)?;
            Ok(next)
        }
        Written::Updates(_) => Ok(number),
        Written::Asks(_) => Ok(number),
    }
}

/// The numbers of the literals by their places.
pub(crate) fn literal_numbers(
    alloc: Global,
    strings: &[Written<'_>],
) -> Result<IndexMap<u32, u32>, AllocError>
    ensures { IfOk result (λ m. (at : ℕ) → literal_at (lookup (λ k. at == k) m.entries) ≡ literal_number (literal_places (written_in strings.now)) at) }
{
    let mut numbers = IndexMap::new(alloc);
    let mut count = 0;
    for written in strings {
        count = note_written(&mut numbers, count, *written)?;
    }
    Ok(numbers)
}
