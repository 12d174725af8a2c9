//! All fields of a struct, in order, and those that may count others.

ghost use Rattle.std.specs.Prelude.{◌≡◌, ◌&&◌, ℕ, List, ◌∷◌, ◌++◌, map, OnOk, IfOk};
ghost use Rattle.std.specs.Option.{option_or};
ghost use Rattle.std.specs.List.{position_from};
ghost use Rattle.std.specs.Map.{lookup};
ghost use Rattle.std.specs.Str.{bytes_eq};
ghost use Rattle.kt_check.specs.Files.{OneField as FieldSeen, is_count_field, count_field, fields_in};
ghost use Rattle.kt_check.specs.Shapes.{one_field};

use crate::field::is_count_field;
use crate::shape::OneField;
use indexmap::IndexMap;
use kt_names::put::put;
use kt_syntax::Fields;
use std::alloc::{AllocError, Global};

fn push_fields<'f>(fields: &mut Vec<OneField<'f>>, more: &'f Fields) -> Result<(), AllocError>
    ensures { OnOk result (map one_field fields.new.items ≡ map one_field fields.old.items ++ map (λ d. record { base = more.now.base; declarator = d }) more.now.declarators) }
{
    for declarator in more.declarators.as_slice() {
        fields.push(OneField {
            base: &more.base,
            declarator,
        })?;
    }
    Ok(())
}

/// The fields of a struct, in order.
pub(crate) fn fields_in<'f>(
    alloc: Global,
    groups: &'f [Fields],
) -> Result<Vec<OneField<'f>>, AllocError>
    ensures { IfOk result (λ fields. map one_field fields.items ≡ fields_in groups.now) }
{
    let mut fields = Vec::new(alloc);
    for group in groups {
        push_fields(&mut fields, group)?;
    }
    Ok(fields)
}

/// Notes a field under its number, where it may count others: the next number after it.
fn note_count(
    counts: &mut IndexMap<Vec<u8>, u32>,
    alloc: Global,
    number: u32,
    field: OneField<'_>,
) -> Result<u32, AllocError>
    ensures { IfOk result (λ next. (xs : List FieldSeen) (q : List ℕ) → option_or (lookup (λ k. bytes_eq q k.items) counts.new.entries) (position_from (λ x. is_count_field x && bytes_eq x.declarator.name.word q) next xs) ≡ option_or (lookup (λ k. bytes_eq q k.items) counts.old.entries) (position_from (λ x. is_count_field x && bytes_eq x.declarator.name.word q) number (one_field field.entry ∷ xs))) }
{
    let next = number.checked_add(1).ok_or(AllocError)?;
    if is_count_field(field) {
        put(counts, alloc, field.declarator.name.word.as_bytes(), number)?;
    }
    Ok(next)
}

/// The numbers of the fields that may count others, by their names.
pub(crate) fn counts_of(
    alloc: Global,
    fields: &[OneField<'_>],
) -> Result<IndexMap<Vec<u8>, u32>, AllocError>
    ensures { IfOk result (λ m. (q : List ℕ) → lookup (λ k. bytes_eq q k.items) m.entries ≡ count_field (map one_field fields.now) q) }
{
    let mut counts = IndexMap::new(alloc);
    let mut number = 0;
    for field in fields {
        number = note_count(&mut counts, alloc, number, *field)?;
    }
    Ok(counts)
}
