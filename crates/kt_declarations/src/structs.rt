//! What is judged of the definition of a struct (ISO/IEC 9899:2011, 6.7.2.1).

ghost use Rattle.std.specs.Prelude.{◌≡◌, ℕ, ◌+◌, ◌==◌, ◌&&◌, nat_le, List, [], ◌∷◌, map, not, slice_get, Some, IfOk, OnOk};
ghost use Rattle.std.specs.List.{list_any};
ghost use Rattle.std.specs.Option.{option_map};
ghost use Rattle.kt_operands.specs.Views.{environment_of};
ghost use Rattle.kt_program.specs.Declarators.{base_fault, extent_of};
ghost use Rattle.kt_program.specs.Judgments.{first_wrong, first_among};
ghost use Rattle.kt_program.specs.Mentioned.{stars_of};
ghost use Rattle.kt_program.specs.Scopes.{contains};
ghost use Rattle.kt_program.specs.Structs.{is_array_count, inner_extent_fault, field, field_cells, fields_judged, bases_judged, struct};
ghost use Rattle.kt_program.specs.Views.{Field};
ghost use Rattle.kt_declarations.specs.Fields.{field_of, known, told, is_at, named_by, counts_named, AreKnown, AreBefore};
ghost use Rattle.kt_declarations.specs.Met.{SameNames, capped};

use crate::base::{base_fault, stars_of};
use crate::cells::{declared_cells, fit, is_array_count, more_cells};
use crate::declarator::extent_fault;
use crate::field::{FieldNames, FieldOf, all_fields};
use crate::first::{earlier, where_not};
use crate::names::Names;
use kt_grammar::Name;
use kt_operands::environment::Environment;
use kt_syntax::{Declarator, Extent, Fields, Pointer};
use kt_typing::{Fault, Kind};
use std::alloc::AllocError;

// Whether one of these is no pointer.
fn has_value(declarators: &[Declarator]) -> bool
    ensures { result ≡ list_any (λ d. stars_of d.pointer == 0) declarators.now }
{
    declarators.iter().any(|d| stars_of(&d.pointer) == 0)
}

// What is wrong where fields of one base are values of a struct that is not defined before.
fn valued_fault(env: &Environment<'_>, fields: &Fields) -> Option<Fault>
    ensures { result ≡ base_fault (environment_of env.now) fields.now.base (map (λ d. stars_of d.pointer) fields.now.declarators) }
{
    base_fault(env, &fields.base, has_value(fields.declarators.as_slice()))
}

// What is wrong with the bases of fields.
fn bases_fault(env: &Environment<'_>, fields: &[Fields]) -> Option<Fault>
    ensures { result ≡ first_among (bases_judged (environment_of env.now) fields.now) }
{
    let mut fault = None;
    for some in fields {
        fault = earlier(fault, valued_fault(env, some));
    }
    fault
}

/// The name between the parentheses of `E_PTRARRAY`.
pub(crate) fn named_extent(pointer: &Option<Pointer>) -> Option<&Name>
    ensures { option_map (λ n. n.now) result ≡ named_by (extent_of pointer.now) }
{
    let Some(p) = pointer else {
        return None;
    };
    match &p.extent {
        None => None,
        Some(Extent::Name(n)) => Some(n),
        Some(Extent::Number(_, _)) => None,
    }
}

// Whether `E_PTRARRAY` names an integer field of the same struct.
fn counts_by(names: &FieldNames, pointer: &Option<Pointer>) -> bool
    ensures { (fields : List Field) → AreKnown names.now fields → result ≡ counts_named fields (named_by (extent_of pointer.now)) }
{
    match named_extent(pointer) {
        None => false,
        Some(n) => names.count(n.word.as_bytes()).is_some(),
    }
}

// What is wrong with `E_PTRARRAY` of a field.
fn inner_extent_fault(
    env: &Environment<'_>,
    names: &FieldNames,
    pointer: &Option<Pointer>,
) -> Option<Fault>
    ensures { (fields : List Field) → AreKnown names.now fields → result ≡ inner_extent_fault (environment_of env.now) fields (extent_of pointer.now) }
{
    if counts_by(names, pointer) {
        None
    } else {
        extent_fault(env, pointer)
    }
}

// Whether a name stands first at a place.
fn is_first(names: &FieldNames, name: &[u8], place: usize) -> bool
    ensures { result ≡ is_at (told (known names.now name.now)).0 place }
{
    match names.first(name) {
        None => false,
        Some(first) => first == place,
    }
}

fn field_cells(env: &Environment<'_>, x: FieldOf<'_>) -> u64
    ensures { capped (field_cells (environment_of env.now) (field_of x.entry)) ≡ result }
{
    declared_cells(env, x.base, x.declarator)
}

// Whether a field is no larger than it may be, behind fields of so many cells.
fn is_small(env: &Environment<'_>, cells: u64, x: FieldOf<'_>) -> bool
    ensures { (n : ℕ) → capped n ≡ cells → result ≡ (is_array_count x.entry.declarator.now.count && nat_le (n + field_cells (environment_of env.now) (field_of x.entry)) 65536) }
{
    let own = field_cells(env, x);
    is_array_count(&x.declarator.count) && fit(cells, own, 65_536)
}

// What is wrong with the field at a place, behind fields of so many cells.
fn field_fault(
    env: &Environment<'_>,
    names: &FieldNames,
    place: usize,
    cells: u64,
    x: FieldOf<'_>,
) -> Option<Fault>
    ensures { (fields : List Field) (before : List (List ℕ)) (n : ℕ) → AreKnown names.now fields → slice_get fields place ≡ Some (field_of x.entry) → AreBefore before fields place → capped n ≡ cells → result ≡ first_wrong (field (environment_of env.now) fields before n (field_of x.entry)) }
{
    let d = x.declarator;
    let extent = inner_extent_fault(env, names, &d.pointer);
    let is_new = is_first(names, d.name.word.as_bytes(), place);
    let twice = where_not(is_new, d.name.at, Kind::Twice);
    let small = is_small(env, cells, x);
    let size = where_not(small, d.name.at, Kind::TooBig);
    earlier(extent, earlier(twice, size))
}

// What is wrong with the fields of a struct, of which these are the names.
fn fields_fault(env: &Environment<'_>, names: &FieldNames, fields: &[FieldOf<'_>]) -> Option<Fault>
    ensures { AreKnown names.now (map field_of fields.now) → result ≡ first_among (fields_judged (environment_of env.now) (map field_of fields.now) [] 0 (map field_of fields.now)) }
{
    let mut fault = None;
    let mut cells: u64 = 0;
    for (place, x) in fields.iter().enumerate() {
        let broken = field_fault(env, names, place, cells, *x);
        fault = earlier(fault, broken);
        let own = field_cells(env, *x);
        cells = more_cells(cells, own);
    }
    fault
}

/// The definition of a struct, where those of these names are defined before, and what is wrong with it. Behind want of memory the
/// names are of no more use.
pub fn declare_struct(
    env: &Environment<'_>,
    defined: &mut Names,
    name: &Name,
    fields: &[Fields],
) -> Result<Option<Fault>, AllocError>
    ensures fault { (names : List (List ℕ)) → SameNames defined.old names → IfOk result (λ f. f ≡ first_wrong (struct (environment_of env.now) names name.now fields.now)) }
    ensures behind { (names : List (List ℕ)) → SameNames defined.old names → OnOk result (SameNames defined.new (name.now.word ∷ names)) }
{
    let all = all_fields(env.alloc, fields)?;
    let names = FieldNames::new(env.alloc, &all)?;
    let is_new = defined.add(env.alloc, name.word.as_bytes())?;
    let twice = where_not(is_new, name.at, Kind::Twice);
    let within = fields_fault(env, &names, &all);
    Ok(earlier(twice, earlier(bases_fault(env, fields), within)))
}
