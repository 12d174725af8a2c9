//! The views of pointers that are declared outside structs, and among fields.

ghost use Rattle.std.specs.Prelude.{◌≡◌, ◌<◌, ◌^◌, ℕ, List, Some, None};
ghost use Rattle.kt_operands.specs.Views.{environment_of, meaning_of};
ghost use Rattle.kt_program.specs.Declarators.{extent_fault, extent_of};
ghost use Rattle.kt_program.specs.Mentioned.{stars_of};
ghost use Rattle.kt_program.specs.Outside.{Whole};
ghost use Rattle.kt_program.specs.Structs.{inner_extent_fault};
ghost use Rattle.kt_program.specs.Views.{Field, plain_view, field_view};
ghost use Rattle.kt_declarations.specs.Fields.{field_of, known, told, named_by, place_by, AreKnown};
ghost use Rattle.kt_declarations.specs.Views.{global_number, view_in, Tells};

use crate::base::stars_of;
use crate::field::{FieldNames, FieldOf};
use crate::structs::named_extent;
use kt_grammar::Base;
use kt_operands::environment::Environment;
use kt_operands::meaning::Meaning;
use kt_syntax::{Extent, Pointer};
use kt_tree::Constant;
use kt_types::View;

// The view of a pointer without `E_PTRARRAY`.
fn plain_view(base: &Base, stars: usize) -> View
    ensures { result ≡ plain_view base.now stars }
{
    match base {
        Base::Char => if stars == 1 { View::Whole } else { View::One },
        Base::Int => View::One,
        Base::Long => View::One,
        Base::Mutex => View::One,
        Base::Struct(_) => View::One,
    }
}

// The number of the global that a name stands for, and 0 where it stands for none.
fn global_number(meaning: Meaning) -> u32
    ensures { result ≡ global_number (meaning_of meaning) }
{
    match meaning {
        Meaning::Fixed(_, _, Constant::Global(k)) => k,
        _ => 0,
    }
}

/// The view of a pointer outside structs, of which the extent is right.
pub fn view_of(env: &Environment<'_>, base: &Base, pointer: &Option<Pointer>) -> View
    requires { extent_fault (environment_of env.now) (extent_of pointer.now) ≡ None }
    ensures { result ≡ view_in (environment_of env.now) base.now (stars_of pointer.now) (extent_of pointer.now) }
{
    let Some(p) = pointer else {
        return plain_view(base, 0);
    };
    match &p.extent {
        None => plain_view(base, p.stars.count),
        Some(Extent::Name(n)) => View::Global(global_number(env.named(n.word.as_bytes()))),
        Some(Extent::Number(_, n)) => View::Count(n.value as u32),
    }
}

/// The view of a field among fields of these names, of which the extent is right.
pub fn field_view(env: &Environment<'_>, names: &FieldNames, x: FieldOf<'_>) -> View
    requires few { (n : List ℕ) (k : ℕ) → (told (known names.now n)).1 ≡ Some k → k < 2 ^ 32 }
    requires extent { (fields : List Field) × AreKnown names.now fields × (inner_extent_fault (environment_of env.now) fields (extent_of x.declarator.now.pointer) ≡ None) }
    ensures { (w : Whole) (fields : List Field) → Tells (environment_of env.now) w → AreKnown names.now fields → result ≡ field_view w.globals fields (field_of x.entry) }
{
    let pointer = &x.declarator.pointer;
    match counted_by(names, pointer) {
        Some(k) => View::Field(k as u32),
        None => view_of(env, x.base, pointer),
    }
}

// The place of the field that counts the elements of a pointer.
fn counted_by(names: &FieldNames, pointer: &Option<Pointer>) -> Option<usize>
    ensures { result ≡ place_by names.now (named_by (extent_of pointer.now)) }
{
    let name = named_extent(pointer)?;
    names.count(name.word.as_bytes())
}
