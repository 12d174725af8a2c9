//! What names mean, in a map from which no name goes.

ghost use Rattle.std.specs.Prelude.{◌≡◌, ◌<◌, true, is_some, slice_get, None, Some, IfOk, OnOk, OnErr};
ghost use Rattle.std.specs.Map.{lookup};
ghost use Rattle.std.specs.Str.{bytes_eq};
ghost use Rattle.indexmap.specs.IndexMap.{index_map_len, set_value_at, values};
ghost use Rattle.kt_operands.specs.Views.{meaning_of};
ghost use Rattle.kt_statements.specs.Scopes.{meaning_in, with};

use indexmap::IndexMap;
use kt_operands::meaning::Meaning;
use std::alloc::{AllocError, Global};

// Writes what the name at an index means, and tells what it meant before.
fn write(names: &mut IndexMap<Vec<u8>, Meaning>, index: usize, meaning: Meaning) -> Meaning
    requires { index < index_map_len names.old }
    ensures before { slice_get (values names.old) index ≡ Some result }
    ensures entries { names.new.entries ≡ set_value_at names.old.entries index meaning }
{
    match names.get_index_mut(index) {
        Some(kept) => {
            let before = *kept;
            *kept = meaning;
            before
        }
        None => unreachable!(),
    }
}

/// Gives a name of the map another meaning.
pub(crate) fn put(names: &mut IndexMap<Vec<u8>, Meaning>, name: &[u8], meaning: Meaning)
    requires { is_some (lookup (λ k. bytes_eq name.now k.items) names.old.entries) ≡ true }
    ensures { meaning_in names.new.entries ≡ with (meaning_in names.old.entries) name.now (meaning_of meaning) }
{
    match names.get_index_of(name) {
        Some(index) => {
            let _before = write(names, index, meaning);
        }
        None => unreachable!(),
    }
}

// Adds a name that the map does not have.
fn add(
    names: &mut IndexMap<Vec<u8>, Meaning>,
    alloc: Global,
    name: &[u8],
    meaning: Meaning,
) -> Result<(), AllocError>
    requires { lookup (λ k. bytes_eq name.now k.items) names.old.entries ≡ None }
    ensures ok { OnOk result (meaning_in names.new.entries ≡ with (meaning_in names.old.entries) name.now (meaning_of meaning)) }
    ensures err { OnErr result (meaning_in names.new.entries ≡ meaning_in names.old.entries) }
{
    let name = Vec::from_slice(alloc, name)?;
    names.insert(name, meaning)?;
    Ok(())
}

/// Gives a name another meaning, and tells what it meant before.
pub(crate) fn hide(
    names: &mut IndexMap<Vec<u8>, Meaning>,
    alloc: Global,
    name: &[u8],
    meaning: Meaning,
) -> Result<Meaning, AllocError>
    ensures before { IfOk result (λ m. meaning_of m ≡ meaning_in names.old.entries name.now) }
    ensures ok { OnOk result (meaning_in names.new.entries ≡ with (meaning_in names.old.entries) name.now (meaning_of meaning)) }
    ensures err { OnErr result (meaning_in names.new.entries ≡ meaning_in names.old.entries) }
{
    match names.get_index_of(name) {
        Some(index) => Ok(write(names, index, meaning)),
        None => {
            add(names, alloc, name, meaning)?;
            Ok(Meaning::Missing)
        }
    }
}
