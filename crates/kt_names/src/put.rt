//! Tables in which what came first under a name stays.

ghost use Rattle.std.specs.Prelude.{◌≡◌, ℕ, List, Some, None, OnOk, if◌then◌else◌};
ghost use Rattle.std.specs.Option.{option_or};
ghost use Rattle.std.specs.Map.{lookup};
ghost use Rattle.std.specs.Str.{bytes_eq};

use indexmap::IndexMap;
use std::alloc::{AllocError, Global};

/// Puts a value under a name, where nothing is under it.
pub fn put<V: Drop>(
    table: &mut IndexMap<Vec<u8>, V>,
    alloc: Global,
    name: &[u8],
    value: V,
) -> Result<(), AllocError>
    ensures { OnOk result ((q : List ℕ) → lookup (λ k. bytes_eq q k.items) table.new.entries ≡ option_or (lookup (λ k. bytes_eq q k.items) table.old.entries) (if bytes_eq name.now q then Some value else None)) }
{
    match table.get(name) {
        Some(_) => Ok(()),
        None => put_new(table, alloc, name, value),
    }
}

/// Puts a value under a name that nothing is under.
fn put_new<V: Drop>(
    table: &mut IndexMap<Vec<u8>, V>,
    alloc: Global,
    name: &[u8],
    value: V,
) -> Result<(), AllocError>
    requires { lookup (λ k. bytes_eq name.now k.items) table.old.entries ≡ None }
    ensures { OnOk result ((q : List ℕ) → lookup (λ k. bytes_eq q k.items) table.new.entries ≡ option_or (lookup (λ k. bytes_eq q k.items) table.old.entries) (if bytes_eq name.now q then Some value else None)) }
{
    let name = Vec::from_slice(alloc, name)?;
    table.insert(name, value)?;
    Ok(())
}
