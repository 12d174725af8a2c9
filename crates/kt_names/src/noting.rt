//! The places of the types that a text names, noted by their roots.

ghost use Rattle.std.specs.Prelude.{◌≡◌, ◌<◌, ◌^◌, length, OnOk, IfOk};
ghost use Rattle.kt_names.specs.Types.{starred_place};
ghost use Rattle.kt_names.specs.Placed.{AreStarred, AreAllStarred};

use crate::ctype::Root;
use crate::placing::place_among;
use crate::types::root_of;
use crate::uses::Use;
use indexmap::{IndexMap, IndexSet};
use kt_types::Ty;
use std::alloc::{AllocError, Global};

/// The place of the root's type with one star more than these have.
fn next_place(types: &IndexSet<Ty>, root: Root, places: &[u32]) -> u32
    requires few { length types.now.keys < 2 ^ 32 }
    requires placed { AreStarred types.now.keys root places.now }
    ensures { result ≡ starred_place types.now.keys root (length places.now) }
{
    if places.is_empty() {
        return place_among(types, root.table_type());
    }
    place_among(types, Ty::Ptr(places[places.len() - 1]))
}

/// These places of the root's types, and those behind them of the types with up to so many stars.
fn lengthened(
    types: &IndexSet<Ty>,
    root: Root,
    places: Vec<u32>,
    stars: usize,
) -> Result<Vec<u32>, AllocError>
    requires few { length types.now.keys < 2 ^ 32 }
    requires placed { AreStarred types.now.keys root places.items }
    ensures { IfOk result (λ longer. AreStarred types.now.keys root longer.items) }
{
    let mut longer = places;
    let count = stars.checked_add(1).ok_or(AllocError)?;
    for _ in longer.len()..count {
        let place = next_place(types, root, longer.as_slice());
        longer.push(place)?;
    }
    Ok(longer)
}

/// Notes the places of the root's types with up to so many stars, of which these are known.
fn note_behind(
    types: &IndexSet<Ty>,
    starred: &mut IndexMap<Root, Vec<u32>>,
    root: Root,
    places: Vec<u32>,
    stars: usize,
) -> Result<(), AllocError>
    requires few { length types.now.keys < 2 ^ 32 }
    requires all { AreAllStarred types.now.keys starred.old.entries }
    requires placed { AreStarred types.now.keys root places.items }
    ensures { OnOk result (AreAllStarred types.now.keys starred.new.entries) }
{
    let longer = lengthened(types, root, places, stars)?;
    starred.insert(root, longer)?;
    Ok(())
}

/// Notes the places of the root's types with up to so many stars.
fn note_starred(
    alloc: Global,
    types: &IndexSet<Ty>,
    starred: &mut IndexMap<Root, Vec<u32>>,
    root: Root,
    stars: usize,
) -> Result<(), AllocError>
    requires few { length types.now.keys < 2 ^ 32 }
    requires all { AreAllStarred types.now.keys starred.old.entries }
    ensures { OnOk result (AreAllStarred types.now.keys starred.new.entries) }
{
    match starred.swap_remove(&root) {
        Some(places) => note_behind(types, starred, root, places, stars),
        None => note_behind(types, starred, root, Vec::new(alloc), stars),
    }
}

/// Notes the places of the type that a text names, and of what it points to.
fn note(
    alloc: Global,
    types: &IndexSet<Ty>,
    starred: &mut IndexMap<Root, Vec<u32>>,
    structs: &IndexSet<Vec<u8>>,
    named: Use<'_>,
) -> Result<(), AllocError>
    requires few { length types.now.keys < 2 ^ 32 }
    requires names { length structs.now.keys < 2 ^ 32 }
    requires all { AreAllStarred types.now.keys starred.old.entries }
    ensures { OnOk result (AreAllStarred types.now.keys starred.new.entries) }
{
    match named {
        Use::Text => note_starred(alloc, types, starred, Root::Char, 1),
        Use::Starred(base, stars) => {
            note_starred(alloc, types, starred, root_of(structs, base), stars)
        }
        Use::Arrayed(_, _, _) => Ok(()),
    }
}

/// The places of the types that a text names, by their roots: with no star, with one, and so on.
pub(crate) fn places_of(
    alloc: Global,
    types: &IndexSet<Ty>,
    structs: &IndexSet<Vec<u8>>,
    uses: &[Use<'_>],
) -> Result<IndexMap<Root, Vec<u32>>, AllocError>
    requires few { length types.now.keys < 2 ^ 32 }
    requires names { length structs.now.keys < 2 ^ 32 }
    ensures { IfOk result (λ starred. AreAllStarred types.now.keys starred.entries) }
{
    let mut starred = IndexMap::new(alloc);
    for named in uses {
        note(alloc, types, &mut starred, structs, *named)?;
    }
    Ok(starred)
}
