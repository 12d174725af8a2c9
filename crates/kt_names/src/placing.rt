//! The places of types in a table.

ghost use Rattle.std.specs.Prelude.{◌≡◌, ◌<◌, ◌≤◌, ◌^◌, length};
ghost use Rattle.kt_names.specs.Types.{place_of_type, starred_place, place_in};
ghost use Rattle.kt_names.specs.Placed.{AreStarred, AreAllStarred};

use crate::ctype::{CType, Root};
use indexmap::{IndexMap, IndexSet};
use kt_types::Ty;

/// A number of stars, and the place of a root's type with so many.
#[derive(Clone, Copy)]
pub(crate) struct Known {
    pub stars: usize,
    pub place: u32,
}

/// The place of a type of the table; 0 where it is not there.
pub(crate) fn place_among(types: &IndexSet<Ty>, ty: Ty) -> u32
    requires { length types.now.keys < 2 ^ 32 }
    ensures { result ≡ place_of_type types.now.keys ty }
{
    match types.get_index_of(&ty) {
        Some(place) => place as u32,
        None => 0,
    }
}

/// The place of the root, which has no star.
pub(crate) fn place_of_root(types: &IndexSet<Ty>, root: Root) -> Known
    requires { length types.now.keys < 2 ^ 32 }
    ensures stars { result.stars ≡ 0 }
    ensures place { result.place ≡ starred_place types.now.keys root 0 }
{
    Known {
        stars: 0,
        place: place_among(types, root.table_type()),
    }
}

/// The place of a type, found from one with fewer stars.
pub(crate) fn place_from(types: &IndexSet<Ty>, t: CType, known: Known) -> u32
    requires few { length types.now.keys < 2 ^ 32 }
    requires within { known.stars ≤ t.stars }
    requires place { known.place ≡ starred_place types.now.keys t.root known.stars }
    ensures { result ≡ place_in types.now.keys t }
{
    let mut place = known.place;
    for _ in known.stars..t.stars {
        place = place_among(types, Ty::Ptr(place));
    }
    place
}

/// Of this type and those of its root with fewer stars, the one with the most stars that is among these places.
fn nearest_among(types: &IndexSet<Ty>, places: &[u32], t: CType) -> Known
    requires few { length types.now.keys < 2 ^ 32 }
    requires placed { AreStarred types.now.keys t.root places.now }
    ensures within { result.stars ≤ t.stars }
    ensures place { result.place ≡ starred_place types.now.keys t.root result.stars }
{
    if t.stars < places.len() {
        return Known {
            stars: t.stars,
            place: places[t.stars],
        };
    }
    if places.is_empty() {
        return place_of_root(types, t.root);
    }
    let stars = places.len() - 1;
    Known {
        stars,
        place: places[stars],
    }
}

/// Of this type and those of its root with fewer stars, the one with the most stars whose place is noted.
pub(crate) fn nearest(types: &IndexSet<Ty>, starred: &IndexMap<Root, Vec<u32>>, t: CType) -> Known
    requires few { length types.now.keys < 2 ^ 32 }
    requires placed { AreAllStarred types.now.keys starred.now.entries }
    ensures within { result.stars ≤ t.stars }
    ensures place { result.place ≡ starred_place types.now.keys t.root result.stars }
{
    match starred.get(&t.root) {
        Some(places) => nearest_among(types, places.as_slice(), t),
        None => place_of_root(types, t.root),
    }
}
