//! The types of a version, by their places.

ghost use Rattle.std.specs.Prelude.{◌≡◌, ◌<◌, ◌^◌, length, map, IfOk};
ghost use Rattle.kt_syntax.specs.Tree.{external_of};
ghost use Rattle.kt_names.specs.Types.{place_in, place_of_type, number_of_struct, root_of};
ghost use Rattle.kt_names.specs.Tables.{struct_names, types_of};
ghost use Rattle.kt_names.specs.Placed.{AreAllStarred};

use crate::ctype::{CType, Root};
use crate::listing::Listing;
use crate::noting::places_of;
use crate::placing::{nearest, place_among, place_from};
use crate::uses::Uses;
use indexmap::{IndexMap, IndexSet};
use kt_grammar::{Base, Word};
use kt_syntax::Item;
use kt_types::Ty;
use std::alloc::{AllocError, Global};

/// The types of a version's table, each at its place, and by their roots the places of those that a text names: with no
/// star, with one, and so on.
#[derive(Drop)]
pub struct Types {
    pub types: IndexSet<Ty>,
    pub starred: IndexMap<Root, Vec<u32>>,
    ghost few: { length types.keys < 2 ^ 32 },
    ghost placed: { AreAllStarred types.keys starred.entries },
}

impl Types {
    /// The place of a type of the table; 0 where it is not there.
    pub fn place_of(&self, ty: Ty) -> u32
        ensures { result ≡ place_of_type self.now.types.keys ty }
    {
        place_among(&self.types, ty)
    }

    /// The place of a type of expressions in the table.
    pub fn place(&self, t: CType) -> u32
        ensures { result ≡ place_in self.now.types.keys t }
    {
        place_from(&self.types, t, nearest(&self.types, &self.starred, t))
    }

    /// The types of a file with these structs.
    pub fn of(
        alloc: Global,
        structs: &IndexSet<Vec<u8>>,
        items: &[Item],
    ) -> Result<Types, AllocError>
        requires names { map (λ n. n.items) structs.now.keys ≡ struct_names (map external_of items.now) }
        requires few { length structs.now.keys < 2 ^ 32 }
        ensures { IfOk result (λ types. types.types.keys ≡ types_of (map external_of items.now)) }
    {
        let uses = Uses::of(alloc, items)?;
        let listing = Listing::of_uses(alloc, structs, uses.as_slice())?;
        let starred = places_of(alloc, &listing.types, structs, uses.as_slice())?;
        Ok(Types {
            types: listing.types,
            starred,
        })
    }
}

/// The number of the struct of this name; 0 where it is not there.
fn number_of_struct(structs: &IndexSet<Vec<u8>>, word: &Word) -> u32
    requires { length structs.now.keys < 2 ^ 32 }
    ensures { result ≡ number_of_struct (map (λ n. n.items) structs.now.keys) word.now }
{
    match structs.get_index_of(word.as_bytes()) {
        Some(place) => place as u32,
        None => 0,
    }
}

/// What a base is as a type of expressions.
pub(crate) fn root_of(structs: &IndexSet<Vec<u8>>, base: &Base) -> Root
    requires { length structs.now.keys < 2 ^ 32 }
    ensures { result ≡ root_of (map (λ n. n.items) structs.now.keys) base.now }
{
    match base {
        Base::Char => Root::Char,
        Base::Int => Root::Int,
        Base::Long => Root::Long,
        Base::Mutex => Root::Mutex,
        Base::Struct(name) => Root::Struct(number_of_struct(structs, &name.word)),
    }
}
