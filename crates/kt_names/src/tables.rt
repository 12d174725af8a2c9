//! What a file's text gives once for all.

ghost use Rattle.std.specs.Prelude.{◌≡◌, ◌==◌, ◌<◌, ◌≤◌, ◌^◌, true, ℕ, List, map, length, IfOk};
ghost use Rattle.std.specs.List.{list_all};
ghost use Rattle.std.specs.Map.{lookup};
ghost use Rattle.kt_tree.specs.Names.{is_identifier};
ghost use Rattle.kt_syntax.specs.Tree.{external_of};
ghost use Rattle.kt_names.specs.Outers.{outer_in};
ghost use Rattle.kt_names.specs.Views.{literal_at};
ghost use Rattle.kt_names.specs.Tables.{struct_names, types_of, outer_named, written_of, literals_in, literal_places, literal_number, update_names, point_names};

use crate::info::Outer;
use crate::literals::{literal_numbers, literals};
use crate::mentions::struct_names;
use crate::outer::outer_table;
use crate::points::point_names;
use crate::types::Types;
use crate::written::Strings;
use indexmap::{IndexMap, IndexSet};
use kt_syntax::Item;
use kt_types::Text;
use std::alloc::{AllocError, Global};

/// The structs, types and names of a file.
#[derive(Drop)]
pub struct Named {
    /// The names of all structs.
    pub structs: IndexSet<Vec<u8>>,
    pub types: Types,
    /// What a name of the file stands for.
    pub outer: IndexMap<Vec<u8>, Outer>,
}

/// The strings of a file.
#[derive(Drop)]
pub struct Texts {
    pub literals: Vec<Text>,
    /// The numbers of literals by their places.
    pub numbers: IndexMap<u32, u32>,
    /// The names of points, the update points first, and how many of them are update points.
    pub points: IndexSet<Vec<u8>>,
    pub updates: u32,
}

impl Named {
    /// The structs, types and names of a file.
    pub fn of(alloc: Global, items: &[Item]) -> Result<Named, AllocError>
        ensures structs { IfOk result (λ t. map (λ n. n.items) t.structs.keys ≡ struct_names (map external_of items.now)) }
        ensures identifiers { IfOk result (λ t. list_all is_identifier (map (λ n. n.items) t.structs.keys) ≡ true) }
        ensures few { IfOk result (λ t. length t.structs.keys < 2 ^ 32) }
        ensures types { IfOk result (λ t. t.types.types.keys ≡ types_of (map external_of items.now)) }
        ensures outer { IfOk result (λ t. (q : List ℕ) → outer_in t.outer.entries q ≡ outer_named (map (λ n. n.items) t.structs.keys) (map external_of items.now) q) }
    {
        let structs = struct_names(alloc, items)?;
        let types = Types::of(alloc, &structs, items)?;
        let outer = outer_table(alloc, &structs, items)?;
        Ok(Named {
            structs,
            types,
            outer,
        })
    }
}

impl Texts {
    /// The strings of a file.
    pub fn of(alloc: Global, items: &[Item]) -> Result<Texts, AllocError>
        ensures literals { IfOk result (λ t. t.literals.items ≡ literals_in (written_of (map external_of items.now))) }
        ensures numbers { IfOk result (λ t. (at : ℕ) → literal_at (lookup (λ k. at == k) t.numbers.entries) ≡ literal_number (literal_places (written_of (map external_of items.now))) at) }
        ensures points { IfOk result (λ t. map (λ n. n.items) t.points.keys ≡ point_names (map external_of items.now)) }
        ensures updates { IfOk result (λ t. t.updates ≡ length (update_names (map external_of items.now))) }
        ensures few { IfOk result (λ t. length t.points.keys < 2 ^ 32) }
        ensures within { IfOk result (λ t. t.updates ≤ length t.points.keys) }
    {
        let strings = Strings::of(alloc, items)?;
        let literals = literals(alloc, strings.as_slice())?;
        let numbers = literal_numbers(alloc, strings.as_slice())?;
        let (points, updates) = point_names(alloc, strings.as_slice())?;
        Ok(Texts {
            literals,
            numbers,
            points,
            updates,
        })
    }
}
