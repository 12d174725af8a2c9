//! What the names of a file stand for where an expression of it is typed.

ghost use Rattle.std.specs.Prelude.{◌≡◌, Option};
ghost use Rattle.std.specs.Option.{option_map, option_copied};
ghost use Rattle.kt_names.specs.Environment.{struct_in, is_complete, cells_of, field_from, local_named, struct_numbered};
ghost use Rattle.kt_names.specs.Views.{environment_of, fields_of, struct_of, found_as, outer_of};

use crate::ctype::{CType, Root};
use crate::in_scope::InScope;
use crate::info::{FoundField, Outer, StructInfo};
use crate::types::Types;
use indexmap::{IndexMap, IndexSet};
use std::alloc::Global;

/// What the names of a file stand for.
#[derive(Drop)]
pub struct Environment<'f> {
    pub alloc: Global,
    /// The names of all structs of the file.
    pub names: &'f IndexSet<Vec<u8>>,
    pub types: &'f Types,
    /// The structs that are defined before here, by their numbers.
    pub structs: &'f IndexMap<u32, StructInfo>,
    pub outer: &'f IndexMap<Vec<u8>, Outer>,
    /// The numbers of literals by their places in the file.
    pub literals: &'f IndexMap<u32, u32>,
    /// The names of points, the update points first.
    pub points: &'f IndexSet<Vec<u8>>,
    /// The type of each local of the function, and whether the function has `E_NOTELOCALS`.
    pub locals: &'f [CType],
    pub noted: bool,
    /// The locals in scope; none outside functions.
    pub visible: Option<&'f InScope>,
}

impl StructInfo {
    /// The field of this name, with its number.
    pub fn field_named(&self, name: &[u8]) -> Option<FoundField>
        ensures { option_map (found_as name.now) result ≡ field_from 0 (fields_of self.now) name.now }
    {
        match self.fields.get_full(name) {
            Some((index, _, field)) => Some(FoundField {
                index: index as u32,
                ty: field.ty,
                array: field.array,
            }),
            None => None,
        }
    }
}

impl Environment<'_> {
    /// The place of the type in the version's table.
    pub fn place(&self, t: CType) -> u32
        ensures { result ≡ (environment_of self.now).place t }
    {
        self.types.place(t)
    }

    /// The struct of a type that is a struct, and its number, where it is defined before here.
    pub fn struct_in(&self, t: CType) -> Option<(u32, &StructInfo)>
        ensures { option_map (λ p. struct_of (p.0, p.1.now)) result ≡ struct_in (environment_of self.now) t }
    {
        if t.stars != 0 {
            return None;
        }
        match t.root {
            Root::Struct(number) => self.struct_numbered(number),
            Root::Char => None,
            Root::Int => None,
            Root::Long => None,
            Root::Mutex => None,
        }
    }

    /// The struct of this number, where it is defined before here.
    pub fn struct_numbered(&self, number: u32) -> Option<(u32, &StructInfo)>
        ensures { option_map (λ p. struct_of (p.0, p.1.now)) result ≡ struct_numbered (environment_of self.now).structs number }
    {
        match self.structs.get_index_of(&number) {
            Some(place) => match self.structs.get_index(place) {
                Some((number, info)) => Some((*number, info)),
                None => None,
            },
            None => None,
        }
    }

    /// Whether the type has its cells: it is no struct, or one that is defined before here.
    pub fn is_complete(&self, t: CType) -> bool
        ensures { result ≡ is_complete (environment_of self.now) t }
    {
        !t.is_struct() || self.struct_in(t).is_some()
    }

    /// How many cells the type has.
    pub fn cells_of(&self, t: CType) -> u32
        ensures { result ≡ cells_of (environment_of self.now) t }
    {
        match self.struct_in(t) {
            Some((_, info)) => info.cells,
            None => 1,
        }
    }

    /// The number of the local in scope that has this name.
    pub fn local_named(&self, name: &[u8]) -> Option<u32>
        ensures { result ≡ local_named (environment_of self.now).visible name.now }
    {
        match self.visible {
            Some(names) => names.local_named(name),
            None => None,
        }
    }

    /// What a name of the whole file stands for.
    pub fn outer_named(&self, name: &[u8]) -> Option<&Outer>
        ensures { option_map (λ o. outer_of o.now) result ≡ (environment_of self.now).outer name.now }
    {
        self.outer.get(name)
    }
}
