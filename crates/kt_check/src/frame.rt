//! What a file's syntax gives once for all.

ghost use Rattle.std.specs.Prelude.{◌<◌, ◌^◌, length};

use indexmap::{IndexMap, IndexSet};
use kt_names::info::Outer;
use kt_names::types::Types;
use kt_syntax::Item;
use std::alloc::Global;

/// The tables of a file.
#[derive(Drop)]
pub(crate) struct Frame<'f> {
    pub alloc: Global,
    pub items: &'f [Item],
    /// The names of all structs of the file.
    pub names: &'f IndexSet<Vec<u8>>,
    pub types: &'f Types,
    pub outer: &'f IndexMap<Vec<u8>, Outer>,
    /// The numbers of literals by their places in the file.
    pub literals: &'f IndexMap<u32, u32>,
    /// The names of points, the update points first.
    pub points: &'f IndexSet<Vec<u8>>,
    ghost few: { length names.now.keys < 2 ^ 32 },
}
