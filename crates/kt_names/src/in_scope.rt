//! The names in scope, and where the latest of each name is.

ghost use Rattle.std.specs.Prelude.{◌≡◌, ◌-◌, ◌<◌, true, ℕ, List, [], ◌∷◌, ◌++◌, map, length, take, slice_get, Some, None, OnOk, OnErr, IfErr, is_some, if◌then◌else◌};
ghost use Rattle.std.specs.Option.{option_map};
ghost use Rattle.std.specs.Map.{lookup};
ghost use Rattle.std.specs.Str.{bytes_eq};
ghost use Rattle.indexmap.specs.IndexMap.{index_map_len, set_value_at};
ghost use Rattle.kt_names.specs.declared.fault.CheckFault.TheVariants.{NoMemory};
ghost use Rattle.kt_names.specs.declared.info.Visible.{Visible};
ghost use Rattle.kt_names.specs.Environment.{local_named};
ghost use Rattle.kt_names.specs.Latest.{latest_first, place_of, kept_under};
ghost use Rattle.kt_names.specs.Views.{visible_of};

use crate::fault::CheckFault;
use crate::info::Visible;
use indexmap::IndexMap;
use std::alloc::{AllocError, Global};
use std::marker::Model;

/// The names in scope, the innermost last.
#[derive(Drop)]
pub struct InScope {
    names: Vec<Visible>,
    // The place of the latest of each name; none under a name that is in scope no longer.
    places: IndexMap<Vec<u8>, Option<usize>>,
}

impl Model for InScope {
    ghost use Rattle.std.specs.Prelude.{List};
    ghost use Rattle.kt_names.specs.declared.info.Visible.{Visible};
    ghost use Rattle.kt_names.specs.Latest.{Keeps};

    ghost Value = { List Visible };

    ghost view = { λ s. s.names.items };

    ghost invariant = { λ s. Keeps s.places.entries s.names.items };
}

/// Writes the place that is kept at an index.
fn write(places: &mut IndexMap<Vec<u8>, Option<usize>>, index: usize, place: Option<usize>)
    requires { index < index_map_len places.old }
    ensures { places.new.entries ≡ set_value_at places.old.entries index place }
{
    if let Some(kept) = places.get_index_mut(index) {
        *kept = place;
    }
}

/// Keeps a place under a name of the map.
fn keep(places: &mut IndexMap<Vec<u8>, Option<usize>>, name: &[u8], place: Option<usize>)
    requires { is_some (lookup (λ k. bytes_eq name.now k.items) places.old.entries) ≡ true }
    ensures { (q : List ℕ) → kept_under places.new.entries q ≡ (if bytes_eq name.now q then place else kept_under places.old.entries q) }
{
    match places.get_index_of(name) {
        Some(index) => write(places, index, place),
        None => unreachable!(),
    }
}

/// Adds a name that the map does not have, with no place.
fn add(
    places: &mut IndexMap<Vec<u8>, Option<usize>>,
    alloc: Global,
    name: &[u8],
) -> Result<(), AllocError>
    requires { lookup (λ k. bytes_eq name.now k.items) places.old.entries ≡ None }
    ensures same { (q : List ℕ) → kept_under places.new.entries q ≡ kept_under places.old.entries q }
    ensures there { OnOk result (is_some (lookup (λ k. bytes_eq name.now k.items) places.new.entries) ≡ true) }
{
    let name = Vec::from_slice(alloc, name)?;
    places.insert(name, None)?;
    Ok(())
}

/// Adds a name, where the map does not have it; what is kept under each name stays.
fn admit(
    places: &mut IndexMap<Vec<u8>, Option<usize>>,
    alloc: Global,
    name: &[u8],
) -> Result<(), AllocError>
    ensures same { (q : List ℕ) → kept_under places.new.entries q ≡ kept_under places.old.entries q }
    ensures there { OnOk result (is_some (lookup (λ k. bytes_eq name.now k.items) places.new.entries) ≡ true) }
{
    match places.get(name) {
        Some(_) => Ok(()),
        None => add(places, alloc, name),
    }
}

impl InScope {
    /// Nothing is in scope.
    pub fn new(alloc: Global) -> InScope
        ensures { result ≡ [] }
    {
        InScope {
            names: Vec::new(alloc),
            places: IndexMap::new(alloc),
        }
    }

    /// How many are in scope.
    pub fn len(&self) -> usize
        ensures { result ≡ length self.now }
    {
        self.names.len()
    }

    /// The place of the latest of a name.
    pub fn place_of(&self, name: &[u8]) -> Option<usize>
        ensures { result ≡ place_of (latest_first self.now) name.now }
    {
        match self.places.get(name) {
            Some(place) => *place,
            None => None,
        }
    }

    /// The number of the local at a place.
    fn local_at(&self, place: usize) -> Option<u32>
        ensures { result ≡ option_map (λ v. v.local) (slice_get self.now place) }
    {
        match self.names.get(place) {
            Some(visible) => Some(visible.local),
            None => None,
        }
    }

    /// The number of the local that a name stands for.
    pub fn local_named(&self, name: &[u8]) -> Option<u32>
        ensures { result ≡ local_named (map visible_of (latest_first self.now)) name.now }
    {
        match self.place_of(name) {
            Some(place) => self.local_at(place),
            None => None,
        }
    }

    /// A name more, the innermost, for the local of this number.
    pub fn push(&mut self, name: &[u8], local: u32) -> Result<(), CheckFault>
        ensures pushed { OnOk result ((v : Visible) × (self.new ≡ self.old ++ v ∷ []) × (v.name.items ≡ name.now) × (v.local ≡ local)) }
        ensures err { OnErr result (self.new ≡ self.old) }
        ensures memory { IfErr result (λ f. f ≡ NoMemory) }
    {
        let hides = self.place_of(name);
        let place = self.names.len();
        let alloc = *self.names.allocator();
        admit(&mut self.places, alloc, name)?;
        let copy = Vec::from_slice(alloc, name)?;
        self.names.push(Visible {
            name: copy,
            local,
            hides,
        })?;
        keep(&mut self.places, name, Some(place));
        Ok(())
    }

    /// The innermost is in scope no longer.
    fn pop(&mut self)
        ensures { self.new ≡ take (length self.old - 1) self.old }
    {
        if let Some(last) = self.names.pop() {
            keep(&mut self.places, last.name.as_slice(), last.hides);
        }
    }

    /// So many of them alone stay in scope.
    pub(crate) fn truncate(&mut self, count: usize)
        ensures { self.new ≡ take count self.old }
    {
        while self.len() > count {
            self.pop();
        }
    }
}
