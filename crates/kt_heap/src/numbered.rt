//! Objects by number, as globals: each number has an object or none.
ghost use Rattle.std.specs.Prelude.{◌≡◌, ◌+◌, ◌<◌, ◌≤◌, ◌==◌, ℕ, List, [], ◌∷◌, ◌++◌, length, None, Some, IsOk, OnOk, OnErr, IfErr, if◌then◌else◌};
ghost use Rattle.std.specs.Option.{option_map, option_copied};
ghost use Rattle.kt_mem.specs.Memory.{value_in};
ghost use Rattle.kt_heap.specs.Objects.{shown, obj_with, held, object_in};

use crate::object::Obj;
use kt_mem::{Cell, Trap, Value};
use kt_types::Ty;
use std::alloc::{AllocError, Global};
use std::marker::Model;

/// Places from 0 on.
#[derive(Drop)]
pub struct Numbered {
    items: Vec<Option<Obj>>,
}

impl Model for Numbered {
    ghost use Rattle.std.specs.Prelude.{List, Option};
    ghost use Rattle.kt_heap.specs.declared.object.Obj.{Obj};

    ghost Value = { List (Option Obj) };

    ghost view = { λ s. s.items.items };
}

impl Numbered {
    /// No places.
    pub fn new(alloc: Global) -> Numbered
        ensures { result ≡ [] }
    {
        Numbered {
            items: Vec::new(alloc),
        }
    }

    /// The object at a place.
    pub fn get(&self, place: u64) -> Option<&Obj>
        ensures { option_copied result ≡ held self.now place }
    {
        match self.items.get(place as usize) {
            None => None,
            Some(slot) => slot.as_ref(),
        }
    }

    /// Puts an object at a place. Where there is no such place yet, it makes the places up to it.
    pub fn set(&mut self, place: u64, obj: Obj) -> Result<(), AllocError>
        ensures ok { OnOk result ((i : ℕ) → held self.new i ≡ (if i == place then Some obj else held self.old i)) }
        ensures err { OnErr result ((i : ℕ) → held self.new i ≡ held self.old i) }
    {
        let place = place as usize;
        if place < self.items.len() {
            self.items[place] = Some(obj);
            return Ok(());
        }
        pad(&mut self.items, place)?;
        self.items.push(Some(obj))?;
        Ok(())
    }

    /// Writes a cell of the object at a place, with the traps of `Obj::stored`, and `dead` where there is no object.
    pub fn store(&mut self, place: u64, offset: u32, cell: Cell) -> Result<(), Trap>
        ensures written { OnOk result ((i : ℕ) → held self.new i ≡ (if i == place then option_map (obj_with offset cell) (held self.old place) else held self.old i)) }
        ensures there { OnOk result (IsOk (value_in (object_in self.old place) offset cell.ty)) }
        ensures trap { IfErr result (λ t. value_in (object_in self.old place) offset cell.ty ≡ Err t) }
        ensures kept { OnErr result (self.new ≡ self.old) }
    {
        match self.items.get_mut(place as usize) {
            None => Err(Trap::Dead),
            Some(slot) => store_in(slot, offset, cell),
        }
    }
}

/// Makes empty places until there are so many.
fn pad(items: &mut Vec<Option<Obj>>, count: usize) -> Result<(), AllocError>
    requires { length items.old.items ≤ count }
    ensures len { OnOk result (length items.new.items ≡ count) }
    ensures same { (i : ℕ) → held items.new.items i ≡ held items.old.items i }
{
    items.reserve(count - items.len())?;
    while items.len() < count {
        items.push(None)?;
    }
    Ok(())
}

/// Writes a cell of the object in one place.
fn store_in(slot: &mut Option<Obj>, offset: u32, cell: Cell) -> Result<(), Trap>
    ensures written { OnOk result (slot.new ≡ option_map (obj_with offset cell) slot.old) }
    ensures there { OnOk result (IsOk (value_in (option_map shown slot.old) offset cell.ty)) }
    ensures trap { IfErr result (λ t. value_in (option_map shown slot.old) offset cell.ty ≡ Err t) }
    ensures kept { OnErr result (slot.new ≡ slot.old) }
{
    match slot {
        None => Err(Trap::Dead),
        Some(obj) => obj.store(offset, cell),
    }
}
