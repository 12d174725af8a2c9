//! Heap objects by address.
ghost use Rattle.std.specs.Prelude.{◌≡◌, ◌↔◌, ◌<◌, ℕ, [], length, None, Some, IsSome, IsOk, IfOk, OnOk, OnErr, IfErr};
ghost use Rattle.std.specs.Option.{option_map, option_copied};
ghost use Rattle.kt_mem.specs.Memory.{value_in};
ghost use Rattle.kt_heap.specs.Objects.{shown, obj_with};
ghost use Rattle.kt_heap.specs.Keys.{place_at, key_of, generation_of, AreAllUsed, IsKeyTaken};
ghost use Rattle.kt_heap.specs.Keyed.{obj_of, obj_at, entry_at, IsPut, IsObjectAt, HaveObjects};

use crate::keys::Keys;
use crate::object::Obj;
use kt_mem::{Cell, Trap};
use slab::Slab;
use std::alloc::{AllocError, Global};
use std::marker::Model;

/// How many keys there may be: an address is the key and this many times the generation.
const KEYS: u64 = 4_294_967_296;

/// A heap object beside its address, which has its generation.
#[derive(Drop)]
pub struct Entry {
    address: u64,
    obj: Obj,
}

/// Heap objects in a slab, at the places that their keys have.
#[derive(Drop)]
pub struct Keyed {
    slab: Slab<Entry>,
    keys: Keys,
}

impl Model for Keyed {
    ghost use Rattle.kt_heap.specs.Keyed.{Keyed as Objects, IsKeyed};

    ghost Value = { Objects };

    ghost view = { λ h. record { slots = h.slab.slots; keys = h.keys } };

    ghost invariant = { λ h. IsKeyed (record { slots = h.slab.slots; keys = h.keys }) };
}

impl Keyed {
    /// No object.
    pub fn new(alloc: Global) -> Keyed
        ensures { result ≡ record { slots = []; keys = [] } }
    {
        Keyed {
            slab: Slab::new(alloc),
            keys: Keys::new(alloc),
        }
    }

    /// How many keys were made.
    pub fn keys(&self) -> u32
        ensures count { result ≡ length self.now.keys }
        ensures above { (a : ℕ) → IsSome (option_map shown (obj_at self.now a)) → key_of a < result }
    {
        self.keys.len()
    }

    /// The object at an address.
    pub fn get(&self, a: u64) -> Option<&Obj>
        ensures { option_copied result ≡ obj_at self.now a }
    {
        match self.entry((a % KEYS) as u32) {
            None => None,
            Some(entry) => {
                if entry.address == a {
                    Some(&entry.obj)
                } else {
                    None
                }
            }
        }
    }

    /// The address of the object at a key.
    pub fn at_key(&self, key: u32) -> Option<u64>
        ensures { (a : ℕ) → (result ≡ Some a) ↔ IsObjectAt self.now key a }
    {
        match self.entry(key) {
            None => None,
            Some(entry) => Some(entry.address),
        }
    }

    /// Puts an object at an address of a generation, with a key that no object has.
    pub fn insert(&mut self, generation: u64, obj: Obj) -> Result<u64, AllocError>
        requires { generation < 4294967296 }
        ensures put { IfOk result (λ a. IsPut self.old self.new a (Some obj)) }
        ensures unused { IfOk result (λ a. obj_at self.old a ≡ None) }
        ensures generation { IfOk result (λ a. generation_of a ≡ generation) }
        ensures free { IfOk result (λ a. place_at self.old.keys (key_of a) ≡ None) }
        ensures taken { IfOk result (λ a. IsKeyTaken self.old.keys self.new.keys (key_of a)) }
        ensures all_used { OnOk result (AreAllUsed self.old.keys → AreAllUsed self.new.keys) }
        ensures objects { OnOk result (AreAllUsed self.old.keys → HaveObjects self.old) }
        ensures kept { OnErr result (self.new ≡ self.old) }
    {
        self.slab.reserve(1)?;
        let key = self.keys.insert(self.slab.vacant_key())?;
        let address = u64::from(key) + KEYS * generation;
        self.slab.insert_reserved(Entry { address, obj });
        Ok(address)
    }

    /// Writes a cell of the object at an address, with the traps of `Obj::stored`, and `dead` where there is no object.
    pub fn store(&mut self, a: u64, offset: u32, cell: Cell) -> Result<(), Trap>
        ensures written { OnOk result (IsPut self.old self.new a (option_map (obj_with offset cell) (obj_at self.old a))) }
        ensures keys { self.new.keys ≡ self.old.keys }
        ensures there { OnOk result (IsOk (value_in (option_map shown (obj_at self.old a)) offset cell.ty)) }
        ensures trap { IfErr result (λ t. value_in (option_map shown (obj_at self.old a)) offset cell.ty ≡ Err t) }
        ensures kept { OnErr result (self.new ≡ self.old) }
    {
        match self.keys.get((a % KEYS) as u32) {
            None => Err(Trap::Dead),
            Some(place) => match self.slab.get_mut(place) {
                None => Err(Trap::Dead),
                Some(entry) => store_in(entry, a, offset, cell),
            },
        }
    }

    /// Takes the object away from an address. Its key and its place are free then.
    pub fn take(&mut self, a: u64) -> Option<Obj>
        ensures value { result ≡ obj_at self.old a }
        ensures taken { IsPut self.old self.new a None }
        ensures keys { length self.new.keys ≡ length self.old.keys }
    {
        self.get(a)?;
        let key = (a % KEYS) as u32;
        let place = self.keys.get(key)?;
        let entry = self.slab.try_remove(place)?;
        self.keys.remove(key);
        Some(entry.obj)
    }

    /// What stands at a key.
    fn entry(&self, key: u32) -> Option<&Entry>
        ensures entry { option_copied result ≡ entry_at self.now key }
        ensures own { (a : ℕ) → (option_map (λ e. e.address) (option_copied result) ≡ Some a) ↔ IsObjectAt self.now key a }
    {
        match self.keys.get(key) {
            None => None,
            Some(place) => self.slab.get(place),
        }
    }
}

/// Writes a cell of an object, where it is the one with this address.
fn store_in(entry: &mut Entry, a: u64, offset: u32, cell: Cell) -> Result<(), Trap>
    ensures written { OnOk result (entry.new ≡ record entry.old { obj = obj_with offset cell entry.old.obj }) }
    ensures own { OnOk result (entry.old.address ≡ a) }
    ensures address { entry.new.address ≡ entry.old.address }
    ensures there { OnOk result (IsOk (value_in (option_map shown (obj_of a (Some entry.old))) offset cell.ty)) }
    ensures trap { IfErr result (λ t. value_in (option_map shown (obj_of a (Some entry.old))) offset cell.ty ≡ Err t) }
    ensures kept { OnErr result (entry.new ≡ entry.old) }
{
    if entry.address != a {
        return Err(Trap::Dead);
    }
    entry.obj.store(offset, cell)
}
