//! The keys of live heap objects.
ghost use Rattle.std.specs.Prelude.{◌≡◌, ◌≢◌, ◌<◌, [], List, length, None, Some, IfOk, OnErr, slice_get};
ghost use Rattle.std.specs.Option.{option_copied};
ghost use Rattle.kt_heap.specs.Keys.{place_at, IsKeyPut, AreAllUsed, IsKeyTaken};
ghost use Rattle.kt_heap.specs.Chain.{link_of};

use std::alloc::{AllocError, Global};
use std::marker::Model;

/// What is kept at a key.
#[derive(Clone, Copy)]
enum Key {
    // The place of its object.
    Used(usize),
    // The free key behind it in the chain.
    Free(Option<u32>),
}

/// For each key from 0 on the place of its object in the slab. Free keys are chained, so that none takes memory.
#[derive(Drop)]
pub struct Keys {
    items: Vec<Key>,
    // The free key that is used next.
    first: Option<u32>,
}

impl Model for Keys {
    ghost use Rattle.std.specs.Prelude.{List, Option, ℕ, map, length, ◌<◌};
    ghost use Rattle.kt_heap.specs.Chain.{place_of, IsChained};

    ghost Value = { List (Option ℕ) };

    ghost view = { λ k. map place_of k.items.items };

    ghost invariant = { λ k. IsChained k.items.items k.first × (length k.items.items < 4294967296) };
}

impl Keys {
    /// No key.
    pub fn new(alloc: Global) -> Keys
        ensures { result ≡ [] }
    {
        Keys {
            items: Vec::new(alloc),
            first: None,
        }
    }

    /// How many keys were made.
    pub fn len(&self) -> u32
        ensures { result ≡ length self.now }
    {
        self.items.len() as u32
    }

    /// The place of a key's object.
    pub fn get(&self, key: u32) -> Option<usize>
        ensures { result ≡ place_at self.now key }
    {
        match self.items.get(key as usize) {
            Some(Key::Used(place)) => Some(*place),
            _ => None,
        }
    }

    /// Gives a place a key: a free one, or the next number where none is free.
    pub fn insert(&mut self, place: usize) -> Result<u32, AllocError>
        ensures narrow { IfOk result (λ key. key < 4294967296) }
        ensures free { IfOk result (λ key. place_at self.old key ≡ None) }
        ensures used { IfOk result (λ key. IsKeyPut self.old self.new key (Some place)) }
        ensures taken { IfOk result (λ key. IsKeyTaken self.old self.new key) }
        ensures kept { OnErr result (self.new ≡ self.old) }
    {
        match self.first {
            Some(key) => {
                self.first = link(self.items.as_slice(), key);
                self.items[key as usize] = Key::Used(place);
                Ok(key)
            }
            None => self.push(place),
        }
    }

    /// Gives a place the next key. A key that does not fit is want of memory: no heap has so many live objects.
    fn push(&mut self, place: usize) -> Result<u32, AllocError>
        requires { AreAllUsed self.old }
        ensures narrow { IfOk result (λ key. key < 4294967296) }
        ensures free { IfOk result (λ key. place_at self.old key ≡ None) }
        ensures used { IfOk result (λ key. IsKeyPut self.old self.new key (Some place)) }
        ensures taken { IfOk result (λ key. IsKeyTaken self.old self.new key) }
        ensures kept { OnErr result (self.new ≡ self.old) }
    {
        let key = self.items.len();
        if key >= 4_294_967_295 {
            return Err(AllocError);
        }
        self.items.push(Key::Used(place))?;
        Ok(key as u32)
    }

    /// Makes a key that has a place free.
    pub fn remove(&mut self, key: u32)
        requires { place_at self.old key ≢ None }
        ensures put { IsKeyPut self.old self.new key None }
        ensures len { length self.new ≡ length self.old }
    {
        self.items[key as usize] = Key::Free(self.first);
        self.first = Some(key);
    }
}

/// The free key behind a free key in the chain.
fn link(keys: &[Key], key: u32) -> Option<u32>
    ensures { result ≡ link_of (slice_get keys.now key) }
{
    match keys.get(key as usize) {
        Some(Key::Free(next)) => *next,
        _ => None,
    }
}
