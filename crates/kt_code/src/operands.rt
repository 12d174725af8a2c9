//! The operands of a thread.
ghost use Rattle.std.specs.Prelude.{◌≡◌, ◌≤◌, [], ◌∷◌, length, take, drop, reverse, slice_get, OnOk, OnErr};

use crate::room::have_room;
use kt_mem::Stored;
use std::alloc::{AllocError, Global};
use std::marker::Model;

/// The values that instructions take and put, seen as a list with the topmost first.
#[derive(Drop)]
pub struct Operands {
    // The topmost stands last.
    items: Vec<Stored>,
}

impl Model for Operands {
    ghost use Rattle.std.specs.Prelude.{List, reverse};
    ghost use Rattle.kt_mem.specs.declared.memory.Value.{Value as Item};

    ghost Value = { List Item };

    ghost view = { λ o. reverse o.items.items };
}

impl Operands {
    /// No operand.
    pub fn new(alloc: Global) -> Operands
        ensures { result ≡ [] }
    {
        Operands {
            items: Vec::new(alloc),
        }
    }

    /// How many there are.
    pub fn len(&self) -> usize
        ensures { result ≡ length self.now }
    {
        self.items.len()
    }

    /// The operand below so many others.
    pub fn get(&self, below: usize) -> Option<Stored>
        ensures { result ≡ slice_get self.now below }
    {
        let at = self.items.len().checked_sub(below)?.checked_sub(1)?;
        self.items.as_slice().get(at).copied()
    }

    /// The operands, of which the topmost stands last.
    pub fn as_slice(&self) -> &[Stored]
        ensures { result.now ≡ reverse self.now }
    {
        self.items.as_slice()
    }

    /// The topmost operands, so many, in the order in which they were put.
    pub fn last(&self, count: usize) -> &[Stored]
        requires { count ≤ length self.now }
        ensures { result.now ≡ reverse (take count self.now) }
    {
        let items = self.items.as_slice();
        &items[items.len() - count..]
    }

    /// The topmost operand.
    #[inline]
    pub fn first(&self) -> Stored
        requires { 1 ≤ length self.now }
        ensures { self.now ≡ result ∷ drop 1 self.now }
    {
        self.items[self.items.len() - 1]
    }

    /// The two topmost operands, the one below first.
    #[inline]
    pub fn first_two(&self) -> (Stored, Stored)
        requires { 2 ≤ length self.now }
        ensures { self.now ≡ result.1 ∷ result.0 ∷ drop 2 self.now }
    {
        let last = self.items.len() - 1;
        (self.items[last - 1], self.items[last])
    }

    /// Puts a value.
    #[inline]
    pub fn push(&mut self, value: Stored) -> Result<(), AllocError>
        ensures ok { OnOk result (self.new ≡ value ∷ self.old) }
        ensures err { OnErr result (self.new ≡ self.old) }
    {
        have_room(&mut self.items)?;
        self.items.push_reserved(value);
        Ok(())
    }

    /// Puts a value in the place of the topmost one.
    #[inline]
    pub fn replace(&mut self, value: Stored)
        requires { 1 ≤ length self.old }
        ensures { self.new ≡ value ∷ drop 1 self.old }
    {
        let last = self.items.len() - 1;
        self.items[last] = value;
    }

    /// Puts a value in the place of the two topmost ones.
    #[inline]
    pub fn replace_two(&mut self, value: Stored)
        requires { 2 ≤ length self.old }
        ensures { self.new ≡ value ∷ drop 2 self.old }
    {
        let _ = self.items.take_last();
        let last = self.items.len() - 1;
        self.items[last] = value;
    }

    /// Drops the topmost operand.
    #[inline]
    pub fn drop_first(&mut self)
        requires { 1 ≤ length self.old }
        ensures { self.new ≡ drop 1 self.old }
    {
        let _ = self.items.take_last();
    }

    /// Drops the topmost operands, so many.
    pub fn discard(&mut self, count: usize)
        ensures { self.new ≡ drop count self.old }
    {
        self.items.truncate(self.items.len().saturating_sub(count));
    }
}

impl Clone for Operands {
    ghost is_clone = { λ a b. b ≡ a };

    fn clone(&self) -> Result<Operands, AllocError> {
        Ok(Operands {
            items: self.items.clone()?,
        })
    }
}
