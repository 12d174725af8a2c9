//! The locals of a call.
ghost use Rattle.std.specs.Prelude.{◌≡◌, slice_get, slice_set};

use kt_mem::Stored;
use std::alloc::AllocError;
use std::marker::Model;

/// The values of a call's locals.
#[derive(Drop)]
pub struct Locals {
    items: Vec<Stored>,
}

impl Model for Locals {
    ghost use Rattle.std.specs.Prelude.{List};
    ghost use Rattle.kt_mem.specs.declared.memory.Value.{Value as Item};

    ghost Value = { List Item };

    ghost view = { λ l. l.items.items };
}

impl Locals {
    /// The locals of these values.
    pub fn from_vec(items: Vec<Stored>) -> Locals
        ensures { result ≡ items.items }
    {
        Locals { items }
    }

    /// The values, as the vector that holds them.
    pub fn into_vec(self) -> Vec<Stored>
        ensures { result.items ≡ self }
    {
        self.items
    }

    /// The values.
    pub fn as_slice(&self) -> &[Stored]
        ensures { result.now ≡ self.now }
    {
        self.items.as_slice()
    }

    /// What a local holds.
    #[inline]
    pub fn get(&self, n: u32) -> Option<Stored>
        ensures { result ≡ slice_get self.now n }
    {
        self.items.as_slice().get(n as usize).copied()
    }

    /// A local takes a value; where there is none of that number, nothing changes.
    #[inline]
    pub fn set(&mut self, n: u32, value: Stored)
        ensures { self.new ≡ slice_set self.old n value }
    {
        if let Some(local) = self.items.get_mut(n as usize) {
            *local = value;
        }
    }
}

impl Clone for Locals {
    ghost is_clone = { λ a b. b ≡ a };

    fn clone(&self) -> Result<Locals, AllocError> {
        Ok(Locals {
            items: self.items.clone()?,
        })
    }
}
