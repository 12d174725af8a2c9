//! What an update keeps of a thread.
ghost use Rattle.std.specs.Prelude.{◌≡◌};

use crate::memory::Value;
use std::alloc::AllocError;
use std::marker::Model;

/// Whether a thread is on its way from an entry to an update point.
#[derive(Clone, Copy, Debug, PartialEq, Eq)]
pub enum Mode {
    Normal,

    /// Updating from a point: the place of its name in the points of the thread's version.
    Updating(u32),
}

/// The value that an update kept for a local.
#[derive(Clone, Copy)]
pub struct KeptLocal {
    pub function: u32,
    pub local: u32,
    pub value: Value,
}

/// The kept values of a thread's locals.
#[derive(Drop)]
pub struct KeptLocals {
    items: Vec<KeptLocal>,
}

impl Model for KeptLocals {
    ghost use Rattle.std.specs.Prelude.{List};
    ghost use Rattle.kt_mem.specs.declared.thread.KeptLocal.{KeptLocal};

    ghost Value = { List KeptLocal };

    ghost view = { λ k. k.items.items };
}

impl KeptLocals {
    /// The list that the vector holds.
    pub fn from_vec(items: Vec<KeptLocal>) -> Self
        ensures { result ≡ items.items }
    {
        KeptLocals { items }
    }

    /// The vector that holds the list.
    pub fn into_vec(self) -> Vec<KeptLocal>
        ensures { result.items ≡ self }
    {
        self.items
    }

    /// The list as a slice.
    pub fn as_slice(&self) -> &[KeptLocal]
        ensures { result.now ≡ self.now }
    {
        self.items.as_slice()
    }
}

impl Clone for KeptLocals {
    ghost is_clone = { λ a b. b ≡ a };

    fn clone(&self) -> Result<KeptLocals, AllocError> {
        Ok(KeptLocals {
            items: self.items.clone()?,
        })
    }
}
