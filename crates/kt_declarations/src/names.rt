//! Names that were met.

ghost use Rattle.std.specs.Prelude.{◌≡◌, [], ◌∷◌, not, IfOk, OnOk, OnErr};
ghost use Rattle.kt_program.specs.Scopes.{contains};
ghost use Rattle.kt_declarations.specs.Met.{SameNames};

use indexmap::IndexSet;
use std::alloc::{AllocError, Global};
use std::marker::Model;

/// Names, each once.
#[derive(Drop)]
pub struct Names {
    set: IndexSet<Vec<u8>>,
}

impl Model for Names {
    ghost use Rattle.std.specs.Prelude.{ℕ, List, map};

    ghost Value = { List (List ℕ) };

    ghost view = { λ a. map (λ k. k.items) a.set.keys };
}

impl Names {
    /// No names.
    pub fn new(alloc: Global) -> Names
        ensures { result ≡ [] }
    {
        Names {
            set: IndexSet::new(alloc),
        }
    }

    /// Whether the name is one of them.
    pub fn has(&self, name: &[u8]) -> bool
        ensures { result ≡ contains self.now name.now }
    {
        self.set.contains(name)
    }

    /// Adds a name, and tells whether it is new.
    pub fn add(&mut self, alloc: Global, name: &[u8]) -> Result<bool, AllocError>
        ensures is_new { IfOk result (λ new. new ≡ not (contains self.old name.now)) }
        ensures ok { OnOk result (SameNames self.new (name.now ∷ self.old)) }
        ensures err { OnErr result (self.new ≡ self.old) }
    {
        let name = Vec::from_slice(alloc, name)?;
        let (_, is_new) = self.set.insert_full(name)?;
        Ok(is_new)
    }
}
