//! Names with their places.
ghost use Rattle.std.specs.Prelude.{◌≡◌, [], ◌∷◌, ◌++◌, ◌<◌, length, false, OnOk, IfOk, IfSome, map};
ghost use Rattle.kt_tree.specs.Names.{is_one_of, place_of};
ghost use Rattle.kt_tree.specs.Version.{AreDistinct};

use super::function::Fun;
use super::global::GlobalDecl;
use indexmap::IndexSet;
use kt_types::Text;
use std::alloc::{AllocError, Global};
use std::marker::Model;

/// A list of names, fewer than 4,294,967,296, of which none stands twice, that finds the place of a name.
#[derive(Drop)]
pub struct Names {
    set: IndexSet<Vec<u8>>,
}

impl Model for Names {
    ghost use Rattle.std.specs.Prelude.{List, ℕ, ◌<◌, map, length};

    ghost Value = { List (List ℕ) };

    ghost view = { λ n. map (λ name. name.items) n.set.keys };

    ghost invariant = { λ n. length n.set.keys < 4294967296 };
}

impl Names {
    /// No names.
    pub fn new(alloc: Global) -> Names
        ensures { result ≡ [] }
    {
        Names {
            set: IndexSet::new(alloc),
        }
    }

    /// Adds a name behind the others.
    pub fn push(&mut self, alloc: Global, name: &[u8]) -> Result<(), AllocError>
        requires new { is_one_of name.now self.old ≡ false }
        requires room { length self.old < 4294967295 }
        ensures { OnOk result (self.new ≡ self.old ++ name.now ∷ []) }
    {
        let name = Vec::from_slice(alloc, name)?;
        self.set.insert(name)?;
        Ok(())
    }

    /// The place of the name.
    pub fn find(&self, name: &[u8]) -> Option<u32>
        ensures place { result ≡ place_of name.now self.now }
        ensures within { IfSome result (λ place. place < length self.now) }
    {
        match self.set.get_index_of(name) {
            Some(place) => Some(place as u32),
            None => None,
        }
    }
}

/// The names of the globals, none of which has another's name.
pub fn names_of_globals(alloc: Global, globals: &[GlobalDecl]) -> Result<Names, AllocError>
    requires distinct { AreDistinct (map (λ g. g.name) globals.now) }
    requires few { length globals.now < 4294967296 }
    ensures { IfOk result (λ names. names ≡ map (λ g. g.name) globals.now) }
{
    let mut names = Names::new(alloc);
    for global in globals {
        names.push(alloc, global.name.as_bytes())?;
    }
    Ok(names)
}

/// The names of the functions, none of which has another's name.
pub fn names_of_functions(alloc: Global, functions: &[Fun]) -> Result<Names, AllocError>
    requires distinct { AreDistinct (map (λ f. f.name) functions.now) }
    requires few { length functions.now < 4294967296 }
    ensures { IfOk result (λ names. names ≡ map (λ f. f.name) functions.now) }
{
    let mut names = Names::new(alloc);
    for function in functions {
        names.push(alloc, function.name.as_bytes())?;
    }
    Ok(names)
}

/// These names, none of which stands twice.
pub fn names_of(alloc: Global, texts: &[Text]) -> Result<Names, AllocError>
    requires distinct { AreDistinct texts.now }
    requires few { length texts.now < 4294967296 }
    ensures { IfOk result (λ names. names ≡ texts.now) }
{
    let mut names = Names::new(alloc);
    for text in texts {
        names.push(alloc, text.as_bytes())?;
    }
    Ok(names)
}
