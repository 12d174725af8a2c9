//! Small list types of a version. Each stands over a vector, is seen as a list, is made from a vector and gives it back,
//! without memory.
ghost use Rattle.std.specs.Prelude.{◌≡◌};

use super::function::Fun;
use super::global::GlobalDecl;
use kt_types::{FieldDecl, Text};
use std::alloc::{AllocError, Global};
use std::marker::Model;

/// The globals of a version, in the order of the file.
#[derive(Drop)]
pub struct Globals {
    items: Vec<GlobalDecl>,
}

impl Model for Globals {
    ghost use Rattle.std.specs.Prelude.{List};
    ghost use Rattle.kt_tree.specs.declared.global.GlobalDecl.{GlobalDecl};

    ghost Value = { List GlobalDecl };

    ghost view = { λ g. g.items.items };
}

impl Globals {
    /// The list of these globals.
    pub fn from_vec(items: Vec<GlobalDecl>) -> Globals
        ensures { result ≡ items.items }
    {
        Globals { items }
    }

    /// The globals, as the vector that holds them.
    pub fn into_vec(self) -> Vec<GlobalDecl>
        ensures { result.items ≡ self }
    {
        self.items
    }

    /// The globals.
    pub fn as_slice(&self) -> &[GlobalDecl]
        ensures { result.now ≡ self.now }
    {
        self.items.as_slice()
    }

    // What the list was allocated by.
    pub(crate) fn allocator(&self) -> Global {
        *self.items.allocator()
    }
}

impl Clone for Globals {
    ghost is_clone = { λ a b. b ≡ a };

    fn clone(&self) -> Result<Globals, AllocError> {
        Ok(Globals {
            items: self.items.clone()?,
        })
    }
}

/// The strings of a version, each without the zero at its end.
#[derive(Drop)]
pub struct Literals {
    items: Vec<Text>,
}

impl Model for Literals {
    ghost use Rattle.std.specs.Prelude.{List, ℕ};

    ghost Value = { List (List ℕ) };

    ghost view = { λ l. l.items.items };
}

impl Literals {
    /// The list of these strings.
    pub fn from_vec(items: Vec<Text>) -> Literals
        ensures { result ≡ items.items }
    {
        Literals { items }
    }

    /// The strings, as the vector that holds them.
    pub fn into_vec(self) -> Vec<Text>
        ensures { result.items ≡ self }
    {
        self.items
    }

    /// The strings.
    pub fn as_slice(&self) -> &[Text]
        ensures { result.now ≡ self.now }
    {
        self.items.as_slice()
    }
}

impl Clone for Literals {
    ghost is_clone = { λ a b. b ≡ a };

    fn clone(&self) -> Result<Literals, AllocError> {
        Ok(Literals {
            items: self.items.clone()?,
        })
    }
}

/// The locals of a function: its parameters, and then the rest in the order of declaration.
#[derive(Drop)]
pub struct Locals {
    items: Vec<FieldDecl>,
}

impl Model for Locals {
    ghost use Rattle.std.specs.Prelude.{List};
    ghost use Rattle.kt_types.specs.declared.kinds.FieldDecl.{FieldDecl};

    ghost Value = { List FieldDecl };

    ghost view = { λ l. l.items.items };
}

impl Locals {
    /// The list of these locals.
    pub fn from_vec(items: Vec<FieldDecl>) -> Locals
        ensures { result ≡ items.items }
    {
        Locals { items }
    }

    /// The locals, as the vector that holds them.
    pub fn into_vec(self) -> Vec<FieldDecl>
        ensures { result.items ≡ self }
    {
        self.items
    }

    /// The locals.
    pub fn as_slice(&self) -> &[FieldDecl]
        ensures { result.now ≡ self.now }
    {
        self.items.as_slice()
    }
}

impl Clone for Locals {
    ghost is_clone = { λ a b. b ≡ a };

    fn clone(&self) -> Result<Locals, AllocError> {
        Ok(Locals {
            items: self.items.clone()?,
        })
    }
}

/// The defined functions of a version, in the order of their definitions.
#[derive(Drop)]
pub struct Functions {
    items: Vec<Fun>,
}

impl Model for Functions {
    ghost use Rattle.std.specs.Prelude.{List};
    ghost use Rattle.std.specs.Coded.{coded_list};
    ghost use Rattle.kt_tree.specs.declared.function.Fun.{Fun};
    ghost use Rattle.kt_tree.specs.contracts.function.Fun as fun;

    ghost Value = { List Fun };

    ghost coded = { coded_list fun.the_row.coded };

    ghost view = { λ f. f.items.items };
}

impl Functions {
    /// The list of these functions.
    pub fn from_vec(items: Vec<Fun>) -> Functions
        ensures { result ≡ items.items }
    {
        Functions { items }
    }

    /// The functions, as the vector that holds them.
    pub fn into_vec(self) -> Vec<Fun>
        ensures { result.items ≡ self }
    {
        self.items
    }

    /// The functions.
    pub fn as_slice(&self) -> &[Fun]
        ensures { result.now ≡ self.now }
    {
        self.items.as_slice()
    }
}
