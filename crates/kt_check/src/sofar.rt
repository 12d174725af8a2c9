//! What was declared so far in a file.

ghost use Rattle.std.specs.Prelude.{◌≡◌, ℕ, List, ◌||◌};
ghost use Rattle.kt_check.specs.Files.{nothing_yet, has_global, has_routine};
ghost use Rattle.kt_check.specs.Stages.{sofar_of, head_named, Keeps};

use indexmap::{IndexMap, IndexSet};
use kt_names::info::StructInfo;
use kt_syntax::Function;
use kt_tree::{Fun, GlobalDecl};
use kt_types::FieldDecl;
use std::alloc::Global;

/// The definition of a struct, as the version has it.
#[derive(Drop)]
pub(crate) struct Defined {
    pub number: u32,
    pub fields: Vec<FieldDecl>,
}

/// A function as it is declared first, and whether it is defined.
#[derive(Clone, Copy)]
pub(crate) struct Head<'f> {
    pub first: &'f Function,
    pub defined: bool,
}

/// What was declared so far.
#[derive(Drop)]
pub(crate) struct Sofar<'f> {
    /// The structs that are defined, by their numbers.
    pub structs: IndexMap<u32, StructInfo>,
    pub defined: Vec<Defined>,
    pub globals: Vec<GlobalDecl>,
    pub global_names: IndexSet<Vec<u8>>,
    /// The cells of all these globals.
    pub cells: u32,
    /// The functions that were declared, each time.
    pub routines: Vec<&'f Function>,
    pub heads: IndexMap<Vec<u8>, Head<'f>>,
    pub functions: Vec<Fun>,
}

/// One of the two holds.
fn either(a: bool, b: bool) -> bool
    ensures { result ≡ (a || b) }
{
    a || b
}

impl<'f> Sofar<'f> {
    /// Nothing was declared yet.
    pub(crate) fn new(alloc: Global) -> Sofar<'f>
        ensures nothing { sofar_of result ≡ nothing_yet }
        ensures keeps { (names : List (List ℕ)) → Keeps names result }
    {
        Sofar {
            structs: IndexMap::new(alloc),
            defined: Vec::new(alloc),
            globals: Vec::new(alloc),
            global_names: IndexSet::new(alloc),
            cells: 0,
            routines: Vec::new(alloc),
            heads: IndexMap::new(alloc),
            functions: Vec::new(alloc),
        }
    }

    /// Whether a global has the name.
    pub(crate) fn has_global(&self, name: &[u8]) -> bool
        ensures { (names : List (List ℕ)) → Keeps names self.now → result ≡ has_global (sofar_of self.now) name.now }
    {
        self.global_names.contains(name)
    }

    /// The function of the name, as it is declared first.
    pub(crate) fn head(&self, name: &[u8]) -> Option<Head<'f>>
        ensures { result ≡ head_named self.now name.now }
    {
        self.heads.get(name).copied()
    }

    /// Whether a global or function has the name.
    pub(crate) fn has_name(&self, name: &[u8]) -> bool
        ensures { (names : List (List ℕ)) → Keeps names self.now → result ≡ (has_global (sofar_of self.now) name.now || has_routine (sofar_of self.now) name.now) }
    {
        either(self.has_global(name), self.head(name).is_some())
    }
}
