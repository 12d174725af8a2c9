//! The structs that a file mentions.

ghost use Rattle.std.specs.Prelude.{◌≡◌, true, [], ◌∷◌, ◌++◌, ◌<◌, ◌^◌, map, flat_map, length, OnOk, IfOk};
ghost use Rattle.std.specs.List.{list_all};
ghost use Rattle.kt_tree.specs.Names.{is_identifier};
ghost use Rattle.kt_syntax.specs.Tree.{external_of};
ghost use Rattle.kt_names.specs.Gathered.{use_of, uses_in};
ghost use Rattle.kt_names.specs.Types.{with_name, with_names};
ghost use Rattle.kt_names.specs.Uses.{base_structs, use_structs, declared_structs, body_structs, structs_of};
ghost use Rattle.kt_names.specs.Tables.{struct_names};

use crate::uses::{Use, Uses};
use indexmap::IndexSet;
use kt_grammar::{Base, Word};
use kt_syntax::{Fields, Item};
use sqlite_items::Items;
use std::alloc::{AllocError, Global};
use std::marker::Model;

/// Names of structs, each as often as a text mentions it.
#[derive(Drop)]
pub(crate) struct Mentions<'f> {
    names: Vec<&'f [u8]>,
}

impl<'f> Model for Mentions<'f> {
    ghost use Rattle.std.specs.Prelude.{◌≡◌, true, List, ℕ, map};
    ghost use Rattle.std.specs.List.{list_all};
    ghost use Rattle.kt_tree.specs.Names.{is_identifier};

    ghost Value = { List (List ℕ) };

    ghost view = { λ m. map (λ n. n.now) m.names.items };

    ghost invariant = { λ m. list_all is_identifier (map (λ n. n.now) m.names.items) ≡ true };
}

impl<'f> Mentions<'f> {
    /// No names.
    pub(crate) fn new(alloc: Global) -> Mentions<'f>
        ensures { result ≡ [] }
    {
        Mentions {
            names: Vec::new(alloc),
        }
    }

    /// The names, in order.
    pub(crate) fn as_slice(&self) -> &[&'f [u8]]
        ensures names { map (λ n. n.now) result.now ≡ self.now }
        ensures identifiers { list_all is_identifier self.now ≡ true }
    {
        self.names.as_slice()
    }

    /// One name more.
    fn push(&mut self, word: &'f Word) -> Result<(), AllocError>
        ensures { OnOk result (self.new ≡ self.old ++ word.now ∷ []) }
    {
        self.names.push(word.as_bytes())?;
        Ok(())
    }

    fn push_base(&mut self, base: &'f Base) -> Result<(), AllocError>
        ensures { OnOk result (self.new ≡ self.old ++ base_structs base.now) }
    {
        match base {
            Base::Char => Ok(()),
            Base::Int => Ok(()),
            Base::Long => Ok(()),
            Base::Mutex => Ok(()),
            Base::Struct(name) => self.push(&name.word),
        }
    }

    fn push_use(&mut self, named: Use<'f>) -> Result<(), AllocError>
        ensures { OnOk result (self.new ≡ self.old ++ use_structs (use_of named.entry)) }
    {
        match named {
            Use::Text => Ok(()),
            Use::Starred(base, _) => self.push_base(base),
            Use::Arrayed(base, _, _) => self.push_base(base),
        }
    }

    fn push_uses(&mut self, uses: &[Use<'f>]) -> Result<(), AllocError>
        ensures { OnOk result (self.new ≡ self.old ++ flat_map use_structs (uses_in uses.now)) }
    {
        for named in uses {
            self.push_use(*named)?;
        }
        Ok(())
    }

    fn push_fields(&mut self, fields: &'f Items<Fields>) -> Result<(), AllocError>
        ensures { OnOk result (self.new ≡ self.old ++ flat_map (λ f. base_structs f.base) fields.now) }
    {
        for fields in fields.as_slice() {
            self.push_base(&fields.base)?;
        }
        Ok(())
    }

    /// The structs that a declaration mentions more, a function's body apart.
    fn push_declared(&mut self, alloc: Global, item: &'f Item) -> Result<(), AllocError>
        ensures { OnOk result (self.new ≡ self.old ++ declared_structs (external_of item.now)) }
    {
        match item {
            Item::Struct(name, None) => self.push(&name.word),
            Item::Struct(name, Some(fields)) => {
                self.push(&name.word)?;
                self.push_fields(fields)
            }
            Item::Globals(base, _) => self.push_base(base),
            Item::Function(function) => {
                let mut uses = Uses::new(alloc);
                uses.push_head_of(function)?;
                self.push_uses(uses.as_slice())
            }
        }
    }

    /// The structs that a function's body mentions more.
    fn push_body(&mut self, alloc: Global, item: &'f Item) -> Result<(), AllocError>
        ensures { OnOk result (self.new ≡ self.old ++ body_structs (external_of item.now)) }
    {
        match item {
            Item::Struct(_, None) => Ok(()),
            Item::Struct(_, Some(_)) => Ok(()),
            Item::Globals(_, _) => Ok(()),
            Item::Function(function) => {
                let mut uses = Uses::new(alloc);
                uses.push_body_of(function)?;
                self.push_uses(uses.as_slice())
            }
        }
    }

    fn push_all_declared(&mut self, alloc: Global, items: &'f [Item]) -> Result<(), AllocError>
        ensures { OnOk result (self.new ≡ self.old ++ flat_map declared_structs (map external_of items.now)) }
    {
        for item in items {
            self.push_declared(alloc, item)?;
        }
        Ok(())
    }

    fn push_all_bodies(&mut self, alloc: Global, items: &'f [Item]) -> Result<(), AllocError>
        ensures { OnOk result (self.new ≡ self.old ++ flat_map body_structs (map external_of items.now)) }
    {
        for item in items {
            self.push_body(alloc, item)?;
        }
        Ok(())
    }

    /// All structs that a file mentions, each as often as it does.
    pub(crate) fn of(alloc: Global, items: &'f [Item]) -> Result<Mentions<'f>, AllocError>
        ensures { IfOk result (λ mentions. mentions ≡ structs_of (map external_of items.now)) }
    {
        let mut mentions = Mentions::new(alloc);
        mentions.push_all_declared(alloc, items)?;
        mentions.push_all_bodies(alloc, items)?;
        Ok(mentions)
    }
}

/// Adds a name behind the others, where it isn't among them.
fn add_name(names: &mut IndexSet<Vec<u8>>, alloc: Global, name: &[u8]) -> Result<(), AllocError>
    ensures { OnOk result (map (λ n. n.items) names.new.keys ≡ with_name (map (λ n. n.items) names.old.keys) name.now) }
{
    let name = Vec::from_slice(alloc, name)?;
    names.insert(name)?;
    Ok(())
}

/// Adds names behind the others, each where it isn't among them.
pub(crate) fn add_names(
    names: &mut IndexSet<Vec<u8>>,
    alloc: Global,
    more: &[&[u8]],
) -> Result<(), AllocError>
    ensures { OnOk result (map (λ n. n.items) names.new.keys ≡ with_names (map (λ n. n.items) names.old.keys) (map (λ n. n.now) more.now)) }
{
    for name in more {
        add_name(names, alloc, name)?;
    }
    Ok(())
}

/// The names of the structs of a file, each once.
pub(crate) fn struct_names(alloc: Global, items: &[Item]) -> Result<IndexSet<Vec<u8>>, AllocError>
    ensures names { IfOk result (λ s. map (λ n. n.items) s.keys ≡ struct_names (map external_of items.now)) }
    ensures identifiers { IfOk result (λ s. list_all is_identifier (map (λ n. n.items) s.keys) ≡ true) }
    ensures few { IfOk result (λ s. length s.keys < 2 ^ 32) }
{
    let mentions = Mentions::of(alloc, items)?;
    let mut names = IndexSet::new(alloc);
    add_names(&mut names, alloc, mentions.as_slice())?;
    if names.len() > u32::MAX as usize {
        return Err(AllocError);
    }
    Ok(names)
}
