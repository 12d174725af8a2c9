//! A struct that is being defined.

use indexmap::IndexMap;
use kt_grammar::Base;
use kt_names::info::FieldInfo;
use kt_syntax::Declarator;
use kt_types::FieldDecl;

/// A field with the base of its declaration.
#[derive(Clone, Copy)]
pub(crate) struct OneField<'f> {
    pub base: &'f Base,
    pub declarator: &'f Declarator,
}

/// The fields of a struct, and the places of those that may count others, by their names.
#[derive(Clone, Copy)]
pub(crate) struct Shape<'s> {
    pub fields: &'s [OneField<'s>],
    pub counts: &'s IndexMap<Vec<u8>, u32>,
}

/// The fields of a struct so far: by their names, as the version has them, and how many cells they have.
#[derive(Drop)]
pub(crate) struct Within {
    pub infos: IndexMap<Vec<u8>, FieldInfo>,
    pub decls: Vec<FieldDecl>,
    pub cells: u32,
}
