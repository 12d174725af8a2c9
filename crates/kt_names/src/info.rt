//! What a file declares: its structs, its globals and functions, and the names that are in scope.

ghost use Rattle.std.specs.Prelude.{◌<◌, ◌≤◌, ◌^◌, length};
ghost use Rattle.std.proofs.Props.{props};
ghost use Rattle.kt_names.specs.Firsts.{AreFirst};

use crate::ctype::CType;
use crate::in_scope::InScope;
use indexmap::IndexMap;
use kt_grammar::Base;
use kt_syntax::Pointer;

/// What a field is: its type, of an array that of its elements.
#[derive(Clone, Copy)]
pub struct FieldInfo {
    pub ty: CType,
    pub array: bool,
}

/// A struct that is defined: its fields by their names, and how many cells it has.
#[derive(Drop)]
pub struct StructInfo {
    pub fields: IndexMap<Vec<u8>, FieldInfo>,
    pub cells: u32,
    ghost few: { length fields.entries < 2 ^ 32 },
}

/// A field that was found by its name, with its number.
#[derive(Clone, Copy)]
pub struct FoundField {
    pub index: u32,
    pub ty: CType,
    pub array: bool,
}

/// A function as it is declared first, and its number where it is defined.
#[derive(Drop)]
pub struct Signature {
    pub parameters: Vec<CType>,
    pub result: Option<CType>,
    pub number: Option<u32>,
}

/// What a name of the whole file stands for.
#[derive(Drop)]
pub enum Outer {
    /// A global: its number, its type (of an array that of its elements), and whether it is an array.
    Global(u32, CType, bool),
    Function(Signature),
}

/// A name that is in scope, the number of its local, and the place of the one of the same name that it hides.
#[derive(Drop)]
pub struct Visible {
    pub name: Vec<u8>,
    pub local: u32,
    pub hides: Option<usize>,
}

/// A local of a function, as it is declared.
#[derive(Clone, Copy)]
pub struct LocalInfo<'f> {
    pub name: &'f [u8],
    pub ty: CType,
    pub base: &'f Base,
    pub pointer: &'f Option<Pointer>,
}

/// What the body of a function needs of the function: its locals and their types, in the order of their declarations, the
/// place of the first local of each name, its result, and whether it has `E_NOTELOCALS`.
#[derive(Drop)]
pub struct FunctionInfo<'f> {
    pub locals: Vec<LocalInfo<'f>>,
    pub types: Vec<CType>,
    pub first: IndexMap<Vec<u8>, usize>,
    pub result: Option<CType>,
    pub noted: bool,
    ghost places: { AreFirst first.entries locals.items } by { Prim.hlevel props },
}

/// The names in scope, the innermost last; where those of the innermost scope begin; and how many locals were declared.
#[derive(Drop)]
pub struct Scopes {
    pub visible: InScope,
    pub start: usize,
    pub next: u32,
    ghost within: { start ≤ length visible },
}
