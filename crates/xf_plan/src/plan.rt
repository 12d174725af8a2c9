//! Rule plans.

use crate::body::Action;
use kt_tree::Init;
use kt_types::{TypeTable, View};
use sqlite_items::Items;

/// From where a field has its value.
#[derive(Drop)]
pub enum FieldSource {
    /// The old field of that number, by the default conversion.
    OldField(u32),
    /// Zero, null or free.
    ZeroField,
    /// A body, where `$in` is the old field of that number, if any.
    FieldBody(Option<u32>, Items<Action>),
}

/// A field of a new struct that corresponds to an old one.
#[derive(Drop)]
pub struct FieldRule {
    /// The number of the new struct.
    pub of: u32,
    /// The field's type, a place of the new version's table.
    pub ty: u32,
    pub view: View,
    pub source: FieldSource,
}

/// From where a global has its value.
#[derive(Drop)]
pub enum GlobalSource {
    /// It has its initial value.
    Unmapped,
    /// The old global of that number, whose element type and count these are, by the default conversion.
    OldGlobal(u32, u32, u32),
    /// A body, where `$in` is the old global of that number, if any.
    GlobalBody(Option<u32>, Items<Action>),
}

/// A global of the new version: its element type, its count, how much it points to, its initial value.
#[derive(Drop)]
pub struct GlobalRule {
    pub ty: u32,
    pub count: u32,
    pub view: View,
    pub init: Init,
    pub source: GlobalSource,
}

/// The old function and local from which a noted local has its value, and the body by which it has it, if any.
#[derive(Drop)]
pub struct LocalSource {
    pub function: u32,
    pub local: u32,
    pub body: Option<Items<Action>>,
}

/// A noted local of the new version; without a source it isn't kept.
#[derive(Drop)]
pub struct LocalRule {
    pub function: u32,
    pub local: u32,
    pub ty: u32,
    pub view: View,
    pub source: Option<LocalSource>,
}

/// Old and new structs that correspond, by their numbers.
pub type StructPairs = Items<(u32, u32)>;

/// One rule for each global of the new version.
pub type GlobalRules = Items<GlobalRule>;

/// One rule for each field of a new struct that corresponds to an old one, in the order of the declarations.
pub type FieldRules = Items<FieldRule>;

/// One rule for each noted local of the new version.
pub type LocalRules = Items<LocalRule>;

/// For two versions of a program, from where each new thing has its value: the types of the old version and of the new
/// one, which structs correspond, and the rules.
#[derive(Drop)]
pub struct RulePlan {
    pub old: TypeTable,
    pub new: TypeTable,
    pub structs: StructPairs,
    pub globals: GlobalRules,
    pub fields: FieldRules,
    pub locals: LocalRules,
}
