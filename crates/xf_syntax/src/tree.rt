// The syntax tree of a rule file.

use kt_grammar::{Expr, Name};
use sqlite_items::{Boxed, Items};

/// `struct` and a name, and the place of `struct`.
#[derive(Drop)]
pub struct StructName {
    pub at: u32,
    pub name: Name,
}

/// A global or a field.
#[derive(Drop)]
pub enum Target {
    /// `g`
    Global(Name),
    /// `struct s.f`
    Field(StructName, Name),
}

/// What stands on one side of an arrow.
#[derive(Drop)]
pub enum Side {
    Target(Target),
    /// `f::x`: a local or parameter of a function.
    Local(Name, Name),
}

/// An act of a rule's body.
#[derive(Drop)]
pub enum Act {
    Block(Items<Act>),
    Empty,
    /// `left = value;`
    Assign(Expr, Expr),
    If(Expr, Boxed<Act>),
    IfElse(Expr, Boxed<Act>, Boxed<Act>),
}

/// The body of a rule. Its tokens are those from its opening brace to its closing one.
#[derive(Drop)]
pub struct Body {
    /// The place of the opening brace.
    pub first: u32,
    /// The place of the closing brace.
    pub last: u32,
    pub acts: Items<Act>,
}

/// A rule.
#[derive(Drop)]
pub enum RuleItem {
    /// `struct old -> struct new;`
    Structs(StructName, StructName),
    /// `INIT target;`, or with a body.
    Initial(Target, Option<Body>),
    /// `old -> new;`, or with a body.
    Move(Side, Side, Option<Body>),
}

/// A rule file, and how many bytes it has.
#[derive(Drop)]
pub struct RuleFile {
    pub rules: Items<RuleItem>,
    pub length: u32,
}
