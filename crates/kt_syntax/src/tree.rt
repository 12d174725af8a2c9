// The syntax tree of a C file. `static`, `const` and a `void` between the parentheses of parameters are not in it.

use kt_grammar::{Base, Expr, Name};
use kt_lex::Number;
use sqlite_items::{Boxed, Items};

/// One or more stars of a declarator, and the place of the first.
#[derive(Drop)]
pub struct Stars {
    pub at: u32,
    /// At least 1.
    pub count: usize,
}

/// What stands between the parentheses of `E_PTRARRAY`.
#[derive(Drop)]
pub enum Extent {
    Name(Name),
    /// A number and its place.
    Number(u32, Number),
}

/// The stars of a declarator, with `E_PTRARRAY` or without.
#[derive(Drop)]
pub struct Pointer {
    pub stars: Stars,
    pub extent: Option<Extent>,
}

/// A declarator of a field or global (ISO/IEC 9899:2011, 6.7.6).
#[derive(Drop)]
pub struct Declarator {
    pub pointer: Option<Pointer>,
    pub name: Name,
    /// The number in brackets.
    pub count: Option<Number>,
}

/// The written initial value of a global.
#[derive(Drop)]
pub enum Constant {
    Number(Number),
    Negative(Number),
    Character(u8),
    /// A string and its place.
    Text(u32, Items<u8>),
    Null,
    Eof,
    MutexInitializer,
}

/// A declarator of a global, with its initial value where one is written (6.7.9).
#[derive(Drop)]
pub struct GlobalDeclarator {
    pub declarator: Declarator,
    pub initial: Option<Constant>,
}

/// A declarator of a local.
#[derive(Drop)]
pub struct LocalDeclarator {
    pub pointer: Option<Pointer>,
    pub name: Name,
    pub initial: Option<Expr>,
}

/// A parameter (6.7.6.3).
#[derive(Drop)]
pub struct Parameter {
    pub base: Base,
    pub pointer: Option<Pointer>,
    pub name: Name,
}

/// Fields of one base, one or more (6.7.2.1).
#[derive(Drop)]
pub struct Fields {
    pub base: Base,
    pub declarators: Items<Declarator>,
}

/// Locals of one base, one or more.
#[derive(Drop)]
pub struct Locals {
    pub base: Base,
    pub declarators: Items<LocalDeclarator>,
}

/// What stands first between the parentheses of `for`.
#[derive(Drop)]
pub enum ForStart {
    Nothing,
    Locals(Locals),
    Expr(Expr),
}

/// A statement (6.8), or an entry of a block. The number is the place of the keyword.
#[derive(Drop)]
pub enum Stmt {
    /// A declaration of locals. It is an entry of a block alone.
    Locals(Locals),
    Block(Items<Stmt>),
    Empty,
    Expr(Expr),
    Return(u32, Option<Expr>),
    Break(u32),
    Continue(u32),
    If(Expr, Boxed<Stmt>),
    IfElse(Expr, Boxed<Stmt>, Boxed<Stmt>),
    While(Expr, Boxed<Stmt>),
    Do(Boxed<Stmt>, Expr),
    For(ForStart, Option<Expr>, Option<Expr>, Boxed<Stmt>),
}

/// The body of a function.
#[derive(Drop)]
pub struct Body {
    /// `E_NOTELOCALS` stands before it.
    pub noted: bool,
    pub entries: Items<Stmt>,
}

/// A function that is declared, or defined where it has a body (6.9.1).
#[derive(Drop)]
pub struct Function {
    /// None is `void`.
    pub result: Option<Base>,
    pub stars: Option<Stars>,
    pub name: Name,
    pub parameters: Items<Parameter>,
    pub body: Option<Body>,
}

/// An external declaration (6.9).
#[derive(Drop)]
pub enum Item {
    /// A struct that is mentioned, or defined where it has fields.
    Struct(Name, Option<Items<Fields>>),
    /// Globals of one base, one or more.
    Globals(Base, Items<GlobalDeclarator>),
    Function(Function),
}

/// A C file, and how many bytes it has.
#[derive(Drop)]
pub struct File {
    pub items: Items<Item>,
    pub length: u32,
}
