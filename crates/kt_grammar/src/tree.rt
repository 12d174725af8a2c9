use super::keyword::RuleWord;
use super::operator::{AssignOperator, BinaryOperator, PrefixOperator, StepOperator};
use super::word::Word;
use kt_lex::Number;
use sqlite_items::{Boxed, Items};

/// An identifier where it stands.
#[derive(Drop)]
pub struct Name {
    pub at: u32,
    pub word: Word,
}

/// A type without stars and brackets.
#[derive(Drop)]
pub enum Base {
    Char,
    Int,
    Long,
    Mutex,
    Struct(Name),
}

/// A type name in a cast or `sizeof`: a base and how many stars follow.
#[derive(Drop)]
pub struct TypeName {
    pub base: Base,
    pub stars: usize,
}

/// What stands between the parentheses of `$new`: a type, a number and the number's place.
#[derive(Drop)]
pub struct Fresh {
    pub type_name: TypeName,
    pub at: u32,
    pub count: Number,
}

/// An expression (ISO/IEC 9899:2011, 6.5). The number is the place of its first token, where no part of it begins there.
#[derive(Drop)]
pub enum Expr {
    Number(u32, Number),
    Character(u32, u8),
    Text(u32, Items<u8>),
    Null(u32),
    Eof(u32),
    Name(Name),
    Call(Name, Items<Expr>),
    Paren(u32, Boxed<Expr>),
    SizeOf(u32, TypeName),
    /// `$in`, `$out` or `$base`.
    Rule(u32, RuleWord),
    OldSymbol(u32, Name),
    Transform(u32, Boxed<Expr>),
    New(u32, Fresh),
    Index(Boxed<Expr>, Boxed<Expr>),
    Field(Boxed<Expr>, Name),
    Arrow(Boxed<Expr>, Name),
    Step(Boxed<Expr>, StepOperator),
    Prefix(u32, PrefixOperator, Boxed<Expr>),
    Cast(u32, TypeName, Boxed<Expr>),
    Binary(BinaryOperator, Boxed<Expr>, Boxed<Expr>),
    Choice(Boxed<Expr>, Boxed<Expr>, Boxed<Expr>),
    Assign(AssignOperator, Boxed<Expr>, Boxed<Expr>),
}
