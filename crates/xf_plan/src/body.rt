//! The bodies of rules: what they assign to `$out`.

use kt_tree::Expr;
use sqlite_items::{Boxed, Items};

/// What is assigned. Expressions are those of the old version's typed trees; in them local 0 is `$in`, or a pointer to it
/// where it is a place in memory, and local 1 is a pointer to `$base`.
#[derive(Drop)]
pub enum Given {
    /// A number, which is converted to the type of the target.
    Number(Boxed<Expr>),
    Null,
    /// `$xform(e)`: what becomes of an old pointer.
    Transformed(Boxed<Expr>),
    /// `$new(T, n)`: a pointer to a new object, by its element type, a place of the new version's table, and its count.
    New(u32, u32),
    Chosen(Boxed<Expr>, Boxed<Given>, Boxed<Given>),
}

/// What a body does.
#[derive(Drop)]
pub enum Action {
    Assigned(Boxed<Given>),
    Conditional(Boxed<Expr>, Boxed<Action>, Boxed<Action>),
    Compound(Items<Action>),
}
