//! What stands before the body of a `for`.

use kt_tree::{Expr, Stmt};
use sqlite_items::Items;

/// The statements before the loop, its test, and what is evaluated after each body.
#[derive(Drop)]
pub struct Head {
    pub first: Items<Stmt>,
    pub test: Option<Expr>,
    pub step: Option<Expr>,
}
