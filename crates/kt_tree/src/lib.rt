//! The typed tree of a version of a C program.
#![tactic(auto)]

mod copies;
mod expr;
mod forms;
mod function;
mod global;
mod lists;
mod names;
mod stmt;
mod version;

pub use expr::{Constant, Expr, Operation, Part, Request};
pub use function::Fun;
pub use global::{GlobalDecl, Init};
pub use lists::{Functions, Globals, Literals, Locals};
pub use stmt::Stmt;
pub use version::{Version, version_law};
