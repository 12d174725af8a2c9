//! What the names of a C file stand for: its types, structs, globals, functions, literals and points, the scopes of locals,
//! and operands, which is what an expression is to the one around it.
#![tactic(auto)]

pub mod arithmetic;
pub mod body;
pub mod builtin;
pub mod ctype;
pub mod environment;
pub mod fault;
pub mod format;
pub mod head;
pub mod in_scope;
pub mod info;
pub mod judged;
mod listing;
mod literals;
mod mentions;
pub mod node;
mod noting;
pub mod operand;
mod outer;
pub mod pair;
mod placing;
pub mod points;
pub mod put;
mod scopes;
pub mod tables;
pub mod types;
pub mod uses;
mod written;
