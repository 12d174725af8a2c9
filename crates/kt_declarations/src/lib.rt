//! What is judged of a file's external declarations, by the judgments of `kt_program`: structs, globals and the heads of functions.
#![tactic(auto)]

pub mod base;
mod cells;
pub mod constant;
pub mod declarator;
pub mod define;
pub mod field;
pub mod first;
pub mod functions;
pub mod global_decl;
pub mod globals;
mod head;
pub mod initial;
mod laws;
pub mod main_function;
pub mod names;
pub mod structs;
pub mod view;

pub use laws::{globals_law, heads_law, structs_law};
