//! The typing of C files: declarations, statements, functions, structs and globals, and the version of a whole file.
#![tactic(auto)]

mod assembly;
mod checking;
mod counted;
mod declarator;
mod extent;
mod field;
mod fields;
mod file;
mod frame;
mod function;
mod function_locals;
mod global;
mod initial;
mod local;
mod named;
mod outside;
mod part;
mod routine;
mod shape;
mod sofar;
mod statement;
mod structure;
mod table;
mod within;

pub use checking::check;
pub use kt_names::fault::CheckFault;
