//! Calls of a file's functions and built-in calls, by the definition of `kt_typing`, on arguments that were judged.
#![tactic(auto)]

pub mod allocation;
pub mod argument;
pub mod asking;
pub mod builtin;
pub mod call;
pub mod format;
pub mod function;
pub mod point;
pub mod printing;
pub mod rule;
pub mod thread;
pub mod values;
