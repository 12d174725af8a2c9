//! A version beside its code, which does the version's acts: what the machine runs.
#![tactic(auto)]

mod compiled;

pub use compiled::{Compiled, compiled_law, entry_law};
