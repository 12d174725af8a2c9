//! The compiler: from a version to code that does the version's acts. Which instructions it takes for what is its own
//! affair: that stands in `specs/`, for the proof that they do, and no clause of `compile` names it.
#![tactic(auto)]

mod compiler;
mod emit;
mod functions;
mod laws;
mod parts;

pub use compiler::compile;
