//! The machine: it runs the compiled versions of a job turn by turn, updates the program at its points, and tells what the
//! run has written and how it has ended. So far its one thread is `main`.
#![tactic(auto)]

mod acts;
mod allocate;
mod closing;
mod effects;
mod entry;
mod first_heap;
mod first_objects;
mod globals;
mod laws;
mod machine;
mod mutex;
mod outside;
mod print;
mod shared;
mod tried;
mod turns;

pub use turns::{Report, take_turns};
