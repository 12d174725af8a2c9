//! Which versions run so far.
#![tactic(auto)]

mod asks;
mod stage;

pub use stage::{runs_alone, runs_updated};
