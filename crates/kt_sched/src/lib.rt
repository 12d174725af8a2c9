//! Which thread takes the next turn: round robin, by a mixed number, or as a list says. And the generated job, which a run
//! of many turns needs no files for.
#![tactic(auto)]

mod choice;
mod flags;
mod generated;

pub use choice::Schedule;
pub use flags::{enabled_law, round_law};
pub use generated::{Generated, generate};
