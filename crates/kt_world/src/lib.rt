//! Worlds: what a run of a job is, turn by turn: threads, acts, the barrier of an update, updates, marks and ends.
//!
#![tactic(auto)]

mod job;
mod laws;
mod mark;

pub use job::{Job, Plans, Versions};
pub use laws::{calm_law, refusal_law, rows_law, schedule_law, shows_law, world_law};
pub use mark::{Closed, End, Mark};
