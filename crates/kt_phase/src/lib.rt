//! The barrier of an update: the phase of a run, and counters of the threads that live, are parked at their points, and
//! are on their way to their points after an update. They tell when a closing is due and when an update is over, without
//! a look at the threads.
#![tactic(auto)]

mod barrier;
mod counters;

pub use barrier::{barrier_law, counters_law};
pub use counters::{Phase, Phases};
