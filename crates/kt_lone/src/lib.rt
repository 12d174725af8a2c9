//! What a job is, and its worlds, as they run so far: one thread, turns, updates, marks and ends. Those of many threads are
//! `kt_world`, on which nothing runs yet.
#![tactic(auto)]

pub mod job;
pub mod laws;
pub mod mark;
