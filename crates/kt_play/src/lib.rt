//! Runs the program in the files that the words name on an input, updates it, and writes its output and the journal of its
//! turns.
#![tactic(auto)]

mod codes;
mod gather;
mod job;
mod journal;
mod order;
pub mod play;
mod prepare;
mod refusal;
mod refuse;
mod report;
mod run;
pub mod status;
mod text;
