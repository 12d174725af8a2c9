//! The plan that a rule file gives for two versions of a program: what is judged of rules, the file's faults, and where each new
//! thing has its value.
#![tactic(auto)]

mod laws;

pub use laws::{judgment_law, plan_law, rows_law};
