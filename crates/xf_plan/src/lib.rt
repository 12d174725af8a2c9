//! Rule plans: from where each new cell, global and noted local has its value after an update; what its value is before
//! objects are moved; which objects are reached, what is wrong at a place, and the images.
//!
//! Definitions stand here, their laws, and the types of plans and of faults.
#![tactic(auto)]

mod body;
mod converts;
mod laws;
mod place;
mod plan;
mod value;

pub use body::{Action, Given};
pub use laws::{reached_law, rows_law};
pub use place::{Fault, Place, Root, Why};
pub use plan::{
    FieldRule, FieldRules, FieldSource, GlobalRule, GlobalRules, GlobalSource, LocalRule,
    LocalRules, LocalSource, RulePlan, StructPairs,
};
pub use value::PreValue;
