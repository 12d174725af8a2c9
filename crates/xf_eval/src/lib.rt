//! Pre-values, run: what a new cell, argument or local is to hold, from a rule plan and the old version's heap.
//!
//! The definition stands in `xf_plan`. A body is run over its typed tree and the heap as they are: nothing is copied, and no
//! memory is taken.
#![tactic(auto)]

mod bodies;
mod cells;
mod code;
mod defaults;
mod faults;
mod fields;
mod found;
mod laws;
mod operands;
mod operations;
mod pre_values;
mod sources;
mod ways;

pub use faults::PreFault;
pub use laws::by_number_law;
pub use pre_values::{pre_argument, pre_cell, pre_global, pre_local};
