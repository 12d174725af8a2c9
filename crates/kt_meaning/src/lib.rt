//! What a thread of a version does, step by step: the definitions stand in `specs/`, their laws in `laws`.
//!
//! Nothing here runs a program. The types hold a thread of the tree, so that the laws can speak of one.
#![tactic(auto)]

mod laws;
mod part;
mod thread;

pub use laws::{act_law, effect_law, entry_law, order_law, settle_law, worked_programs_law};
pub use part::{Part, Use, Waiting};
pub use thread::{Parts, TreeFrame, TreeFrames, TreeThread};
