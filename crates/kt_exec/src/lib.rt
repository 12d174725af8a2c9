//! What runs code: a private state is settled, and its acts are answered, in place; a stretch takes its ticks on a copy.
//!
//! The meaning stands in `kt_code`; here each instruction is carried out as that says. A state that fits meets none whose
//! place or operands are missing.
#![tactic(auto)]

mod calls;
mod entering;
mod execute;
mod heads;
mod jumps;
mod laws;
mod locals;
mod operations;
mod replies;
mod request_values;
mod requests;
mod settling;
mod stack;
mod ticks;
mod went;

pub use laws::rename_law;
pub use replies::answer;
pub use settling::settle;
pub use ticks::{Loan, stretch};
