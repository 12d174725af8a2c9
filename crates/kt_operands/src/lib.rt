//! Operands of expressions: what an expression is typed in, the values and conversions of operands, and which operands
//! operations and requests take.
#![tactic(auto)]

pub mod convert;
pub mod environment;
pub mod given;
pub mod meaning;
pub mod operand;
mod operations;
pub mod refusal;
mod requests;
pub mod tree;
pub mod types;
