//! Typing of expressions of C files and rule code, whole, by the definition of `kt_typing`: the walk over an expression, and
//! expressions where they stand in a statement.
#![tactic(auto)]

pub mod arguments;
pub mod called;
pub mod expression;
pub mod formed;
pub mod leaf;
pub mod part;
pub mod spelled;
pub mod statement;
