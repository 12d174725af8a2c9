//! Typing of expressions of C files and rule code, by the definition of `kt_typing`: the rule of each operator on operands that
//! have types, and operators whose parts may be faulty.
#![tactic(auto)]

pub mod arithmetic;
pub mod assign;
pub mod beside;
pub mod choice;
pub mod constant;
pub mod first;
pub mod forms;
pub mod operator;
pub mod part;
pub mod place;
pub mod unary;
