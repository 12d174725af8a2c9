//! The typing of expressions: names and places, the rules of operators, casts and calls.
#![tactic(auto)]

mod applied;
mod argument;
mod assign;
mod call;
mod called;
mod cast;
mod choice;
mod combine;
mod compare;
mod creation;
mod memory;
mod name;
mod place;
mod printf;
mod request;
mod special;
mod spelling;
mod taken;
pub mod term;
mod unary;
mod wanted;
