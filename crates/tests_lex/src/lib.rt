//! The tests of `kt_lex`, through its public calls.
#![tactic(auto)]

#[cfg(test)]
mod tables;
