//! The tests of `kt_text`, through its public calls.
#![tactic(auto)]

#[cfg(test)]
mod texts;
