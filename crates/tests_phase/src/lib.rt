//! The tests of `kt_phase`, through its public calls.
#![tactic(auto)]

#[cfg(test)]
mod runs;
