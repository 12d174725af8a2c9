//! The tests of `kt_edge`, through its public calls.
#![tactic(auto)]

#[cfg(test)]
mod devices;
