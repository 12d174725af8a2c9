//! Tests of `kt_mem` by its public calls.
#![tactic(auto)]

#[cfg(test)]
mod tests;
