//! Tests of `kt_heap` by its public calls.
#![tactic(auto)]

#[cfg(test)]
mod tests;
