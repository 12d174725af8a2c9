//! Tests of `kt_code` and `kt_meaning` by their public calls.
#![tactic(auto)]

#[cfg(test)]
mod tests;
#[cfg(test)]
mod threads;
