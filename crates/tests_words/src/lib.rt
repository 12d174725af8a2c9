//! The tests of `kt_words`, through its public calls.
#![tactic(auto)]

#[cfg(test)]
mod helpers;
#[cfg(test)]
mod orders;
#[cfg(test)]
mod yardstick;
