//! The tests of `kt_journal`, through its public calls.
#![tactic(auto)]

#[cfg(test)]
mod texts;
#[cfg(test)]
mod written;
