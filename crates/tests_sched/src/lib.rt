//! The tests of `kt_sched`, through its public calls.
#![tactic(auto)]

#[cfg(test)]
mod generated;
#[cfg(test)]
mod schedules;
