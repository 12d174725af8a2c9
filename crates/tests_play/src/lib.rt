//! `play` over devices in memory: worked programs, a table of small ones, updates, refusals, the input, each device failing in
//! turn, and the limits of the heap and the output.
#![tactic(auto)]

#[cfg(test)]
mod calls;
#[cfg(test)]
mod input;
#[cfg(test)]
mod limits;
#[cfg(test)]
mod programs;
#[cfg(test)]
mod refusals;
#[cfg(test)]
mod updates;
#[cfg(test)]
mod worked;
#[cfg(test)]
mod writes;
