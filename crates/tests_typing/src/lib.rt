//! What typing answers of files: the version that a file is, or its fault.
#![tactic(auto)]

#[cfg(test)]
mod typing;
#[cfg(test)]
mod versions;
