//! What the grammar of rule files answers of texts: trees, depths, and places of faults.
#![tactic(auto)]

#[cfg(test)]
mod accepted;
#[cfg(test)]
mod depth;
#[cfg(test)]
mod print_rules;
#[cfg(test)]
mod refused;
#[cfg(test)]
mod trees;
#[cfg(test)]
mod verdict;
