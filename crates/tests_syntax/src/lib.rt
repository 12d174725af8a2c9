//! What the grammar and the syntax answer of texts: the parts of expressions, trees, depths, and places of faults.
#![tactic(auto)]

#[cfg(test)]
mod damaged;
#[cfg(test)]
mod depth;
#[cfg(test)]
mod grammar;
#[cfg(test)]
mod print_expr;
#[cfg(test)]
mod print_file;
#[cfg(test)]
mod trees;
#[cfg(test)]
mod verdict;
