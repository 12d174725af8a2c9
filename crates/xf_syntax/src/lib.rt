//! The grammar of rule files and its parser.
#![tactic(auto)]

mod act;
mod body;
mod head;
mod laws;
mod node;
mod parser;
mod rule;
mod side;
mod tree;

pub use laws::{
    rules_answer_law, rules_depth_law, rules_fault_law, rules_laws, rules_places_law,
    rules_stands_law,
};
pub use parser::parse_rules;
pub use tree::{Act, Body, RuleFile, RuleItem, Side, StructName, Target};
