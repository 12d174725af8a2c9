//! Typing of function bodies, by the judgments of `kt_program`: names in scope, local declarators, and statements.
#![tactic(auto)]

pub mod answer;
pub mod body;
pub mod declarator;
pub mod line;
pub mod local;
pub mod mark;
pub mod names;
pub mod part;
pub mod scopes;
pub mod statement;
pub mod whole;
