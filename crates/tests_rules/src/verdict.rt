//! What `parse_rules` answers of a text.

use crate::print_rules::file;
use kt_grammar::SyntaxFault;
use kt_lex::lex;
use std::alloc::{AllocError, Global};
use xf_syntax::{RuleFile, parse_rules};

fn read(alloc: Global, bytes: &[u8]) -> Result<RuleFile, SyntaxFault> {
    if bytes.len() > 100_000 {
        return Err(SyntaxFault::NoMemory);
    }
    match lex(alloc, bytes) {
        Ok(tokens) => parse_rules(alloc, &tokens, bytes),
        Err(_) => Err(SyntaxFault::NoMemory),
    }
}

/// The tree of a rule file, or the fault.
pub(crate) fn shown(alloc: Global, text: &str) -> Result<String, AllocError> {
    match read(alloc, text.as_bytes()) {
        Ok(tree) => {
            let mut out = String::new(alloc);
            let written = file(&mut out, &tree);
            drop(tree);
            written.map(|_| out)
        }
        Err(fault) => format!(in alloc; "{fault}"),
    }
}

/// The fault of a rule file, or nothing.
pub(crate) fn verdict(alloc: Global, text: &str) -> Result<String, AllocError> {
    match read(alloc, text.as_bytes()).err() {
        Some(fault) => format!(in alloc; "{fault}"),
        None => Ok(String::new(alloc)),
    }
}
