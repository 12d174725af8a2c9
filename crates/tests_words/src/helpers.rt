use kt_words::{Order, Program, WordFault, read_words};
use std::alloc::{AllocError, Global};

/// The words that spaces part.
pub fn words(alloc: Global, line: &str) -> Result<Vec<String>, AllocError> {
    let mut words = Vec::new(alloc);
    for word in line.split_whitespace() {
        words.push(String::from_str(alloc, word)?)?;
    }
    Ok(words)
}

pub fn read(alloc: Global, program: Program, line: &str) -> Result<Order, WordFault> {
    read_words(alloc, program, words(alloc, line)?.as_slice())
}
