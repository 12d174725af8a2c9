//! Decimal text and lines: numbers that are written and read, and words in a line.
#![tactic(auto)]

mod laws;
mod line;
mod number;

pub use laws::{one_text_law, written_law};
pub use line::push_line;
pub use number::{push_number, read_number};
