//! The journal of a run: the text of its turns and of the marks between them, written and read.
#![tactic(auto)]

mod cut;
mod fault;
mod form;
mod kit;
mod laws;
mod line;
mod mark;
mod names;
mod reader;
mod refusal;
mod word;
mod writer;

pub use fault::JournalFault;
pub use laws::{main_only_law, read_back_law};
pub use reader::read;
pub use writer::write;
