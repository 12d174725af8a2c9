//! The tokens of C files and rule files.
#![tactic(auto)]

mod bytes;
mod front;
mod gap;
mod laws;
mod number;
mod quote;
mod scan;
mod token;
mod word;

pub use laws::{cut_law, fault_law, longest_sign_law};
pub use number::{Number, number_of};
pub use quote::{character_of, string_of};
pub use scan::lex;
pub use token::{Kind, LexFault, Token};
