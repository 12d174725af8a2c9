//! The typing of C files: what is judged of statements and declarations, what comes of a file that is right, and its first
//! fault.
#![tactic(auto)]

mod laws;

pub use laws::{files_law, fits_law, judgment_law, program_law, statements_law};
