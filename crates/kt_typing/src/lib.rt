//! The typing of expressions, of C files and of rule code alike: what has a type, and which faults an expression has.
#![tactic(auto)]

mod builtin;
mod fault;
mod format;
mod laws;
mod standing;

pub use builtin::Builtin;
pub use fault::{Fault, Kind};
pub use format::Conversion;
pub use laws::{rows_law, sound_law, typing_law};
pub use standing::{Standing, Use};
