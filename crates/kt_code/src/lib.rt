//! Code and what it does: instructions, a thread's private state, and the meaning of one instruction, of settling and of
//! a reply, which stand in `specs/`.
//!
//! Nothing here runs code.
#![tactic(auto)]

mod code;
mod equality;
mod frame;
mod instr;
mod laws;
mod locals;
mod operands;
mod private;
mod room;

pub use code::{Code, Entries, Instrs};
pub use frame::{Frame, Frames};
pub use instr::Instr;
pub use laws::{agreement_law, settle_law};
pub use locals::Locals;
pub use operands::Operands;
pub use private::{Head, Private};
