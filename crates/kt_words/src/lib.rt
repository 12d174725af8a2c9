//! The words of a call of `kitplay` or `kitsune`, read as an order.
#![tactic(auto)]

mod fault;
mod form;
mod laws;
mod names;
mod order;
mod read;
mod value;

pub use fault::WordFault;
pub use laws::one_order_law;
pub use names::Names;
pub use order::{Order, Program, Wish};
pub use read::read_words;
