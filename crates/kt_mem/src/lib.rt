//! Values, traps and acts of a running program, its arithmetic, and the definition of its memory.
//!
//! Everything here is plain data. Copies of lists alone take memory.
#![tactic(auto)]

mod arithmetic;
mod cell;
mod comparison;
mod element;
mod laws;
mod memory;
mod steps;
mod stored;
mod thread;

pub use arithmetic::{add, div, mul, narrow, rem, sub};
pub use cell::Cell;
pub use comparison::{
    defined, equal, greater, greater_equal, is_zero, less, less_equal, not, not_equal, truth,
};
pub use element::{add_elements, elements_between, sub_elements};
pub use laws::{
    answers_law, division_law, heap_number_law, held_law, live_cells_law, mutex_law, release_law,
    shape_law, store_law, type_law,
};
pub use memory::{Cells, Name, Value, Values};
pub use steps::{Act, Piece, Pieces, Reply, Trap};
pub use stored::Stored;
pub use thread::{KeptLocal, KeptLocals, Mode};
