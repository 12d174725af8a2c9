//! The heap of a running program: globals, literals and heap objects, with load, store, allocation and release as the
//! definition of memory in `kt_mem` has them.
//!
//! A heap object stands in a slab. Its address has a key, which is used again once the object was released, and a
//! generation, which is not. A load or a store takes constant time and no memory, and a store writes the cell in place.
#![tactic(auto)]

mod faults;
mod heap;
mod keyed;
mod keys;
mod laws;
mod literals;
mod numbered;
mod object;

pub use faults::AllocFault;
pub use heap::Heap;
pub use laws::{by_number_law, given_law};
pub use object::Obj;
