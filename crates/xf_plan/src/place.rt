//! Places of new values, and what is wrong there.

use crate::value::PreValue;
use kt_mem::Trap;
use kt_types::{Ty, View};

/// Where a new value stands. Places are ordered as their variants are here, and then by their numbers.
#[derive(Clone, Copy, PartialEq, Eq, Debug)]
pub enum Place {
    /// A global of the new version, and a cell of it.
    GlobalCell(u32, u32),
    /// The argument of that thread.
    Argument(u8),
    /// A thread, a function of the new version, and a local of it.
    Local(u8, u32, u32),
    /// A heap number, and a cell of that object's image.
    HeapCell(u64, u32),
}

/// Why an update cannot put a value there; at one place the first of these is told.
#[derive(Clone, Copy, PartialEq, Eq, Debug)]
pub enum Why {
    /// Its rule traps.
    Rule(Trap),
    /// It points into an object, or to one of another type.
    Interior,
    /// It points to a global that the new version lacks.
    Gone,
    /// It points to a global that has another type in the new version.
    Retyped,
    /// It points to an object of another count than its declaration says.
    Extent,
}

/// What is wrong at a place.
#[derive(Clone, Copy, PartialEq, Eq, Debug)]
pub struct Fault {
    pub place: Place,
    pub why: Why,
}

/// A place from which an update begins: the scalar type of the new cell, its value, and how much it points to.
#[derive(Clone, Copy)]
pub struct Root {
    pub place: Place,
    pub ty: Ty,
    pub value: Result<PreValue, Trap>,
    pub view: View,
}
