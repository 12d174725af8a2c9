//! What a new cell is to hold, told before objects are moved.

use kt_mem::Value;

/// What a new cell is to hold, before it is known where objects are in the new version's memory.
#[derive(Clone, Copy, PartialEq, Eq, Debug)]
pub enum PreValue {
    /// This value as it is.
    Plain(Value),
    /// What becomes of a pointer of the old version, which may be null or undefined.
    OldPointer(Value),
    /// A pointer to a new object: its element type, a place of the new version's table of types, and its count.
    Fresh(u32, u32),
}
