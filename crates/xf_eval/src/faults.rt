//! Why there is no pre-value.

use kt_mem::Trap;

/// Why there is no pre-value.
#[derive(Clone, Copy, PartialEq, Eq, Debug)]
pub enum PreFault {
    /// The body of its rule traps.
    Trapped(Trap),
    /// Memory is wanting.
    NoMemory,
}
