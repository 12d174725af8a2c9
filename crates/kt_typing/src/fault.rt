//! Faults of typing.

/// What is wrong, in the order in which faults at one place are told.
#[derive(Clone, Copy, Debug, PartialEq, Eq)]
pub enum Kind {
    /// A name or field that there isn't.
    Unknown,
    /// A name that stands a second time.
    Twice,
    /// A rule of types that is broken.
    BadType,
    /// A rule that writes something other than its target.
    WritesIn,
    /// A struct whose cells are needed before it is defined.
    Incomplete,
    /// An array, a struct or globals with too many cells.
    TooBig,
    /// A name where no thread can begin.
    Entry,
    /// A local that an update can't keep.
    Note,
    /// A file without `main`.
    NoMain,
}

/// A fault: the first byte of what is faulty, and what is wrong.
#[derive(Clone, Copy, Debug, PartialEq, Eq)]
pub struct Fault {
    pub at: u32,
    pub kind: Kind,
}
