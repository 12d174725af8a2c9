//! The kinds of types, the views of pointers, and what a struct's declaration and a look-up name.

use crate::lists::Text;

/// A type of a table of types. The numbers are places of the table, except the number of a struct and the count of an
/// array (ISO/IEC 9899:2011, 6.2.5).
#[derive(Clone, Copy, PartialEq, Eq, Hash, Debug)]
pub enum Ty {
    /// `char`, signed, of 8 bits.
    Char,
    /// `int`, of 32 bits.
    Int,
    /// `long`, of 64 bits.
    Long,
    /// `pthread_mutex_t`.
    Mutex,
    /// The struct of this number, which `TypeTable::declare_struct` gives.
    Struct(u32),
    /// An array: the place of its element's type, and the count of its elements.
    Array(u32, u32),
    /// A pointer: the place of its pointee's type.
    Ptr(u32),
}

/// How much a pointer points to, as its declaration says.
#[derive(Clone, Copy, PartialEq, Eq, Hash, Debug)]
pub enum View {
    /// One element: a plain pointer.
    One,
    /// The whole object, whatever its count: a plain `char *`.
    Whole,
    /// As many elements as the field of this place in the same struct says.
    Field(u32),
    /// As many elements as the global of this place says.
    Global(u32),
    /// This many elements.
    Count(u32),
}

/// A declared name with its type, a place of the table of types, and its view.
#[derive(Clone, PartialEq, Eq, Debug, Drop)]
pub struct FieldDecl {
    pub name: Text,
    pub ty: u32,
    pub view: View,
}

/// A field of a defined struct: its place among the fields, the number of cells before it in the struct, its type, a
/// place of the table of types, and its view.
#[derive(Clone, Copy, PartialEq, Eq, Hash, Debug)]
pub struct Field {
    pub index: u32,
    pub cell: u32,
    pub ty: u32,
    pub view: View,
}
