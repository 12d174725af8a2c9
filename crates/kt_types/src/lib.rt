//! Types of a version of a C program: texts and small lists, the types and pointer views that a declaration names, and
//! the table of types with its layout, the scalar cells of each type.
#![tactic(auto)]

mod faults;
mod kinds;
mod lists;
mod table;

pub use faults::TypeFault;
pub use kinds::{Field, FieldDecl, Ty, View};
pub use lists::{Numbers, Points, Text, Turns};
pub use table::{CELL_LIMIT, TypeTable, layout_law};
