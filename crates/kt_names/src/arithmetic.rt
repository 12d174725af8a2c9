//! Additive and multiplicative operators (ISO/IEC 9899:2011, 6.5.5, 6.5.6).

use crate::ctype::CType;
use kt_tree::Operation;

/// An operation, and the type that it is done in.
#[derive(Clone, Copy)]
pub struct Combined {
    pub operation: Operation,
    pub own: CType,
}
