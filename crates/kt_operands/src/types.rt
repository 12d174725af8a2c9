//! The places of the types that have one in each table.

ghost use Rattle.std.specs.Prelude.{◌≡◌};
ghost use Rattle.kt_tree.specs.Kinds.{common};

/// The place of `char`.
pub const CHAR: u32 = 0;
/// The place of `int`.
pub const INT: u32 = 1;
/// The place of `long`.
pub const LONG: u32 = 2;
/// The place of the mutex.
pub const MUTEX: u32 = 3;

/// The type that two integers take in arithmetic (ISO/IEC 9899:2011, 6.3.1.8).
pub fn common(a: u32, b: u32) -> u32
    ensures { result ≡ common a b }
{
    if a == LONG || b == LONG { LONG } else { INT }
}
