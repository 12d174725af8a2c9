//! Formats of `printf`.

/// A piece of a format: a byte that is written as it is, or a conversion of an argument.
#[derive(Clone, Copy, PartialEq, Eq)]
pub enum Conversion {
    Plain(u8),
    /// `%d`
    Decimal,
    /// `%ld`
    LongDecimal,
    /// `%c`
    Byte,
    /// `%s`
    Text,
}
