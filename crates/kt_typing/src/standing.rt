//! What an expression is to the one around it, and what it is used as there.

/// What an expression is (ISO/IEC 9899:2011, 6.3.2 and 6.5).
#[derive(Clone, Copy, PartialEq, Eq)]
pub enum Standing {
    /// A value.
    Value,
    /// The literal `0`, an `int`, which converts to pointers too.
    Zero,
    /// `NULL`, which takes its type from what is around it.
    Null,
    /// The place of the local of that number.
    Local(u32),
    /// The place of a cell, known by a pointer to it.
    Cell,
    /// The place of a struct or a mutex, known by a pointer to it.
    Whole,
    /// An array of rule code that is used through its elements alone, known by a pointer to the first.
    Elements,
    /// `sizeof(T)`, where `T` or its struct's name stands at that place.
    Size(u32),
    /// A count times `sizeof(T)`, of the type at that place of the table of types.
    Product(u32),
    /// A call that gives no value.
    Nothing,
    /// The name of the function of that number, where a thread begins.
    Entry(u32),
}

/// What an expression is used as.
#[derive(Clone, Copy, PartialEq, Eq)]
pub enum Use {
    /// A value, or the place that an assignment changes.
    Value,
    /// The operand of `.` or `&`.
    Whole,
    /// What stands before an index.
    Indexed,
    /// A factor of a product, which may be a size.
    Factor,
    /// A size.
    Size,
    /// What `malloc` takes: a size, a count times a size, or a number of bytes.
    Count,
}
