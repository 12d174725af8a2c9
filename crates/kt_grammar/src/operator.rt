/// Which files an expression is of. Rule files lack assignment, `++`, `--`, `&`, strings, calls and `sizeof`, and C files
/// the rule words.
#[derive(Clone, Copy, PartialEq, Eq)]
pub enum Dialect {
    C,
    Rules,
}

/// A unary operator (ISO/IEC 9899:2011, 6.5.3).
#[derive(Clone, Copy, PartialEq, Eq)]
pub enum PrefixOperator {
    Negate,
    Not,
    Dereference,
    AddressOf,
    Increment,
    Decrement,
}

/// A postfix operator without operands (6.5.2.4).
#[derive(Clone, Copy, PartialEq, Eq)]
pub enum StepOperator {
    Increment,
    Decrement,
}

/// A binary operator (6.5.5 to 6.5.14).
#[derive(Clone, Copy, PartialEq, Eq)]
pub enum BinaryOperator {
    Or,
    And,
    Equal,
    NotEqual,
    Less,
    Greater,
    LessEqual,
    GreaterEqual,
    Add,
    Subtract,
    Multiply,
    Divide,
    Remainder,
}

/// An assignment operator (6.5.16).
#[derive(Clone, Copy, PartialEq, Eq)]
pub enum AssignOperator {
    Assign,
    Add,
    Subtract,
    Multiply,
    Divide,
    Remainder,
}
