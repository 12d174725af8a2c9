// Typed expressions. Numbers of types are places of the version's table of types.

use sqlite_items::{Boxed, Items};

/// A value that stands in the text.
#[derive(Clone, Copy, PartialEq, Eq)]
pub enum Constant {
    Number(i64),
    Null,
    /// The address of the first cell of the global of that number.
    Global(u32),
    /// The address of the first byte of the literal of that number.
    Literal(u32),
}

/// What an expression does with the values of its operands, without touching memory (ISO/IEC 9899:2011, 6.3, 6.5).
#[derive(Clone, Copy, PartialEq, Eq)]
pub enum Operation {
    Add,
    Subtract,
    Multiply,
    Divide,
    Remainder,
    Less,
    Greater,
    LessEqual,
    GreaterEqual,
    Equal,
    NotEqual,
    /// 1 where the operand is zero or null, else 0.
    Not,
    /// The same number, in the type of the whole.
    Convert,
    /// A pointer to elements of that type, so many elements on.
    ElementAfter(u32),
    ElementBefore(u32),
    /// How many elements of that type lie between two pointers.
    ElementsBetween(u32),
    /// A pointer to the field of that number, of the struct of that number.
    Field(u32, u32),
}

/// A part of what `printf` writes.
#[derive(Drop)]
pub enum Part {
    Bytes(Items<u8>),
    /// `%d` and `%ld`: the next operand as a decimal number.
    Number,
    /// `%c`
    Byte,
    /// `%s`
    Text,
}

/// What an expression asks of the world: an act on what threads share.
#[derive(Drop)]
pub enum Request {
    /// Of a pointer: the value of the cell there, of the type of the whole.
    Load,
    /// Of a pointer and a value: the value, which is stored.
    Store,
    /// Of a count: a pointer to a new object of so many elements of that type; true where its cells are zero.
    Allocate(u32, bool),
    Release,
    Lock,
    Unlock,
    InitMutex,
    GetChar,
    PutChar,
    Puts,
    Print(Items<Part>),
    /// Of an argument: the number of a new thread that begins at the function of that number.
    Create(u32),
    Join,
    /// The update point of that number.
    Point(u32),
    IsUpdating,
    /// Whether the thread is on its way from the point of that number, among all names of points.
    IsUpdatingFrom(u32),
    Automigrate,
    /// Sets the local of that number to what an update kept for it.
    MigrateLocal(u32),
}

/// A typed expression. Each load and store of a global or heap cell is a `Request` of its own.
#[derive(Drop)]
pub enum Expr {
    /// A value and its type.
    Constant(Constant, u32),
    /// The value of the local of that number.
    Local(u32),
    /// The value, which the local takes.
    SetLocal(u32, Boxed<Expr>),
    /// The value that the local had, before it takes the new one.
    SwapLocal(u32, Boxed<Expr>),
    /// An operation, the type of the whole, and the operands.
    Operation(Operation, u32, Items<Expr>),
    /// A request, the type of its value, where it has one, and the operands.
    Request(Request, Option<u32>, Items<Expr>),
    /// Loads the cell of the second type at a pointer, does the operation of the first type with it and the operand, and
    /// stores the result, converted. The value is what was stored, or with `true` what was loaded.
    Modify(Operation, u32, u32, bool, Boxed<Expr>, Boxed<Expr>),
    And(Boxed<Expr>, Boxed<Expr>),
    Or(Boxed<Expr>, Boxed<Expr>),
    /// A condition, the type of the whole, and the two expressions of which one is evaluated.
    Choice(Boxed<Expr>, u32, Boxed<Expr>, Boxed<Expr>),
    /// A call of the function of that number.
    Call(u32, Items<Expr>),
}
