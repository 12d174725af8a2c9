//! The instructions.

use kt_tree::Request;
use kt_types::Ty;
use sqlite_items::Boxed;

// Code is read an instruction at a time.
const _: () = prove!(size_of::<Instr>() <= 16);

/// One instruction. Values are taken from the operands and put onto them, the topmost first. A jump tells how many
/// instructions it passes, or how many it goes back, from the instruction behind it.
#[derive(Drop)]
pub enum Instr {
    /// Puts a number.
    Number(i64),
    /// Puts the null pointer.
    Null,
    /// Puts the pointer to the first cell of the global of that number.
    Global(u32),
    /// Puts the pointer to the first byte of the version's literal of that number.
    Literal(u32),
    /// Puts the value of the local of that number; traps with `uninit` where it is undefined.
    Read(u32),
    /// The local of that number has the topmost value, which stays.
    Set(u32),
    /// The local of that number has the topmost value, which gives way to the one that the local had.
    Swap(u32),
    /// The local of that number is undefined from here on.
    Undefine(u32),
    /// Takes a value.
    Discard,
    /// Puts the topmost value once more.
    Duplicate,
    /// Takes the right operand and then the left one, and puts their sum in that type.
    Add(Ty),
    Subtract(Ty),
    Multiply(Ty),
    Divide(Ty),
    Remainder(Ty),
    /// Takes a number and puts it in that type.
    Convert(Ty),
    Less,
    Greater,
    LessEqual,
    GreaterEqual,
    Equal,
    NotEqual,
    /// Takes a value and puts 1 where it is zero or null, else 0.
    Not,
    /// Takes a pointer and a number, and puts the pointer so many elements on; an element has that many cells.
    ElementAfter(u32),
    ElementBefore(u32),
    /// Takes two pointers, and puts how many elements lie between them.
    ElementsBetween(u32),
    /// Takes a pointer to a struct, and puts that to the field behind so many cells.
    Field(u32),
    /// Takes a pointer. An act: a load at that type, whose value is put.
    Load(Ty),
    /// The same, and the pointer stays below the value.
    Fetch(Ty),
    /// Takes a value and a pointer. An act: a store at that type. Puts what was stored.
    Store(Ty),
    /// Takes a value, the one before, and a pointer. An act: a store at that type. Puts the one before.
    StoreOld(Ty),
    /// Takes the operands of a request other than a load or store. An act. Puts its value, or the undefined one.
    Ask(Boxed<Request>),
    /// An act that changes nothing.
    Tick,
    /// Takes the arguments of a call. An act, behind which the function of that number begins; it has so many locals.
    Call {
        function: u32,
        arguments: u32,
        locals: u32,
    },
    /// Passes so many instructions.
    Skip(u32),
    /// Takes a value; at zero passes so many instructions.
    SkipIfZero(u32),
    /// Takes the left operand of `&&`. At zero puts 0 and passes so many instructions.
    And(u32),
    /// Takes the left operand of `||`. At any value but zero puts 1 and passes so many instructions.
    Or(u32),
    /// Takes a value and puts 0 where it is zero, else 1.
    Truth,
    /// Goes so many instructions back, to a tick.
    Back(u32),
    /// Takes a value; at any but zero goes so many instructions back, to a tick.
    BackIfNotZero(u32),
    /// The function returns the topmost value.
    Return,
    /// The function returns without a value; the undefined one is put for the call.
    Leave,
    /// The end of a function that should have returned a value: traps with `uninit`.
    NoValue,
}
