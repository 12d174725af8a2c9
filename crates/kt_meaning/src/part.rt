//! The work that is left to a frame, as a list of parts of the tree.

use kt_mem::{Value, Values};
use kt_tree::{Expr, Operation, Request, Stmt};
use sqlite_items::Items;

/// What the values of operands are for.
#[derive(Drop)]
pub enum Use {
    /// An operation, which gives a value of that type.
    Operates(Operation, u32),
    /// A request, which gives a value of that type, or nothing.
    Asks(Request, Option<u32>),
    /// A call of the function of that number.
    Enters(u32),
}

/// What waits for a value.
#[derive(Drop)]
pub enum Waiting {
    /// Leaves it unused.
    Drops,
    /// Puts it into the local of that number, and gives it.
    Sets(u32),
    /// Puts it into the local of that number, and gives what the local held.
    Swaps(u32),
    /// The next operand, after these values, the latest first, and before these operands.
    Awaits(Use, Values, Items<Expr>),
    /// The pointer of a cell that is changed: the operation, its type, the cell's type, whether the old value is the
    /// whole's, and the operand.
    Fetches(Operation, u32, u32, bool, Expr),
    /// The operand of such a change, after the pointer and the value that the cell had.
    Changes(Operation, u32, u32, bool, Value, Value),
    /// The first operand of `&&`; the second one is next where it is not zero.
    AndThen(Expr),
    /// The first operand of `||`; the second one is next where it is zero.
    OrElse(Expr),
    /// The second operand of either.
    Truths,
    /// The condition of `?:`, and its arms.
    Picks(Expr, Expr),
    /// The condition of `if`, and its branches.
    Branches(Stmt, Stmt),
    /// The test of a loop: test, step and body.
    Loops(Option<Expr>, Option<Expr>, Stmt),
    /// The test of a `do`: body and test.
    Repeats(Stmt, Expr),
    /// What the function returns.
    Returns,
}

/// A part of the work that is left.
#[derive(Drop)]
pub enum Part {
    /// An expression, which will give a value.
    Eval(Expr),
    /// The value, which the next part takes.
    Have(Value),
    Wait(Waiting),
    Do(Stmt),
    /// The statements of a block, in order.
    Run(Items<Stmt>),
    /// The end of a loop's body: test, step and body of the loop.
    Next(Option<Expr>, Option<Expr>, Stmt),
    /// The end of the body of a `do`: body and test.
    Again(Stmt, Expr),
}
