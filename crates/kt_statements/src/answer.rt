//! Answers to judgments: what comes of what is judged, or its first fault.

ghost use Rattle.std.specs.Prelude.{◌≡◌, IfOk};
ghost use Rattle.kt_program.specs.Judgments.{Expressed};
ghost use Rattle.kt_typing.specs.Forms.{Form};
ghost use Rattle.kt_operands.specs.Views.{operand_of};
ghost use Rattle.kt_operators.specs.Judged.{Judges as JudgesForm};
ghost use Rattle.kt_statements.specs.Judged.{Judges, tree_made, both_of, under_of};

use kt_operands::refusal::Refusal;
use kt_operators::first::earlier;
use kt_operators::forms::Answer;
use kt_tree::{Expr, Stmt};
use kt_typing::Fault;
use sqlite_items::{Boxed, Items};
use std::alloc::AllocError;

/// The tree of an expression, or its first fault.
pub type Tree = Result<Boxed<Expr>, Fault>;

/// Statements one behind another, or their first fault.
pub type Lines = Result<Items<Stmt>, Fault>;

/// Two parts that are judged both: what they are, or the earlier fault.
pub(crate) fn both<A: Drop, B: Drop>(
    a: Result<A, Fault>,
    b: Result<B, Fault>,
) -> Result<(A, B), Fault>
    ensures { result ≡ both_of a b }
{
    match a {
        Ok(x) => match b {
            Ok(y) => Ok((x, y)),
            Err(g) => {
                drop(x);
                Err(g)
            }
        },
        Err(f) => match b {
            Ok(y) => {
                drop(y);
                Err(f)
            }
            Err(g) => Err(earlier(f, g)),
        },
    }
}

/// An answer under a condition, of which the fault is given where it is broken.
pub(crate) fn under<A: Drop>(broken: Option<Fault>, answer: Result<A, Fault>) -> Result<A, Fault>
    ensures { result ≡ under_of broken answer }
{
    match broken {
        None => answer,
        Some(f) => match answer {
            Ok(x) => {
                drop(x);
                Err(f)
            }
            Err(g) => Err(earlier(f, g)),
        },
    }
}

/// The tree of an expression that was judged, or its first fault.
pub(crate) fn told(x: Answer) -> Result<Tree, AllocError>
    ensures { (e : Form) → JudgesForm operand_of e x → IfOk result (λ r. Judges tree_made (Expressed e) r) }
{
    match x {
        Ok(operand) => Ok(Ok(operand.tree)),
        Err(Refusal::Fault(f)) => Ok(Err(f)),
        Err(Refusal::NoMemory) => Err(AllocError),
    }
}
