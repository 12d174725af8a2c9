//! Statements of their parts, which were judged.

ghost use Rattle.std.specs.Prelude.{None, IfOk};
ghost use Rattle.kt_program.specs.Judgments.{Judgment, Judgments, Held, NoMore, And};
ghost use Rattle.kt_program.specs.Made.{block};
ghost use Rattle.kt_program.specs.Statements.{of_expression, evaluated, set_local, returned, conditional, while_loop, repeated, for_loop};
ghost use Rattle.kt_statements.specs.Judged.{Judges, JudgesLines, tree_made, option_made, lines_made};

use crate::answer::{Lines, Tree, both};
use crate::line;
use kt_tree::Expr;
use kt_typing::Fault;
use sqlite_items::Boxed;
use std::alloc::{AllocError, Global};

/// `{ entries }`
pub(crate) fn block(alloc: Global, entries: Lines) -> Result<Lines, AllocError>
    ensures { (js : Judgments) → JudgesLines js entries → IfOk result (λ r. Judges lines_made (Held None js block) r) }
{
    match entries {
        Ok(lines) => Ok(Ok(line::block(alloc, lines)?)),
        Err(f) => Ok(Err(f)),
    }
}

/// `e;`
pub(crate) fn evaluated(alloc: Global, e: Tree) -> Result<Lines, AllocError>
    ensures { (j : Judgment) → Judges tree_made j e → IfOk result (λ r. Judges lines_made (of_expression evaluated j) r) }
{
    match e {
        Ok(tree) => Ok(Ok(line::evaluated(alloc, tree)?)),
        Err(f) => Ok(Err(f)),
    }
}

/// A local takes its initial value.
pub(crate) fn set_local(alloc: Global, x: u32, e: Tree) -> Result<Lines, AllocError>
    ensures { (j : Judgment) → Judges tree_made j e → IfOk result (λ r. Judges lines_made (of_expression (set_local x) j) r) }
{
    match e {
        Ok(tree) => Ok(Ok(line::set_local(alloc, x, tree)?)),
        Err(f) => Ok(Err(f)),
    }
}

/// `return e;`
pub(crate) fn returned(alloc: Global, e: Tree) -> Result<Lines, AllocError>
    ensures { (j : Judgment) → Judges tree_made j e → IfOk result (λ r. Judges lines_made (of_expression returned j) r) }
{
    match e {
        Ok(tree) => Ok(Ok(line::returned(alloc, tree)?)),
        Err(f) => Ok(Err(f)),
    }
}

/// `if (test) a`
pub(crate) fn if_alone(alloc: Global, test: Tree, a: Lines) -> Result<Lines, AllocError>
    ensures { (j k : Judgment) → Judges tree_made j test → Judges lines_made k a → IfOk result (λ r. Judges lines_made (Held None (And j (And k NoMore)) conditional) r) }
{
    match both(test, a) {
        Ok((test, a)) => Ok(Ok(line::if_alone(alloc, test, a)?)),
        Err(f) => Ok(Err(f)),
    }
}

/// `if (test) a else b`
pub(crate) fn if_else(alloc: Global, test: Tree, a: Lines, b: Lines) -> Result<Lines, AllocError>
    ensures { (j k l : Judgment) → Judges tree_made j test → Judges lines_made k a → Judges lines_made l b → IfOk result (λ r. Judges lines_made (Held None (And j (And k (And l NoMore))) conditional) r) }
{
    match both(test, both(a, b)) {
        Ok((test, (a, b))) => Ok(Ok(line::if_else(alloc, test, a, b)?)),
        Err(f) => Ok(Err(f)),
    }
}

/// `while (test) a`
pub(crate) fn while_loop(alloc: Global, test: Tree, a: Lines) -> Result<Lines, AllocError>
    ensures { (j k : Judgment) → Judges tree_made j test → Judges lines_made k a → IfOk result (λ r. Judges lines_made (Held None (And j (And k NoMore)) while_loop) r) }
{
    match both(test, a) {
        Ok((test, a)) => Ok(Ok(line::while_loop(alloc, test, a)?)),
        Err(f) => Ok(Err(f)),
    }
}

/// `do a while (test);`
pub(crate) fn repeated(alloc: Global, a: Lines, test: Tree) -> Result<Lines, AllocError>
    ensures { (j k : Judgment) → Judges lines_made j a → Judges tree_made k test → IfOk result (λ r. Judges lines_made (Held None (And j (And k NoMore)) repeated) r) }
{
    match both(a, test) {
        Ok((a, test)) => Ok(Ok(line::repeated(alloc, a, test)?)),
        Err(f) => Ok(Err(f)),
    }
}

/// A test or a step that may be missing.
pub type Perhaps = Result<Option<Boxed<Expr>>, Fault>;

/// `for (first; test; step) a`
pub(crate) fn for_loop(
    alloc: Global,
    first: Lines,
    test: Perhaps,
    step: Perhaps,
    a: Lines,
) -> Result<Lines, AllocError>
    ensures { (j k l m : Judgment) → Judges lines_made j first → Judges option_made k test → Judges option_made l step → Judges lines_made m a → IfOk result (λ r. Judges lines_made (Held None (And j (And k (And l (And m NoMore)))) for_loop) r) }
{
    match both(first, both(test, both(step, a))) {
        Ok(parts) => Ok(Ok(line::for_loop(alloc, parts)?)),
        Err(f) => Ok(Err(f)),
    }
}
