//! The instructions of a statement, put from the last to the first: so each jump forward knows how many it passes.
ghost use Rattle.std.specs.Prelude.{◌≡◌, ◌++◌, reverse, OnOk};
ghost use Rattle.std.specs.Option.{option_map};
ghost use Rattle.kt_tree.specs.Tree.{expression_of, statement_of, statements_of};
ghost use Rattle.kt_codegen.specs.Emitting.{Puts, PutsAll, dropped_in, step_in, return_in};

use crate::parts::{passed, put_entry, put_skip, put_test, put_tick};
use kt_code::Instr;
use kt_genexpr::{emit_expr, put};
use kt_tree::{Expr, Stmt, Version};
use sqlite_items::{Boxed, Items};
use std::alloc::{AllocError, Global};

/// Puts the instructions of a statement of the version behind others, the last one first. `continue` goes to where so
/// many had been put, and `break` to where so many had been put.
#[cycle(emit)]
pub fn emit_stmt(
    alloc: Global,
    version: &Version,
    stmt: &Stmt,
    next: usize,
    exit: usize,
    out: &mut Vec<Instr>,
) -> Result<(), AllocError>
    ensures { OnOk result (Puts version.now (statement_of stmt.now) next exit out.old.items out.new.items) }
{
    match stmt {
        Stmt::Expr(expr) => emit_dropped(alloc, version, expr, out),
        Stmt::Undefine(local) => put(out, Instr::Undefine(*local)),
        Stmt::Block(block) => emit_block(alloc, version, block, next, exit, out),
        Stmt::If(test, then, other) => {
            let end = out.len();
            emit_boxed(alloc, version, other, next, exit, out)?;
            let second = out.len();
            put_skip(end, out)?;
            emit_boxed(alloc, version, then, next, exit, out)?;
            put(out, Instr::SkipIfZero(passed(second, out.len())?))?;
            emit_expr(alloc, version, test, out)
        }
        Stmt::Loop(test, step, body) => {
            let end = out.len();
            put_test(alloc, version, test, out)?;
            let entry = out.len();
            emit_step(alloc, version, step, out)?;
            let turn = out.len();
            emit_boxed(alloc, version, body, turn, end, out)?;
            put_tick(test.is_some(), end, out)?;
            put_entry(test, entry, out)
        }
        Stmt::Repeat(body, test) => {
            let end = out.len();
            put(out, Instr::BackIfNotZero(0))?;
            emit_expr(alloc, version, test, out)?;
            let behind = out.len();
            emit_boxed(alloc, version, body, behind, end, out)?;
            put_tick(true, end, out)
        }
        Stmt::Return(value) => emit_return(alloc, version, value, out),
        Stmt::Break => put_skip(exit, out),
        Stmt::Continue => put_skip(next, out),
    }
}

#[cycle(emit)]
fn emit_boxed(
    alloc: Global,
    version: &Version,
    stmt: &Boxed<Stmt>,
    next: usize,
    exit: usize,
    out: &mut Vec<Instr>,
) -> Result<(), AllocError>
    ensures { OnOk result (Puts version.now (statement_of stmt.now) next exit out.old.items out.new.items) }
{
    emit_stmt(alloc, version, stmt.get(), next, exit, out)
}

// The statements' instructions, the last one's first.
#[cycle(emit)]
fn emit_block(
    alloc: Global,
    version: &Version,
    block: &Items<Stmt>,
    next: usize,
    exit: usize,
    out: &mut Vec<Instr>,
) -> Result<(), AllocError>
    ensures { OnOk result (PutsAll version.now (statements_of block.now) next exit out.old.items out.new.items) }
{
    let block = block.as_slice();
    for place in (0..block.len()).rev() {
        emit_stmt(alloc, version, &block[place], next, exit, out)?;
    }
    Ok(())
}

// An expression whose value is dropped.
fn emit_dropped(
    alloc: Global,
    version: &Version,
    expr: &Expr,
    out: &mut Vec<Instr>,
) -> Result<(), AllocError>
    ensures { OnOk result (out.new.items ≡ out.old.items ++ reverse (dropped_in version.now (expression_of expr.now))) }
{
    put(out, Instr::Discard)?;
    emit_expr(alloc, version, expr, out)
}

// The step of a loop.
fn emit_step(
    alloc: Global,
    version: &Version,
    step: &Option<Expr>,
    out: &mut Vec<Instr>,
) -> Result<(), AllocError>
    ensures { OnOk result (out.new.items ≡ out.old.items ++ reverse (step_in version.now (option_map expression_of step.now))) }
{
    match step {
        Some(step) => emit_dropped(alloc, version, step, out),
        None => Ok(()),
    }
}

fn emit_return(
    alloc: Global,
    version: &Version,
    value: &Option<Expr>,
    out: &mut Vec<Instr>,
) -> Result<(), AllocError>
    ensures { OnOk result (out.new.items ≡ out.old.items ++ reverse (return_in version.now (option_map expression_of value.now))) }
{
    match value {
        Some(value) => {
            put(out, Instr::Return)?;
            emit_expr(alloc, version, value, out)
        }
        None => put(out, Instr::Leave),
    }
}
