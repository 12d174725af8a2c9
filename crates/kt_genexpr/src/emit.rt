//! The instructions of an expression, put from the last to the first: so each jump knows how many it passes.
ghost use Rattle.std.specs.Prelude.{◌≡◌, ◌==◌, ◌+◌, ◌≤◌, ◌++◌, ◌∷◌, [], IfOk, OnOk, reverse, slice_get};
ghost use Rattle.kt_tree.specs.Tree.{expression_of, expressions_of};
ghost use Rattle.kt_code.specs.declared.instr.Instr.TheVariants as instr;
ghost use Rattle.kt_genexpr.specs.Emitting.{code_in, codes_in};
ghost use Rattle.kt_genexpr.specs.ExpressionCode.{type_at, locals_of, kept_code, conversion_code, storing_code};

use crate::resolve::{constant, locals_of, operation, request, type_at};
use kt_code::Instr;
use kt_tree::{Expr, Version};
use sqlite_items::{Boxed, Items};
use std::alloc::{AllocError, Global};

/// Puts the instructions of an expression of the version behind others, the last one first: the compiler's part for
/// expressions.
#[cycle(emit)]
pub fn emit_expr(
    alloc: Global,
    version: &Version,
    expr: &Expr,
    out: &mut Vec<Instr>,
) -> Result<(), AllocError>
    ensures { OnOk result (out.new.items ≡ out.old.items ++ reverse (code_in version.now (expression_of expr.now))) }
{
    match expr {
        Expr::Constant(value, _) => put(out, constant(*value)),
        Expr::Local(local) => put(out, Instr::Read(*local)),
        Expr::SetLocal(local, value) => {
            put(out, Instr::Set(*local))?;
            emit_boxed(alloc, version, value, out)
        }
        Expr::SwapLocal(local, value) => {
            put(out, Instr::Swap(*local))?;
            emit_boxed(alloc, version, value, out)
        }
        Expr::Operation(op, ty, operands) => {
            put(out, operation(version.types(), *op, *ty)?)?;
            emit_operands(alloc, version, operands, out)
        }
        Expr::Request(asked, ty, operands) => {
            put(out, request(alloc, version.types(), asked, *ty)?)?;
            emit_operands(alloc, version, operands, out)
        }
        Expr::Modify(op, own, ty, old, place, operand) => {
            put_store(version, *own, *ty, *old, out)?;
            put(out, operation(version.types(), *op, *own)?)?;
            emit_boxed(alloc, version, operand, out)?;
            put_load(version, *ty, *old, out)?;
            emit_boxed(alloc, version, place, out)
        }
        Expr::And(a, b) => {
            let end = out.len();
            put(out, Instr::Truth)?;
            emit_boxed(alloc, version, b, out)?;
            put(out, Instr::And(passed(end, out.len())?))?;
            emit_boxed(alloc, version, a, out)
        }
        Expr::Or(a, b) => {
            let end = out.len();
            put(out, Instr::Truth)?;
            emit_boxed(alloc, version, b, out)?;
            put(out, Instr::Or(passed(end, out.len())?))?;
            emit_boxed(alloc, version, a, out)
        }
        Expr::Choice(test, _, a, b) => {
            let end = out.len();
            emit_boxed(alloc, version, b, out)?;
            let other = out.len();
            put(out, Instr::Skip(passed(end, other)?))?;
            emit_boxed(alloc, version, a, out)?;
            put(out, Instr::SkipIfZero(passed(other, out.len())?))?;
            emit_boxed(alloc, version, test, out)
        }
        Expr::Call(function, arguments) => {
            put(out, call(version, *function, arguments.len())?)?;
            emit_operands(alloc, version, arguments, out)
        }
    }
}

#[cycle(emit)]
fn emit_boxed(
    alloc: Global,
    version: &Version,
    expr: &Boxed<Expr>,
    out: &mut Vec<Instr>,
) -> Result<(), AllocError>
    ensures { OnOk result (out.new.items ≡ out.old.items ++ reverse (code_in version.now (expression_of expr.now))) }
{
    emit_expr(alloc, version, expr.get(), out)
}

// The operands' instructions, the last one's first.
#[cycle(emit)]
fn emit_operands(
    alloc: Global,
    version: &Version,
    operands: &Items<Expr>,
    out: &mut Vec<Instr>,
) -> Result<(), AllocError>
    ensures { OnOk result (out.new.items ≡ out.old.items ++ reverse (codes_in version.now (expressions_of operands.now))) }
{
    let operands = operands.as_slice();
    for place in (0..operands.len()).rev() {
        emit_expr(alloc, version, &operands[place], out)?;
    }
    Ok(())
}

/// Puts one instruction behind others.
pub fn put(out: &mut Vec<Instr>, instr: Instr) -> Result<(), AllocError>
    ensures { OnOk result (out.new.items ≡ out.old.items ++ instr ∷ []) }
{
    out.push(instr)?;
    Ok(())
}

// How many instructions stand between two places; 2^32 or more are want of memory.
fn passed(from: usize, to: usize) -> Result<u32, AllocError>
    requires { from ≤ to }
    ensures { IfOk result (λ n. from + n ≡ to) }
{
    u32::try_from(to - from).map_err(|_| AllocError)
}

// The call of a function of the version with so many arguments.
fn call(version: &Version, function: u32, arguments: usize) -> Result<Instr, AllocError>
    ensures { IfOk result (λ i. i ≡ instr.Call function arguments (locals_of (slice_get version.now.functions function))) }
{
    let arguments = u32::try_from(arguments).map_err(|_| AllocError)?;
    let locals = locals_of(version, function)?;
    Ok(Instr::Call {
        function,
        arguments,
        locals,
    })
}

// The end of `x op= e`: what the operation gave in its own type is converted to the cell's, and stored.
fn put_store(
    version: &Version,
    own: u32,
    ty: u32,
    old: bool,
    out: &mut Vec<Instr>,
) -> Result<(), AllocError>
    ensures { OnOk result (out.new.items ≡ out.old.items ++ reverse (conversion_code (own == ty) (type_at version.now.types ty) ++ storing_code old (type_at version.now.types ty) ∷ [])) }
{
    let cell = type_at(version.types(), ty);
    if old {
        put(out, Instr::StoreOld(cell))?;
    } else {
        put(out, Instr::Store(cell))?;
    }
    if own != ty {
        put(out, Instr::Convert(cell))?;
    }
    Ok(())
}

// The load of `x op= e`, behind the place. The value before is put once more where it is the value of the whole.
fn put_load(version: &Version, ty: u32, old: bool, out: &mut Vec<Instr>) -> Result<(), AllocError>
    ensures { OnOk result (out.new.items ≡ out.old.items ++ reverse (instr.Fetch (type_at version.now.types ty) ∷ kept_code old)) }
{
    if old {
        put(out, Instr::Duplicate)?;
    }
    put(out, Instr::Fetch(type_at(version.types(), ty)))
}
