//! The call that adds the code of an expression.
ghost use Rattle.std.specs.Prelude.{◌≡◌, OnOk};
ghost use Rattle.kt_tree.specs.Tree.{expression_of};
ghost use Rattle.kt_genexpr.specs.Emitting.{HasKind};
ghost use Rattle.kt_genexpr.specs.Generates.{Generates};

use crate::emit::emit_expr;
use crate::laws::expression_law;
use kt_code::Code;
use kt_tree::{Expr, Version};
use std::alloc::{AllocError, Global};

/// Puts the code of an expression of a function of the version behind other code: in whatever code it comes to stand
/// there, it does what the expression does. After want of memory nothing is known of that code.
pub fn gen_expr(
    alloc: Global,
    version: &Version,
    function: u32,
    expr: &Expr,
    out: &mut Code,
) -> Result<(), AllocError>
    requires { HasKind version.now function (expression_of expr.now) }
    ensures generates { OnOk result (Generates version.now (expression_of expr.now) out.old.instrs out.new.instrs) }
    ensures others { OnOk result (out.new ≡ record out.old { instrs = out.new.instrs }) }
{
    expression_law(version);
    // Tells where the jumps of the code before lead.
    let _ = out.instrs();
    let mut instrs = Vec::new(alloc);
    emit_expr(alloc, version, expr, &mut instrs)?;
    instrs.reverse();
    out.append(instrs)
}
