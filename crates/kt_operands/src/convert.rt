//! Conversions (ISO/IEC 9899:2011, 6.3).

ghost use Rattle.std.specs.Prelude.{◌≡◌, IfOk};
ghost use Rattle.kt_typing.specs.Rules.{null_value, converted, convert};
ghost use Rattle.kt_operands.specs.Judged.{Follows, found};
ghost use Rattle.kt_operands.specs.Views.{scope_of, operand_of, value_of};

use crate::environment::Environment;
use crate::operand::{Operand, Value, bad_type, is_null};
use crate::refusal::Refusal;
use crate::tree;
use kt_tree::Operation;
use std::alloc::AllocError;

/// Null as a value of a pointer type.
pub fn null_value(env: &Environment<'_>, ty: u32, operand: Operand) -> Result<Value, AllocError>
    ensures { IfOk result (λ v. value_of v ≡ null_value ty (operand_of operand)) }
{
    let tree = tree::null_tree(operand.tree, env.alloc, ty)?;
    Ok(Value { ty, tree })
}

/// The value as one of a type: of the same type, or of an integer type by its number.
pub fn converted(env: &Environment<'_>, at: u32, ty: u32, value: Value) -> Result<Value, Refusal>
    ensures { Follows value_of (found at (converted (scope_of env.now) ty (value_of value))) result }
{
    if value.ty == ty {
        return Ok(value);
    }
    if !env.takes_operation(Operation::Convert, ty, &[value.ty]) {
        drop(value);
        return Err(bad_type(at));
    }
    let operands = tree::one_operand(env.alloc, value.tree)?;
    let tree = tree::operated(env.alloc, Operation::Convert, ty, operands)?;
    Ok(Value { ty, tree })
}

impl Operand {
    /// The operand as a value of a type, as assignment, initialisation, arguments and `return` convert it.
    #[tactic(auto, using(crate::proofs::Steps::steps))]
    pub fn convert(self, env: &Environment<'_>, at: u32, ty: u32) -> Result<Value, Refusal>
        ensures { Follows value_of (found at (convert (scope_of env.now) ty (operand_of self))) result }
    {
        if env.is_pointer(ty) && is_null(self.standing) {
            return Ok(null_value(env, ty, self)?);
        }
        let value = self.value(env, at)?;
        converted(env, at, ty, value)
    }
}
