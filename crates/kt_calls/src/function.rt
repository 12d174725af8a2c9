//! Calls of the file's functions (ISO/IEC 9899:2011, 6.5.2.2).

ghost use Rattle.std.specs.Prelude.{◌≡◌, true, Some};
ghost use Rattle.kt_tree.specs.Typed.{same_types};
ghost use Rattle.kt_typing.specs.Calls.{converted_all, called_with};
ghost use Rattle.kt_typing.specs.Operands.{types_of};
ghost use Rattle.kt_operands.specs.Judged.{Follows};
ghost use Rattle.kt_operands.specs.Views.{scope_of, head_of, operand_of};
ghost use Rattle.kt_calls.specs.Arguments.{operands_of, values_of};

use crate::argument::Answer;
use crate::values::{converted_all, set_apart};
use kt_operands::environment::Environment;
use kt_operands::given::given;
use kt_operands::meaning::Head;
use kt_operands::operand::{Operand, Value};
use kt_operands::tree;

// A call of the function of a number on values of its parameters' types.
fn called_with(
    env: &Environment<'_>,
    at: u32,
    function: u32,
    head: &Head,
    values: Vec<Value>,
) -> Answer
    requires { same_types (head_of head.now).parameters (types_of (values_of values)) ≡ true }
    ensures { Follows operand_of (called_with at function (head_of head.now) (Some (values_of values))) result }
{
    let apart = set_apart(env.alloc, values)?;
    let tree = tree::called(env.alloc, function, apart.trees)?;
    Ok(given(at, head.result, tree))
}

/// A call of the function of a number on arguments that convert to its parameters' types.
pub(crate) fn called(
    env: &Environment<'_>,
    at: u32,
    function: u32,
    head: &Head,
    arguments: Vec<Operand>,
) -> Answer
    ensures { Follows operand_of (called_with at function (head_of head.now) (converted_all (scope_of env.now) (head_of head.now).parameters (operands_of arguments))) result }
{
    match converted_all(env, at, head.parameters.as_slice(), arguments) {
        Ok(values) => called_with(env, at, function, head, values),
        Err(e) => Err(e),
    }
}
