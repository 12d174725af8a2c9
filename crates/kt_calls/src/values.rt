//! Arguments as values.

ghost use Rattle.std.specs.Prelude.{◌≡◌, map, IfOk};
ghost use Rattle.kt_tree.specs.Tree.{expressions_of};
ghost use Rattle.kt_typing.specs.Calls.{converted_all, plain_values};
ghost use Rattle.kt_typing.specs.Operands.{types_of, trees_of};
ghost use Rattle.kt_operands.specs.Judged.{Follows, found};
ghost use Rattle.kt_operands.specs.Views.{scope_of};
ghost use Rattle.kt_calls.specs.Arguments.{operands_of, values_of};

use kt_operands::environment::Environment;
use kt_operands::operand::{Operand, Value, bad_type};
use kt_operands::refusal::Refusal;
use kt_tree::Expr;
use sqlite_items::Items;
use std::alloc::{AllocError, Global};

/// The types of values, and their trees.
#[derive(Drop)]
pub(crate) struct Apart {
    pub types: Vec<u32>,
    pub trees: Items<Expr>,
}

// Values, one by one, as their types and their trees.
fn listed(alloc: Global, mut values: Vec<Value>) -> Result<Apart, AllocError>
    ensures { IfOk result (λ a. (a.types.items ≡ map (λ v. v.ty) values.items) × (a.trees ≡ map (λ v. v.tree) values.items)) }
{
    let mut types = Vec::new(alloc);
    let mut trees = Items::new(alloc);
    values.reverse();
    while let Some(value) = values.pop() {
        types.push(value.ty)?;
        trees.push(value.tree.into_inner())?;
    }
    Ok(Apart { types, trees })
}

/// Values, as their types and their trees.
pub(crate) fn set_apart(alloc: Global, values: Vec<Value>) -> Result<Apart, AllocError>
    ensures { IfOk result (λ a. (a.types.items ≡ types_of (values_of values)) × (expressions_of a.trees ≡ trees_of (values_of values))) }
{
    match listed(alloc, values) {
        Ok(apart) => Ok(apart),
        Err(e) => Err(e),
    }
}

/// Arguments, each converted to the type of a parameter.
pub(crate) fn converted_all(
    env: &Environment<'_>,
    at: u32,
    parameters: &[u32],
    mut arguments: Vec<Operand>,
) -> Result<Vec<Value>, Refusal>
    ensures { Follows values_of (found at (converted_all (scope_of env.now) parameters.now (operands_of arguments))) result }
{
    let mut values = Vec::new(env.alloc);
    arguments.reverse();
    for ty in parameters {
        match arguments.pop() {
            Some(x) => match x.convert(env, at, *ty) {
                Ok(value) => values.push(value)?,
                Err(e) => return Err(e),
            },
            None => return Err(bad_type(at)),
        }
    }
    if !arguments.is_empty() {
        return Err(bad_type(at));
    }
    Ok(values)
}

/// Arguments, each as the value that it is.
pub(crate) fn plain_values(
    env: &Environment<'_>,
    at: u32,
    mut arguments: Vec<Operand>,
) -> Result<Vec<Value>, Refusal>
    ensures { Follows values_of (found at (plain_values (scope_of env.now) (operands_of arguments))) result }
{
    let mut values = Vec::new(env.alloc);
    arguments.reverse();
    while let Some(x) = arguments.pop() {
        let value = x.value(env, at)?;
        values.push(value)?;
    }
    Ok(values)
}
