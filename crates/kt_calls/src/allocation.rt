//! Allocations of sizes, products and numbers of bytes.

ghost use Rattle.std.specs.Prelude.{[], ◌∷◌, false};
ghost use Rattle.kt_tree.specs.Kinds.{char_type};
ghost use Rattle.kt_typing.specs.Operands.{value};
ghost use Rattle.kt_typing.specs.Rules.{with_value};
ghost use Rattle.kt_typing.specs.Calls.{allocated, allocation_of, allocation, zeroed};
ghost use Rattle.kt_operands.specs.Judged.{Follows};
ghost use Rattle.kt_operands.specs.Views.{environment_of, scope_of, operand_of, value_of};
ghost use Rattle.kt_calls.specs.Arguments.{operands_of};

use crate::argument::{Answer, only, two};
use kt_operands::environment::Environment;
use kt_operands::given::requested_of;
use kt_operands::operand::{Operand, Value, bad_type};
use kt_operands::types::{CHAR, INT};
use kt_operators::operator::is_size;
use kt_tree::Request;
use kt_typing::Standing;

// An allocation of a count of elements of a type.
fn allocated(env: &Environment<'_>, at: u32, zeros: bool, element: u32, count: Value) -> Answer
    ensures { Follows operand_of (allocated (environment_of env.now) at zeros element (value_of count)) result }
{
    match env.pointer(element) {
        Some(ty) => requested_of(env, at, Request::Allocate(element, zeros), Some(ty), count),
        None => {
            drop(count);
            Err(bad_type(at))
        }
    }
}

// An allocation of a number of elements of a type, which is a value of its own.
#[tactic(auto, using(kt_operators::proofs::Steps::steps))]
fn allocated_by(env: &Environment<'_>, at: u32, zeros: bool, element: u32, count: Operand) -> Answer
    ensures { Follows operand_of (with_value at (value (scope_of env.now) (operand_of count)) (allocated (environment_of env.now) at zeros element)) result }
{
    match count.value(env, at) {
        Ok(count) => allocated(env, at, zeros, element, count),
        Err(e) => Err(e),
    }
}

// `malloc` of an argument.
fn allocation_of(env: &Environment<'_>, at: u32, x: Operand) -> Answer
    ensures { Follows operand_of (allocation_of (environment_of env.now) at (operand_of x) x.standing) result }
{
    match x.standing {
        Standing::Size(_) => {
            let one = Value {
                ty: INT,
                tree: x.tree,
            };
            allocated(env, at, false, x.ty, one)
        }
        Standing::Product(element) => allocated(env, at, false, element, x.as_value()),
        Standing::Value => allocated_by(env, at, false, CHAR, x),
        Standing::Zero => allocated_by(env, at, false, CHAR, x),
        Standing::Null => allocated_by(env, at, false, CHAR, x),
        Standing::Local(_) => allocated_by(env, at, false, CHAR, x),
        Standing::Cell => allocated_by(env, at, false, CHAR, x),
        Standing::Whole => allocated_by(env, at, false, CHAR, x),
        Standing::Elements => allocated_by(env, at, false, CHAR, x),
        Standing::Nothing => allocated_by(env, at, false, CHAR, x),
        Standing::Entry(_) => allocated_by(env, at, false, CHAR, x),
    }
}

/// `malloc`
#[tactic(auto, using(crate::proofs::Taken::ones))]
pub(crate) fn allocation(env: &Environment<'_>, at: u32, arguments: Vec<Operand>) -> Answer
    ensures { Follows operand_of (allocation (environment_of env.now) at (operands_of arguments)) result }
{
    match only(arguments) {
        Some(x) => allocation_of(env, at, x),
        None => Err(bad_type(at)),
    }
}

// `calloc` of two arguments.
fn zeroed_by(env: &Environment<'_>, at: u32, count: Operand, size: Operand) -> Answer
    ensures { Follows operand_of (zeroed (environment_of env.now) at (operand_of count ∷ operand_of size ∷ [])) result }
{
    if !is_size(size.standing) {
        drop((count, size));
        return Err(bad_type(at));
    }
    let element = size.ty;
    drop(size);
    allocated_by(env, at, true, element, count)
}

/// `calloc`
#[tactic(auto, using(crate::proofs::Taken::twos))]
pub(crate) fn zeroed(env: &Environment<'_>, at: u32, arguments: Vec<Operand>) -> Answer
    ensures { Follows operand_of (zeroed (environment_of env.now) at (operands_of arguments)) result }
{
    match two(arguments) {
        Some((count, size)) => zeroed_by(env, at, count, size),
        None => Err(bad_type(at)),
    }
}
