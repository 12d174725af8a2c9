//! What an expression is to the one around it, and the value that it has (ISO/IEC 9899:2011, 6.3.2).

ghost use Rattle.std.specs.Prelude.{◌≡◌, Err};
ghost use Rattle.kt_typing.specs.Faults.{bad_type, unknown};
ghost use Rattle.kt_typing.specs.Operands.{of_type, valued, nothing, loaded, value, scalar};
ghost use Rattle.kt_typing.specs.Rules.{is_null, is_null_itself};
ghost use Rattle.std.specs.Option.{option_map};
ghost use Rattle.kt_tree.specs.Kinds.{pointee};
ghost use Rattle.kt_tree.specs.Tree.{expression_of};
ghost use Rattle.kt_operands.specs.declared.refusal.Refusal.TheVariants as refusal;
ghost use Rattle.kt_operands.specs.Judged.{Follows, found};
ghost use Rattle.kt_operands.specs.Views.{scope_of, operand_of, value_of};

use crate::environment::Environment;
use crate::refusal::Refusal;
use crate::tree;
use crate::types::MUTEX;
use kt_tree::{Expr, Request};
use kt_typing::{Fault, Kind, Standing};
use sqlite_items::Boxed;

/// Where it begins inside any parentheses, what it is, a type, and a tree: of a value its own; of a place those of a pointer
/// to it (a local's are those of its value); of a product those of its count.
#[derive(Drop)]
pub struct Operand {
    pub at: u32,
    pub standing: Standing,
    pub ty: u32,
    pub tree: Boxed<Expr>,
}

/// A value: its type and its tree.
#[derive(Drop)]
pub struct Value {
    pub ty: u32,
    pub tree: Boxed<Expr>,
}

/// A broken rule at a place.
pub fn bad_type(at: u32) -> Refusal
    ensures { result ≡ refusal.Fault (bad_type at) }
{
    Refusal::Fault(Fault {
        at,
        kind: Kind::BadType,
    })
}

/// A name or field that there isn't, at a place.
pub fn unknown(at: u32) -> Refusal
    ensures { result ≡ refusal.Fault (unknown at) }
{
    Refusal::Fault(Fault {
        at,
        kind: Kind::Unknown,
    })
}

/// A value as an operand.
pub fn valued(at: u32, value: Value) -> Operand
    ensures { operand_of result ≡ valued at value.ty (expression_of value.tree) }
{
    Operand {
        at,
        standing: Standing::Value,
        ty: value.ty,
        tree: value.tree,
    }
}

/// A call without a result.
pub fn nothing(at: u32, tree: Boxed<Expr>) -> Operand
    ensures { operand_of result ≡ nothing at (expression_of tree) }
{
    Operand {
        at,
        standing: Standing::Nothing,
        ty: MUTEX,
        tree,
    }
}

// The value of the cell at a pointer, of the type that it points to.
fn loaded(env: &Environment<'_>, at: u32, pointer: Value) -> Result<Value, Refusal>
    ensures { Follows value_of (found at (option_map (λ c. loaded c (expression_of pointer.tree)) (pointee (scope_of env.now) pointer.ty))) result }
{
    match env.pointee(pointer.ty) {
        Some(ty) => {
            let operands = tree::one_operand(env.alloc, pointer.tree)?;
            let tree = tree::requested(env.alloc, Request::Load, Some(ty), operands)?;
            Ok(Value { ty, tree })
        }
        None => {
            drop(pointer);
            Err(bad_type(at))
        }
    }
}

/// Whether what stands so converts to pointers as null.
pub fn is_null(standing: Standing) -> bool
    ensures { result ≡ is_null standing }
{
    match standing {
        Standing::Zero => true,
        Standing::Null => true,
        _ => false,
    }
}

/// Whether what stands so is `NULL`, or a choice of null and null.
pub fn is_null_itself(standing: Standing) -> bool
    ensures { result ≡ is_null_itself standing }
{
    match standing {
        Standing::Null => true,
        _ => false,
    }
}

impl Operand {
    /// The type and the tree, as a value of that type.
    pub fn as_value(self) -> Value
        ensures { value_of result ≡ of_type self.ty (expression_of self.tree) }
    {
        Value {
            ty: self.ty,
            tree: self.tree,
        }
    }

    // It has no value.
    fn no_value(self, at: u32) -> Result<Value, Refusal>
        ensures { result ≡ Err (refusal.Fault (bad_type at)) }
    {
        drop(self);
        Err(bad_type(at))
    }

    /// The value of the operand, where it has one without help: null has none.
    pub fn value(self, env: &Environment<'_>, at: u32) -> Result<Value, Refusal>
        ensures { Follows value_of (found at (value (scope_of env.now) (operand_of self))) result }
    {
        match self.standing {
            Standing::Value => Ok(self.as_value()),
            Standing::Zero => Ok(self.as_value()),
            Standing::Local(_) => Ok(self.as_value()),
            Standing::Cell => loaded(env, at, self.as_value()),
            Standing::Null => self.no_value(at),
            Standing::Whole => self.no_value(at),
            Standing::Elements => self.no_value(at),
            Standing::Size(_) => self.no_value(at),
            Standing::Product(_) => self.no_value(at),
            Standing::Nothing => self.no_value(at),
            Standing::Entry(_) => self.no_value(at),
        }
    }

    /// The value of the operand, null being a pointer to `char`.
    pub fn scalar(self, env: &Environment<'_>, at: u32) -> Result<Value, Refusal>
        ensures { Follows value_of (found at (scalar (scope_of env.now) (operand_of self))) result }
    {
        if is_null_itself(self.standing) {
            return Ok(self.as_value());
        }
        self.value(env, at)
    }
}
