//! What an expression is to the expression around it, and which values and conversions it allows
//! (ISO/IEC 9899:2011, 6.3).

ghost use Rattle.std.specs.Prelude.{◌≡◌, ℕ, pos, map, IfOk, Ok};
ghost use Rattle.kt_tree.specs.Tree.{expression_of};
ghost use Rattle.kt_names.specs.Judges.{Judges};
ghost use Rattle.kt_names.specs.Views.{environment_of, operand_of, value_of};
ghost use Rattle.kt_names.specs.Checked.{and_then};
ghost use Rattle.kt_names.specs.Operands.{Zero, value_of_type, number_value, zero, null_of, load, value, scalar, tested, integer, pointer, converted_to, convert_value, convert_null, convert};
ghost use Rattle.kt_names.specs.Types.{char, int, pointer_to, is_integer, is_pointer};

use crate::ctype::CType;
use crate::environment::Environment;
use crate::fault::CheckFault;
use crate::node;
use kt_tree::{Constant, Expr, Operation};

/// What an expression is to the expression around it.
#[derive(Drop)]
pub enum Operand {
    /// A value of a type.
    Valued(CType, Expr),
    /// The literal `0`, an `int`, which converts to pointers too.
    Zero,
    Null,
    /// A local of a type.
    LocalPlace(u32, CType),
    /// The cell of a type at a pointer.
    CellPlace(CType, Expr),
    /// An array of elements of a type, with a pointer to the first.
    ArrayPlace(CType, Expr),
    /// A struct or a mutex of a type, with a pointer to it.
    WholePlace(CType, Expr),
    /// A call that gives no value.
    NoResult(Expr),
}

/// A value and its type.
#[derive(Drop)]
pub struct Value {
    pub ty: CType,
    pub expression: Expr,
}

/// A number of a type.
pub fn number_value(env: &Environment<'_>, t: CType, number: i64) -> Expr
    ensures { expression_of result ≡ number_value (environment_of env.now) t number }
{
    Expr::Constant(Constant::Number(number), env.place(t))
}

/// The value of the literal `0`.
pub fn zero(env: &Environment<'_>) -> Expr
    ensures { expression_of result ≡ zero (environment_of env.now) }
{
    number_value(env, CType::int(), 0)
}

/// Null, of a type.
pub(crate) fn null_of(env: &Environment<'_>, t: CType) -> Expr
    ensures { expression_of result ≡ null_of (environment_of env.now) t }
{
    Expr::Constant(Constant::Null, env.place(t))
}

/// Null, of a pointer type.
pub fn null_value(env: &Environment<'_>, ty: CType) -> Value
    ensures { value_of result ≡ value_of_type ty (null_of (environment_of env.now) ty) }
{
    let expression = null_of(env, ty);
    Value { ty, expression }
}

/// Null, as a condition takes it.
fn null_text(env: &Environment<'_>) -> Value
    ensures { value_of result ≡ value_of_type (pointer_to char) (null_of (environment_of env.now) (pointer_to char)) }
{
    null_value(env, CType::text())
}

/// Null, and the literal `0`, as a value of a pointer type.
fn convert_null(env: &Environment<'_>, t: CType, up: u32) -> Result<Expr, CheckFault>
    ensures { Judges expression_of result (convert_null (environment_of env.now) t up) }
{
    if t.is_pointer() {
        Ok(null_of(env, t))
    } else {
        Err(CheckFault::BadType { at: up })
    }
}

/// The literal `0`, as a value of a type.
fn convert_zero(env: &Environment<'_>, t: CType, up: u32) -> Result<Expr, CheckFault>
    ensures { Judges expression_of result (convert (environment_of env.now) t up up Zero) }
{
    if t.is_integer() {
        zero_value(env).converted_to(env, t)
    } else {
        convert_null(env, t, up)
    }
}

/// The literal `0`, an `int`.
fn zero_value(env: &Environment<'_>) -> Value
    ensures { value_of result ≡ value_of_type int (zero (environment_of env.now)) }
{
    let expression = zero(env);
    Value {
        ty: CType::int(),
        expression,
    }
}

/// The value of the cell of a type at a pointer.
fn load(env: &Environment<'_>, t: CType, pointer: Expr) -> Result<Expr, CheckFault>
    ensures { Judges expression_of result (Ok (load (environment_of env.now) t (expression_of pointer))) }
{
    let loaded = node::loaded(env.alloc, env.place(t), pointer)?;
    Ok(loaded)
}

impl Operand {
    /// Lets the operand go.
    pub fn let_go(self) {
        drop(self)
    }

    /// The value of an operand that stands at `own` in an expression that begins at `up` (6.3.2.1). An array is a pointer
    /// to its first element; a struct or mutex has no value, nor has a call without a result.
    pub fn value(self, env: &Environment<'_>, own: u32, up: u32) -> Result<Value, CheckFault>
        ensures { Judges value_of result (value (environment_of env.now) own up (operand_of self)) }
    {
        match self {
            Operand::Valued(ty, expression) => Ok(Value { ty, expression }),
            Operand::Zero => Ok(Value {
                ty: CType::int(),
                expression: zero(env),
            }),
            Operand::Null => Err(CheckFault::BadType { at: up }),
            Operand::LocalPlace(local, ty) => Ok(Value {
                ty,
                expression: Expr::Local(local),
            }),
            Operand::CellPlace(ty, pointer) => {
                let expression = load(env, ty, pointer)?;
                Ok(Value { ty, expression })
            }
            Operand::ArrayPlace(ty, expression) => match ty.pointer_to() {
                Ok(ty) => Ok(Value { ty, expression }),
                Err(fault) => {
                    drop(expression);
                    Err(fault)
                }
            },
            Operand::WholePlace(_, gone) => {
                drop(gone);
                Err(CheckFault::BadType { at: own })
            }
            Operand::NoResult(gone) => {
                drop(gone);
                Err(CheckFault::BadType { at: up })
            }
        }
    }

    /// A value that a condition takes: an integer, or a pointer, which may be null.
    pub fn scalar(self, env: &Environment<'_>, own: u32, up: u32) -> Result<Value, CheckFault>
        ensures { Judges value_of result (scalar (environment_of env.now) own up (operand_of self)) }
    {
        match self {
            Operand::Null => {
                drop(self);
                Ok(null_text(env))
            }
            Operand::Valued(_, _) => self.value(env, own, up),
            Operand::Zero => self.value(env, own, up),
            Operand::LocalPlace(_, _) => self.value(env, own, up),
            Operand::CellPlace(_, _) => self.value(env, own, up),
            Operand::ArrayPlace(_, _) => self.value(env, own, up),
            Operand::WholePlace(_, _) => self.value(env, own, up),
            Operand::NoResult(_) => self.value(env, own, up),
        }
    }

    /// What the operand at `own` is as a value of a type, as assignment, initialisation, arguments and `return` convert it
    /// (6.5.16.1); `up` is the place of the fault where it doesn't convert.
    pub fn convert(
        self,
        env: &Environment<'_>,
        t: CType,
        own: u32,
        up: u32,
    ) -> Result<Expr, CheckFault>
        ensures { Judges expression_of result (convert (environment_of env.now) t own up (operand_of self)) }
    {
        match self {
            Operand::Null => {
                drop(self);
                convert_null(env, t, up)
            }
            Operand::Zero => {
                drop(self);
                convert_zero(env, t, up)
            }
            Operand::Valued(_, _) => self.converted(env, t, own, up),
            Operand::LocalPlace(_, _) => self.converted(env, t, own, up),
            Operand::CellPlace(_, _) => self.converted(env, t, own, up),
            Operand::ArrayPlace(_, _) => self.converted(env, t, own, up),
            Operand::WholePlace(_, _) => self.converted(env, t, own, up),
            Operand::NoResult(_) => self.converted(env, t, own, up),
        }
    }

    /// The operand's value, converted.
    #[tactic(auto, using(crate::proofs::Parts::parts))]
    fn converted(
        self,
        env: &Environment<'_>,
        t: CType,
        own: u32,
        up: u32,
    ) -> Result<Expr, CheckFault>
        ensures { Judges expression_of result (and_then (value (environment_of env.now) own up (operand_of self)) (convert_value (environment_of env.now) t up)) }
    {
        let value = self.value(env, own, up)?;
        value.convert(env, t, up)
    }

    /// The value of an integer.
    #[tactic(auto, using(crate::proofs::Parts::parts))]
    pub fn integer(self, env: &Environment<'_>, own: u32, up: u32) -> Result<Value, CheckFault>
        ensures { Judges value_of result (integer (environment_of env.now) own up (operand_of self)) }
    {
        let value = self.value(env, own, up)?;
        value.integer(up)
    }

    /// The value of a pointer.
    #[tactic(auto, using(crate::proofs::Parts::parts))]
    pub fn pointer(self, env: &Environment<'_>, own: u32, up: u32) -> Result<Value, CheckFault>
        ensures { Judges value_of result (pointer (environment_of env.now) own up (operand_of self)) }
    {
        let value = self.value(env, own, up)?;
        value.pointer(up)
    }
}

impl Value {
    /// Lets the value go.
    pub fn let_go(self) {
        drop(self)
    }

    /// The value, where it is an integer.
    fn integer(self, up: u32) -> Result<Value, CheckFault>
        ensures { Judges value_of result (tested is_integer up (value_of self)) }
    {
        if self.ty.is_integer() {
            Ok(self)
        } else {
            drop(self);
            Err(CheckFault::BadType { at: up })
        }
    }

    /// The value, where it is a pointer.
    fn pointer(self, up: u32) -> Result<Value, CheckFault>
        ensures { Judges value_of result (tested is_pointer up (value_of self)) }
    {
        if self.ty.is_pointer() {
            Ok(self)
        } else {
            drop(self);
            Err(CheckFault::BadType { at: up })
        }
    }

    /// The value in another type, by number.
    pub fn converted_to(self, env: &Environment<'_>, t: CType) -> Result<Expr, CheckFault>
        ensures { Judges expression_of result (Ok (converted_to (environment_of env.now) t (value_of self))) }
    {
        if self.ty.is(t) {
            return Ok(self.expression);
        }
        let ty = env.place(t);
        let converted = node::operated_on(env.alloc, Operation::Convert, ty, self.expression)?;
        Ok(converted)
    }

    /// The value as one of another type: integers convert by value, and pointers to their own type.
    fn convert(self, env: &Environment<'_>, t: CType, up: u32) -> Result<Expr, CheckFault>
        ensures { Judges expression_of result (convert_value (environment_of env.now) t up (value_of self)) }
    {
        if t.is_integer() && self.ty.is_integer() {
            return self.converted_to(env, t);
        }
        if t.is_pointer() && self.ty.is(t) {
            return Ok(self.expression);
        }
        drop(self);
        Err(CheckFault::BadType { at: up })
    }
}
