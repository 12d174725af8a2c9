//! Constants as initial values of globals (ISO/IEC 9899:2011, 6.7.9).

ghost use Rattle.std.specs.Prelude.{◌≡◌, option_and_then};
ghost use Rattle.kt_operands.specs.Views.{environment_of, scope_of};
ghost use Rattle.kt_tree.specs.Kinds.{type_at};
ghost use Rattle.kt_program.specs.Globals.{is_integer_of, is_pointer_of, is_mutex_of, is_constant_of, is_initial};

use kt_operands::environment::Environment;
use kt_operands::types::CHAR;
use kt_syntax::Constant;
use kt_types::Ty;

// Whether a constant is an integer of a type whose greatest number is this one and whose least is one less than its negative.
fn is_integer_of(greatest: u64, constant: &Constant) -> bool
    ensures char { greatest ≡ 127 → result ≡ is_integer_of 7 constant.now }
    ensures int { greatest ≡ 2147483647 → result ≡ is_integer_of 31 constant.now }
    ensures long { greatest ≡ 9223372036854775807 → result ≡ is_integer_of 63 constant.now }
{
    match constant {
        Constant::Number(n) => n.value <= greatest,
        Constant::Negative(n) => n.value == 0 || n.value - 1 <= greatest,
        Constant::Character(b) => u64::from(*b) <= greatest,
        Constant::Eof => true,
        Constant::Text(_, _) => false,
        Constant::Null => false,
        Constant::MutexInitializer => false,
    }
}

// Whether a constant is one of a pointer to a type: a string where that is `char`, `NULL` or the literal `0`.
fn is_pointer_of(ty: u32, constant: &Constant) -> bool
    ensures { result ≡ is_pointer_of ty constant.now }
{
    match constant {
        Constant::Null => true,
        Constant::Number(n) => n.value == 0 && !n.long && !n.hexadecimal,
        Constant::Text(_, _) => ty == CHAR,
        Constant::Negative(_) => false,
        Constant::Character(_) => false,
        Constant::Eof => false,
        Constant::MutexInitializer => false,
    }
}

fn is_mutex_of(constant: &Constant) -> bool
    ensures { result ≡ is_mutex_of constant.now }
{
    matches!(constant, Constant::MutexInitializer)
}

// Whether a constant is an initial value of a type.
fn is_constant_of(ty: Option<Ty>, constant: &Constant) -> bool
    ensures { result ≡ is_constant_of ty constant.now }
{
    match ty {
        Some(Ty::Char) => is_integer_of(127, constant),
        Some(Ty::Int) => is_integer_of(2_147_483_647, constant),
        Some(Ty::Long) => is_integer_of(9_223_372_036_854_775_807, constant),
        Some(Ty::Mutex) => is_mutex_of(constant),
        Some(Ty::Ptr(t)) => is_pointer_of(t, constant),
        Some(Ty::Struct(_)) => false,
        Some(Ty::Array(_, _)) => false,
        None => false,
    }
}

// The type at a place.
fn type_of(env: &Environment<'_>, ty: Option<u32>) -> Option<Ty>
    ensures { result ≡ option_and_then (type_at (scope_of env.now)) ty }
{
    let ty = ty?;
    env.ty(ty)
}

/// Whether a global of a type, or array of them, may have the initial value.
pub fn is_initial(
    env: &Environment<'_>,
    ty: Option<u32>,
    array: bool,
    initial: &Option<Constant>,
) -> bool
    ensures { result ≡ is_initial (environment_of env.now) ty array initial.now }
{
    match initial {
        None => true,
        Some(constant) => !array && is_constant_of(type_of(env, ty), constant),
    }
}
