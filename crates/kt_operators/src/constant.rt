//! Constants, names and sizes (ISO/IEC 9899:2011, 6.5.1, 6.5.3.4).

ghost use Rattle.std.specs.Prelude.{◌≡◌, pos, negsuc, option_and_then, Ok};
ghost use Rattle.kt_tree.specs.Kinds.{int_type, is_number_of, is_constant};
ghost use Rattle.kt_tree.specs.declared.expr.Constant.TheVariants as constant;
ghost use Rattle.kt_tree.specs.Tree.{Constant', LocalRead};
ghost use Rattle.kt_typing.specs.declared.standing.Standing.TheVariants as standing;
ghost use Rattle.kt_typing.specs.Operands.{operand};
ghost use Rattle.kt_typing.specs.Environment.{base_type, type_named};
ghost use Rattle.kt_typing.specs.Rules.{constant_at, number_type, number, null_at, meant, size};
ghost use Rattle.kt_operands.specs.Judged.{Follows};
ghost use Rattle.kt_operands.specs.Views.{environment_of, scope_of, operand_of, meaning_of};

use kt_grammar::{Base, TypeName};
use kt_lex::Number;
use kt_operands::environment::Environment;
use kt_operands::meaning::Meaning;
use kt_operands::operand::{Operand, Value, bad_type, unknown, valued};
use kt_operands::refusal::Refusal;
use kt_operands::tree;
use kt_operands::types::{CHAR, INT, LONG, MUTEX};
use kt_tree::Constant;
use kt_typing::Standing;

// The number fits `int`, or `long`.
fn is_number_of(n: i64, ty: u32) -> bool
    ensures { result ≡ is_number_of n ty }
{
    (ty == INT && -2_147_483_648 <= n && n <= 2_147_483_647) || ty == LONG
}

// The constant is one of the type.
fn is_constant(env: &Environment<'_>, c: Constant, ty: u32) -> bool
    ensures { result ≡ is_constant (scope_of env.now) c ty }
{
    match c {
        Constant::Number(n) => is_number_of(n, ty),
        Constant::Null => env.is_pointer(ty),
        Constant::Global(global) => match env.global(global) {
            Some(e) => env.points_to(ty, e),
            None => false,
        },
        Constant::Literal(literal) => env.is_literal(literal) && env.points_to(ty, CHAR),
    }
}

// A constant of a type.
fn constant_at(env: &Environment<'_>, at: u32, c: Constant, ty: u32) -> Result<Operand, Refusal>
    ensures { Follows operand_of (constant_at (environment_of env.now) at c ty) result }
{
    if !is_constant(env, c, ty) {
        return Err(bad_type(at));
    }
    let tree = tree::constant(env.alloc, c, ty)?;
    Ok(valued(at, Value { ty, tree }))
}

// The type of a number: an `int` has no suffix and is at most 2,147,483,647 (6.4.4.1).
fn number_type(n: Number) -> u32
    ensures { result ≡ number_type n }
{
    if n.long || n.value > 2_147_483_647 {
        LONG
    } else {
        INT
    }
}

// The literal `0`.
fn zero(env: &Environment<'_>, at: u32) -> Result<Operand, Refusal>
    ensures { Follows operand_of (Ok (operand at standing.Zero int_type (Constant' (constant.Number (pos 0)) int_type))) result }
{
    let tree = tree::constant(env.alloc, Constant::Number(0), INT)?;
    Ok(Operand {
        at,
        standing: Standing::Zero,
        ty: INT,
        tree,
    })
}

/// A number; the one spelled `0` converts to pointers.
pub fn number(env: &Environment<'_>, at: u32, n: Number) -> Result<Operand, Refusal>
    ensures { Follows operand_of (number (environment_of env.now) at n) result }
{
    if n.value == 0 && !n.long && !n.hexadecimal {
        return zero(env, at);
    }
    match i64::try_from(n.value) {
        Ok(value) => constant_at(env, at, Constant::Number(value), number_type(n)),
        Err(_) => Err(bad_type(at)),
    }
}

/// A character.
pub fn character(env: &Environment<'_>, at: u32, b: u8) -> Result<Operand, Refusal>
    ensures { Follows operand_of (constant_at (environment_of env.now) at (constant.Number (pos b)) int_type) result }
{
    constant_at(env, at, Constant::Number(i64::from(b)), INT)
}

/// `EOF`
pub fn end_of_file(env: &Environment<'_>, at: u32) -> Result<Operand, Refusal>
    ensures { Follows operand_of (constant_at (environment_of env.now) at (constant.Number (negsuc 0)) int_type) result }
{
    constant_at(env, at, Constant::Number(-1), INT)
}

/// The string at a place.
pub fn string(env: &Environment<'_>, at: u32) -> Result<Operand, Refusal>
    ensures { Follows operand_of (constant_at (environment_of env.now) at (constant.Literal ((environment_of env.now).literal at)) (environment_of env.now).text) result }
{
    let literal = env.literal(at);
    constant_at(env, at, Constant::Literal(literal), env.text)
}

/// `NULL`
pub fn null(env: &Environment<'_>, at: u32) -> Result<Operand, Refusal>
    ensures { Follows operand_of (Ok (null_at (environment_of env.now) at)) result }
{
    let tree = tree::constant(env.alloc, Constant::Null, env.text)?;
    Ok(Operand {
        at,
        standing: Standing::Null,
        ty: env.text,
        tree,
    })
}

// What stands so at a place, of a constant.
fn fixed(
    env: &Environment<'_>,
    at: u32,
    standing: Standing,
    ty: u32,
    c: Constant,
) -> Result<Operand, Refusal>
    ensures { Follows operand_of (Ok (operand at standing ty (Constant' c ty))) result }
{
    let tree = tree::constant(env.alloc, c, ty)?;
    Ok(Operand {
        at,
        standing,
        ty,
        tree,
    })
}

// A local.
fn local(env: &Environment<'_>, at: u32, number: u32, ty: u32) -> Result<Operand, Refusal>
    ensures { Follows operand_of (Ok (operand at (standing.Local number) ty (LocalRead number))) result }
{
    let tree = tree::local(env.alloc, number)?;
    Ok(Operand {
        at,
        standing: Standing::Local(number),
        ty,
        tree,
    })
}

/// What a name or a word stands for, where it stands by itself; where it stands for nothing, the fault is at the second place.
pub fn meant(
    env: &Environment<'_>,
    at: u32,
    named: u32,
    meaning: Meaning,
) -> Result<Operand, Refusal>
    ensures { Follows operand_of (meant at named (meaning_of meaning)) result }
{
    match meaning {
        Meaning::Missing => Err(unknown(named)),
        Meaning::Barred => Err(bad_type(named)),
        Meaning::Routine(_) => Err(bad_type(named)),
        Meaning::Fixed(standing, ty, c) => fixed(env, at, standing, ty, c),
        Meaning::Local(number, ty) => local(env, at, number, ty),
    }
}

// The type of a base.
fn base_type(env: &Environment<'_>, base: &Base) -> Option<u32>
    ensures { result ≡ base_type (environment_of env.now) base.now }
{
    match base {
        Base::Char => Some(CHAR),
        Base::Int => Some(INT),
        Base::Long => Some(LONG),
        Base::Mutex => Some(MUTEX),
        Base::Struct(name) => env.struct_named(name.word.as_bytes()),
    }
}

// The type of pointers to a type, where there is one.
fn pointer(env: &Environment<'_>, ty: Option<u32>) -> Option<u32>
    ensures { result ≡ option_and_then (environment_of env.now).pointer ty }
{
    let ty = ty?;
    env.pointer(ty)
}

/// The type of a type name.
pub fn type_named(env: &Environment<'_>, name: &TypeName) -> Option<u32>
    ensures { result ≡ type_named (environment_of env.now) name.now }
{
    let mut ty = base_type(env, &name.base);
    for _star in 0..name.stars {
        ty = pointer(env, ty);
    }
    ty
}

/// `sizeof` of a type, where there is such a one, which or whose struct's name stands at the second place.
pub fn size(env: &Environment<'_>, at: u32, named: u32, name: &TypeName) -> Result<Operand, Refusal>
    ensures { Follows operand_of (size (environment_of env.now) at named name.now) result }
{
    let Some(ty) = type_named(env, name) else {
        return Err(bad_type(at));
    };
    let tree = tree::constant(env.alloc, Constant::Number(1), INT)?;
    Ok(Operand {
        at,
        standing: Standing::Size(named),
        ty,
        tree,
    })
}
