//! Expressions without operands.

ghost use Rattle.std.specs.Prelude.{pos, negsuc, Ok, Err};
ghost use Rattle.kt_tree.specs.declared.expr.Constant.TheVariants as constant;
ghost use Rattle.kt_tree.specs.Kinds.{int_type};
ghost use Rattle.kt_typing.specs.Calls.{leaf};
ghost use Rattle.kt_typing.specs.Faults.{bad_type};
ghost use Rattle.kt_typing.specs.Rules.{number, constant_at, null_at, meant, size};
ghost use Rattle.kt_typing.specs.Terms.{struct_place};
ghost use Rattle.kt_operands.specs.Views.{environment_of, operand_of};
ghost use Rattle.kt_operators.specs.Judged.{Judges};

use crate::spelled::struct_place;
use kt_grammar::{Name, RuleWord, TypeName};
use kt_lex::Number;
use kt_operands::environment::Environment;
use kt_operands::operand::bad_type;
use kt_operators::constant;
use kt_operators::forms::Answer;

/// A number.
#[tactic(auto, using(kt_calls::proofs::Leaves::leaves))]
pub(crate) fn number(env: &Environment<'_>, at: u32, n: Number) -> Answer
    ensures { Judges operand_of (leaf (number (environment_of env.now) at n)) result }
{
    constant::number(env, at, n)
}

/// A character.
#[tactic(auto, using(kt_calls::proofs::Leaves::leaves))]
pub(crate) fn character(env: &Environment<'_>, at: u32, b: u8) -> Answer
    ensures { Judges operand_of (leaf (constant_at (environment_of env.now) at (constant.Number (pos b)) int_type)) result }
{
    constant::character(env, at, b)
}

/// A string.
#[tactic(auto, using(kt_calls::proofs::Leaves::leaves))]
pub(crate) fn string(env: &Environment<'_>, at: u32) -> Answer
    ensures { Judges operand_of (leaf (constant_at (environment_of env.now) at (constant.Literal ((environment_of env.now).literal at)) (environment_of env.now).text)) result }
{
    constant::string(env, at)
}

/// `NULL`
#[tactic(auto, using(kt_calls::proofs::Leaves::leaves))]
pub(crate) fn null(env: &Environment<'_>, at: u32) -> Answer
    ensures { Judges operand_of (leaf (Ok (null_at (environment_of env.now) at))) result }
{
    constant::null(env, at)
}

/// `EOF`
#[tactic(auto, using(kt_calls::proofs::Leaves::leaves))]
pub(crate) fn end_of_file(env: &Environment<'_>, at: u32) -> Answer
    ensures { Judges operand_of (leaf (constant_at (environment_of env.now) at (constant.Number (negsuc 0)) int_type)) result }
{
    constant::end_of_file(env, at)
}

/// A name.
#[tactic(auto, using(kt_calls::proofs::Leaves::leaves))]
pub(crate) fn named(env: &Environment<'_>, name: &Name) -> Answer
    ensures { Judges operand_of (leaf (meant name.now.at name.now.at ((environment_of env.now).name name.now.word))) result }
{
    constant::meant(env, name.at, name.at, env.named(name.word.as_bytes()))
}

/// `$in`, `$out` and `$base`.
#[tactic(auto, using(kt_calls::proofs::Leaves::leaves))]
pub(crate) fn worded(env: &Environment<'_>, at: u32, word: RuleWord) -> Answer
    ensures { Judges operand_of (leaf (meant at at ((environment_of env.now).word word))) result }
{
    constant::meant(env, at, at, env.word(word))
}

/// `$oldsym` of a name.
#[tactic(auto, using(kt_calls::proofs::Leaves::leaves))]
pub(crate) fn old_symbol(env: &Environment<'_>, at: u32, name: &Name) -> Answer
    ensures { Judges operand_of (leaf (meant at name.now.at ((environment_of env.now).old_symbol name.now.word))) result }
{
    constant::meant(env, at, name.at, env.old_symbol(name.word.as_bytes()))
}

/// `$new`, which has no type as a part of an expression: its place in a rule's body is judged by what stands above.
#[tactic(auto, using(kt_calls::proofs::Leaves::leaves))]
pub(crate) fn new_object(at: u32) -> Answer
    ensures { Judges operand_of (leaf (Err (bad_type at))) result }
{
    Err(bad_type(at))
}

/// `sizeof` of a type name.
#[tactic(auto, using(kt_calls::proofs::Leaves::leaves))]
pub(crate) fn size_of(env: &Environment<'_>, at: u32, ty: &TypeName) -> Answer
    ensures { Judges operand_of (leaf (size (environment_of env.now) at (struct_place ty.now.base at) ty.now)) result }
{
    constant::size(env, at, struct_place(&ty.base, at), ty)
}
