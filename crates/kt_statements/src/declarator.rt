//! What is judged of the bases of locals and parameters (ISO/IEC 9899:2011, 6.7.6).

ghost use Rattle.std.specs.Prelude.{◌≡◌, ◌==◌, [], ◌∷◌, map};
ghost use Rattle.std.specs.List.{list_any};
ghost use Rattle.kt_syntax.specs.Tree.{local_of};
ghost use Rattle.kt_operands.specs.Views.{environment_of};
ghost use Rattle.kt_program.specs.Declarators.{base_fault};
ghost use Rattle.kt_program.specs.Mentioned.{stars_of};

use kt_declarations::base::{base_fault, stars_of};
use kt_grammar::Base;
use kt_operands::environment::Environment;
use kt_syntax::{LocalDeclarator, Pointer};
use kt_typing::Fault;

// Whether one of the declarators has no stars.
fn is_one_plain(locals: &[LocalDeclarator]) -> bool
    ensures { result ≡ list_any (λ l. stars_of l.pointer == 0) locals.now }
{
    locals.iter().any(|local| stars_of(&local.pointer) == 0)
}

/// A struct of which a parameter is a value is defined before.
pub(crate) fn parameter_base_fault(
    env: &Environment<'_>,
    base: &Base,
    declarator: &Option<Pointer>,
) -> Option<Fault>
    ensures { result ≡ base_fault (environment_of env.now) base.now (stars_of declarator.now ∷ []) }
{
    base_fault(env, base, stars_of(declarator) == 0)
}

/// A struct of which one of these locals is a value is defined before.
pub(crate) fn locals_base_fault(
    env: &Environment<'_>,
    base: &Base,
    locals: &[LocalDeclarator],
) -> Option<Fault>
    ensures { result ≡ base_fault (environment_of env.now) base.now (map (λ l. stars_of l.pointer) (map local_of locals.now)) }
{
    base_fault(env, base, is_one_plain(locals))
}
