//! Globals that are right, as a typed program has them.

ghost use Rattle.std.specs.Prelude.{◌≡◌, true, IfOk, None};
ghost use Rattle.kt_operands.specs.Views.{environment_of};
ghost use Rattle.kt_program.specs.Declarators.{extent_fault, extent_of};
ghost use Rattle.kt_program.specs.Gathered.{global_type};
ghost use Rattle.kt_program.specs.Outside.{Whole};
ghost use Rattle.kt_program.specs.Programs.{global_of};
ghost use Rattle.kt_program.specs.Structs.{is_array_count, count_of};
ghost use Rattle.kt_program.specs.Types.{place_in};
ghost use Rattle.kt_declarations.specs.Views.{FitsLong, Tells};

use crate::base::stars_of;
use crate::initial::initial_value;
use crate::view::view_of;
use kt_grammar::Base;
use kt_lex::Number;
use kt_operands::environment::Environment;
use kt_syntax::GlobalDeclarator;
use kt_tree::GlobalDecl;
use kt_types::Text;
use std::alloc::AllocError;

// How many elements an array of a right size has, and 1 where it is none.
fn count_of(count: &Option<Number>) -> u32
    requires { is_array_count count.now ≡ true }
    ensures { result ≡ count_of count.now }
{
    match count {
        None => 1,
        Some(n) => n.value as u32,
    }
}

/// The global of a declarator that is right, whose elements have the type.
pub fn global_decl(
    env: &Environment<'_>,
    ty: u32,
    base: &Base,
    g: &GlobalDeclarator,
) -> Result<GlobalDecl, AllocError>
    requires extent { extent_fault (environment_of env.now) (extent_of g.now.declarator.pointer) ≡ None }
    requires count { is_array_count g.now.declarator.count ≡ true }
    requires fits { FitsLong g.now.initial }
    ensures { (w : Whole) → Tells (environment_of env.now) w → ty ≡ place_in w.types (global_type w.structs (record { base = base.now; declarator = g.now })) → IfOk result (λ d. d ≡ global_of w (record { base = base.now; declarator = g.now })) }
{
    let d = &g.declarator;
    let name = Text::from_vec(Vec::from_slice(env.alloc, d.name.word.as_bytes())?);
    Ok(GlobalDecl {
        name,
        ty,
        count: count_of(&d.count),
        array: d.count.is_some(),
        view: view_of(env, base, &d.pointer),
        init: initial_value(env, stars_of(&d.pointer), &g.initial),
    })
}
