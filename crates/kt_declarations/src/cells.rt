//! How many cells declarators have.

ghost use Rattle.std.specs.Prelude.{◌≡◌, ◌*◌, ◌+◌, ℕ, nat_le};
ghost use Rattle.kt_operands.specs.Views.{environment_of, scope_of};
ghost use Rattle.kt_program.specs.Declarators.{declared_type};
ghost use Rattle.kt_program.specs.Structs.{is_array_count, count_of, cells_of};
ghost use Rattle.kt_declarations.specs.Met.{capped};

use crate::base::{cells_of, declared_type};
use kt_grammar::Base;
use kt_lex::Number;
use kt_operands::environment::Environment;
use kt_syntax::Declarator;

/// Whether an array has 1 to 65,536 elements.
pub(crate) fn is_array_count(count: &Option<Number>) -> bool
    ensures { result ≡ is_array_count count.now }
{
    match count {
        None => true,
        Some(n) => 1 <= n.value && n.value <= 65_536,
    }
}

// How many elements an array has, and 1 where it is none.
fn count_of(count: &Option<Number>) -> u64
    ensures { result ≡ count_of count.now }
{
    match count {
        None => 1,
        Some(n) => n.value,
    }
}

/// How many cells a declarator's field or global has.
pub(crate) fn declared_cells(env: &Environment<'_>, base: &Base, declarator: &Declarator) -> u64
    ensures { result ≡ capped (count_of declarator.now.count * cells_of (scope_of env.now) (declared_type (environment_of env.now) base.now declarator.now.pointer)) }
{
    let one = cells_of(env, declared_type(env, base, &declarator.pointer));
    count_of(&declarator.count).saturating_mul(one.into())
}

/// So many cells and so many more.
pub(crate) fn more_cells(cells: u64, own: u64) -> u64
    ensures { (n m : ℕ) → capped n ≡ cells → capped m ≡ own → capped (n + m) ≡ result }
{
    cells.saturating_add(own)
}

/// Whether so many cells and so many more are at most the limit.
pub(crate) fn fit(cells: u64, own: u64, limit: u32) -> bool
    ensures { (n m : ℕ) → capped n ≡ cells → capped m ≡ own → result ≡ nat_le (n + m) limit }
{
    cells.saturating_add(own) <= u64::from(limit)
}
