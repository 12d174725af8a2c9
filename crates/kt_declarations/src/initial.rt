//! The initial values of globals (ISO/IEC 9899:2011, 6.7.9).

ghost use Rattle.std.specs.Prelude.{◌≡◌, ◌≤◌, ℕ, List};
ghost use Rattle.kt_operands.specs.Views.{environment_of};
ghost use Rattle.kt_program.specs.Globals.{negative};
ghost use Rattle.kt_program.specs.Programs.{number_init, initial_value};
ghost use Rattle.kt_program.specs.Strings.{literal_number};
ghost use Rattle.kt_declarations.specs.Views.{FitsLong};

use kt_lex::Number;
use kt_operands::environment::Environment;
use kt_syntax::Constant;
use kt_tree::Init;

// The negative of a number.
fn negative(n: u64) -> i64
    requires { n ≤ 9223372036854775808 }
    ensures { result ≡ negative n }
{
    if n == 0 { 0 } else { -1 - ((n - 1) as i64) }
}

// What a number is, where so many stars stand before the name.
fn number_init(stars: usize, n: Number) -> Init
    requires { n.value ≤ 9223372036854775807 }
    ensures { result ≡ number_init stars n }
{
    if stars == 0 {
        Init::Number(n.value as i64)
    } else {
        Init::Null
    }
}

/// The initial value of a global with so many stars before its name, of which the constant fits.
pub fn initial_value(env: &Environment<'_>, stars: usize, initial: &Option<Constant>) -> Init
    requires { FitsLong initial.now }
    ensures { (literals : List ℕ) → ((at : ℕ) → (environment_of env.now).literal at ≡ literal_number literals at) → result ≡ initial_value literals stars initial.now }
{
    let Some(constant) = initial else {
        return Init::Zero;
    };
    match constant {
        Constant::Number(n) => number_init(stars, *n),
        Constant::Negative(n) => Init::Number(negative(n.value)),
        Constant::Character(b) => Init::Number(i64::from(*b)),
        Constant::Text(at, _) => Init::Literal(env.literal(*at)),
        Constant::Null => Init::Null,
        Constant::Eof => Init::Number(-1),
        Constant::MutexInitializer => Init::Free,
    }
}
