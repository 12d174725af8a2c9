//! Whether a function is `main` (ISO/IEC 9899:2011, 5.1.2.2.1).

ghost use Rattle.std.specs.Prelude.{◌≡◌, ℕ, List, Some};
ghost use Rattle.kt_syntax.specs.Tree.{routine_of};
ghost use Rattle.kt_program.specs.Files.{is_main};
ghost use Rattle.kt_program.specs.Gathered.{result_type, same_result};
ghost use Rattle.kt_program.specs.Outside.{Whole};
ghost use Rattle.kt_program.specs.Types.{int};

use crate::head::result_stars;
use kt_grammar::Base;
use kt_syntax::Function;

// Whether a function gives `int`.
fn gives_int(f: &Function) -> bool
    ensures { (structs : List (List ℕ)) → result ≡ same_result (result_type structs (routine_of f.now)) (Some int) }
{
    match &f.result {
        Some(Base::Int) => result_stars(&f.stars) == 0,
        Some(Base::Char) => false,
        Some(Base::Long) => false,
        Some(Base::Mutex) => false,
        Some(Base::Struct(_)) => false,
        None => false,
    }
}

/// Whether a function is `main`: it has that name, gives `int` and takes nothing.
pub fn is_main(f: &Function) -> bool
    ensures { (w : Whole) → result ≡ is_main w (routine_of f.now) }
{
    let named = f.name.word.as_bytes() == b"main".as_slice();
    let int = gives_int(f);
    named && int && f.parameters.is_empty()
}
