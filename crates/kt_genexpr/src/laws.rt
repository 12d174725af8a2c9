//! Laws of the code of expressions, each the contract of a function that does nothing.
ghost use Rattle.kt_code.specs.Code.{Code};
ghost use Rattle.kt_genexpr.specs.Generates.{ExpressionsDo, CodesGenerate, IsExact};
ghost use Rattle.kt_meaning.specs.Laws.{numbered};
ghost use Rattle.std.specs.Prelude.{ℕ};

use kt_tree::{Version, version_law};

/// The code of a typed expression of a version does what the expression does, wherever it stands in code, if code does
/// what the calls of functions do.
pub fn expression_law(version: &Version)
    ensures does { (n : ℕ) (c : Code) → ExpressionsDo (numbered version.now n) c }
    ensures generates { CodesGenerate version.now }
{
    version_law(version);
}

/// Code that leaves another number than the expression gives does not do it.
pub fn exact_law(version: &Version)
    ensures { (n : ℕ) (c : Code) → IsExact (numbered version.now n) c }
{}
