//! Laws of the code of statements and of versions, each the contract of a function that does nothing.
ghost use Rattle.kt_code.specs.Code.{Code};
ghost use Rattle.kt_code.specs.Settling.{HasJumps};
ghost use Rattle.kt_codegen.specs.StatementActs.{StatementsDo};
ghost use Rattle.kt_pair.specs.VersionActs.{DoesVersion, FitsEntries};
ghost use Rattle.kt_codegen.specs.VersionCode.{version_code};
ghost use Rattle.kt_meaning.specs.Laws.{numbered};

use kt_genexpr::expression_law;
use kt_tree::{Version, version_law};

/// The code of a statement that fits into a function of a version does what the statement does, wherever it stands in code,
/// if code does what the calls of functions do.
pub(crate) fn statement_law(version: &Version)
    ensures { (n : _) (c : Code) → StatementsDo (numbered version.now n) c }
{
    expression_law(version);
}

/// Whatever the version's number is, its code does the acts of its trees: from each function's entry, with any arguments,
/// on all lists of replies. Each jump forward stays within the code and each jump back goes to a tick. The states at which
/// threads begin fit the code.
pub(crate) fn version_code_law(version: &Version)
    ensures acts { (n : _) → DoesVersion (numbered version.now n) (version_code version.now) }
    ensures jumps { HasJumps (version_code version.now).instrs }
    ensures fits { (n : _) → FitsEntries (numbered version.now n) (version_code version.now) }
{
    version_law(version);
    statement_law(version);
}
