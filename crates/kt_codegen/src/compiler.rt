//! From a version to its code.
ghost use Rattle.std.specs.Prelude.{◌≡◌, IfOk};
ghost use Rattle.kt_meaning.specs.Laws.{numbered};
ghost use Rattle.kt_pair.specs.VersionActs.{DoesVersion, FitsEntries};
ghost use Rattle.kt_codegen.specs.VersionCode.{version_code};

use crate::functions::emit_functions;
use crate::laws::version_code_law;
use kt_code::{Code, Entries, Instrs};
use kt_pair::Compiled;
use kt_tree::Version;
use std::alloc::{AllocError, Global};

/// The version beside code of it. Whatever number the version has, the code does exactly the acts of its trees, from each
/// function's entry, with any arguments, on all lists of replies; the states at which threads begin fit the code, and the
/// code names the version's points. Code of 2^32 instructions or more is want of memory.
pub fn compile(alloc: Global, version: Version) -> Result<Compiled, AllocError>
    ensures version { IfOk result (λ c. c.program ≡ version) }
    ensures acts { IfOk result (λ c. (n : _) → DoesVersion (numbered version n) c.code) }
    ensures fits { IfOk result (λ c. (n : _) → FitsEntries (numbered version n) c.code) }
    ensures points { IfOk result (λ c. c.code.points ≡ version.points) }
{
    version_code_law(&version);
    match code_of(alloc, &version) {
        Ok(code) => Ok(Compiled::new(version, code)),
        Err(fault) => {
            drop(version);
            Err(fault)
        }
    }
}

// The version's code: its functions one after another.
fn code_of(alloc: Global, version: &Version) -> Result<Code, AllocError>
    ensures { IfOk result (λ c. c ≡ version_code version.now) }
{
    version_code_law(version);
    let points = version.points().clone()?;
    let (instrs, entries) = emit_functions(alloc, version)?;
    if instrs.len() > u32::MAX as usize {
        return Err(AllocError);
    }
    Ok(Code::new(Instrs::from_vec(instrs), Entries::from_vec(entries), points))
}
