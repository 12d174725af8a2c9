//! The codes of the versions of a job.

ghost use Rattle.std.specs.Prelude.{◌≡◌, map, IfOk};
ghost use Rattle.std.specs.List.{AllByRecursion};
ghost use Rattle.kt_machine.specs.Engine.{DoesActs};

use kt_codegen::compile;
use kt_pair::{Compiled, compiled_law};
use kt_tree::Version;
use std::alloc::{AllocError, Global};

/// Each version beside its code, in order: the code does the acts of the version's trees.
pub fn compile_all(alloc: Global, versions: &[Version]) -> Result<Vec<Compiled>, AllocError>
    ensures versions { IfOk result (λ codes. map (λ c. c.program) codes.items ≡ versions.now) }
    ensures acts { IfOk result (λ codes. AllByRecursion DoesActs codes.items) }
{
    let mut codes = Vec::new(alloc);
    for version in versions {
        let compiled = compile(alloc, version.copy()?)?;
        compiled_law(&compiled);
        codes.push(compiled)?;
    }
    Ok(codes)
}
