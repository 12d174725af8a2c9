//! The instructions of a function, put from the last to the first, and those of all functions of a version.
ghost use Rattle.std.specs.Prelude.{◌≡◌, ◌++◌, ◌∷◌, [], length, reverse, OnOk, IfOk};
ghost use Rattle.kt_meaning.specs.TreeSteps.{is_main};
ghost use Rattle.kt_tree.specs.Tree.{function_of};
ghost use Rattle.kt_codegen.specs.Emitting.{function_in, functions_in, entries_in};
ghost use Rattle.kt_codegen.specs.VersionCode.{end_code};

use crate::emit::emit_stmt;
use kt_code::Instr;
use kt_genexpr::put;
use kt_tree::{Fun, Version};
use std::alloc::{AllocError, Global};

fn is_main(function: &Fun) -> bool
    ensures { result ≡ is_main (function_of function.now) }
{
    function.name.as_bytes() == b"main".as_slice()
}

// What stands behind a function's body.
fn emit_end(function: &Fun, out: &mut Vec<Instr>) -> Result<(), AllocError>
    ensures { OnOk result (out.new.items ≡ out.old.items ++ reverse (end_code (is_main (function_of function.now)) function.now.result)) }
{
    if is_main(function) {
        put(out, Instr::Return)?;
        return put(out, Instr::Number(0));
    }
    match function.result {
        Some(_) => put(out, Instr::NoValue),
        None => put(out, Instr::Leave),
    }
}

// Puts the instructions of a function of the version behind others, the last one first.
fn emit_function(
    alloc: Global,
    version: &Version,
    function: &Fun,
    out: &mut Vec<Instr>,
) -> Result<(), AllocError>
    ensures { OnOk result (out.new.items ≡ out.old.items ++ reverse (function_in version.now (function_of function.now))) }
{
    emit_end(function, out)?;
    let end = out.len();
    emit_stmt(alloc, version, &function.body, end, end, out)
}

// The instructions of a function of the version, from the first to the last.
fn function_instrs(
    alloc: Global,
    version: &Version,
    function: &Fun,
) -> Result<Vec<Instr>, AllocError>
    ensures { IfOk result (λ is. is.items ≡ function_in version.now (function_of function.now)) }
{
    let mut instrs = Vec::new(alloc);
    emit_function(alloc, version, function, &mut instrs)?;
    instrs.reverse();
    Ok(instrs)
}

// Puts a function behind others, and where it begins.
fn add_function(
    alloc: Global,
    version: &Version,
    function: &Fun,
    instrs: &mut Vec<Instr>,
    entries: &mut Vec<u32>,
) -> Result<(), AllocError>
    ensures instrs { OnOk result (instrs.new.items ≡ instrs.old.items ++ function_in version.now (function_of function.now)) }
    ensures entries { OnOk result (entries.new.items ≡ entries.old.items ++ length instrs.old.items ∷ []) }
{
    let entry = u32::try_from(instrs.len()).map_err(|_| AllocError)?;
    entries.push(entry)?;
    let mut more = function_instrs(alloc, version, function)?;
    instrs.append(&mut more)
}

/// The instructions of the version's functions, one after another, and where each function begins.
pub fn emit_functions(
    alloc: Global,
    version: &Version,
) -> Result<(Vec<Instr>, Vec<u32>), AllocError>
    ensures instrs { IfOk result (λ r. r.0.items ≡ functions_in version.now version.now.functions) }
    ensures entries { IfOk result (λ r. r.1.items ≡ entries_in version.now version.now.functions) }
{
    let mut instrs = Vec::new(alloc);
    let mut entries = Vec::new(alloc);
    for function in version.functions() {
        add_function(alloc, version, function, &mut instrs, &mut entries)?;
    }
    Ok((instrs, entries))
}
