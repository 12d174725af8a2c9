//! The state at which `main` begins.
ghost use Rattle.std.specs.Prelude.{◌≡◌, [], Some, IfOk};
ghost use Rattle.std.specs.Option.{option_map};
ghost use Rattle.kt_tree.specs.Tree.{function_of};
ghost use Rattle.kt_meaning.specs.ThreadTypes.{IsMode};
ghost use Rattle.kt_code.specs.Machine.{step};
ghost use Rattle.kt_code.specs.Settling.{Fits, head_of, settle};
ghost use Rattle.kt_pair.specs.VersionActs.{entry_state};
ghost use Rattle.kt_lone.specs.Turn.{main_of, restart_in};
ghost use Rattle.kt_machine.specs.Engine.{code_entry, no_frames};

use kt_code::{Frame, Frames, Head, Locals, Operands, Private};
use kt_exec::settle;
use kt_mem::{KeptLocals, Mode, Stored, Value};
use kt_pair::{Compiled, compiled_law};
use kt_tree::{Fun, Version, version_law};
use std::alloc::{AllocError, Global};

/// The state at which `main` of version `v` begins in this mode. A version has a `main`, and code of it has its entry.
fn enter_main(alloc: Global, v: u8, compiled: &Compiled, mode: Mode) -> Result<Private, AllocError>
    requires mode { IsMode compiled.now.program mode }
    ensures entry { IfOk result (λ p. p ≡ code_entry v mode (Some compiled.now)) }
    ensures fits { IfOk result (λ p. Fits compiled.now.code p) }
{
    version_law(compiled.version());
    compiled_law(compiled);
    let Some((number, function)) = main_of(compiled.version()) else {
        unreachable!();
    };
    match compiled.entry(number) {
        Some(at) => entry_state(alloc, v, at, number, function, mode),
        None => unreachable!(),
    }
}

/// The state to which a thread settles that begins with `main` of version `v` in this mode, and what it stands at.
pub fn settled_main(
    alloc: Global,
    v: u8,
    compiled: &Compiled,
    mode: Mode,
) -> Result<(Private, Head), AllocError>
    requires mode { IsMode compiled.now.program mode }
    ensures stands { IfOk result (λ p. p.0 ≡ settle compiled.now.code (code_entry v mode (Some compiled.now))) }
    ensures head { IfOk result (λ p. head_of (step compiled.now.code p.0) ≡ Some p.1) }
    ensures fits { IfOk result (λ p. Fits compiled.now.code p.0) }
{
    let mut private = enter_main(alloc, v, compiled, mode)?;
    match settle(alloc, compiled.code(), &mut private) {
        Ok(head) => Ok((private, head)),
        Err(fault) => {
            drop(private);
            Err(fault)
        }
    }
}

/// The function `main` of a version, and its number.
fn main_of(version: &Version) -> Option<(u32, &Fun)>
    ensures { option_map (λ found. (found.0, function_of found.1.now)) result ≡ main_of version.now }
{
    let number = version.function(b"main")?;
    let function = version.functions().get(number as usize)?;
    Some((number, function))
}

/// The state at the entry of a function without parameters, whose code begins at this place.
fn entry_state(
    alloc: Global,
    v: u8,
    at: u32,
    number: u32,
    function: &Fun,
    mode: Mode,
) -> Result<Private, AllocError>
    ensures { IfOk result (λ p. p ≡ entry_state v at number (function_of function.now) [] (restart_in mode)) }
{
    let mut locals = Vec::new(alloc);
    locals.resize(function.locals.as_slice().len(), Stored::of(Value::Undef))?;
    let mut state = no_frames(alloc, v, mode);
    state.frames.push(Frame {
        function: number,
        at,
        locals: Locals::from_vec(locals),
    })?;
    Ok(state)
}

/// A state without a frame.
pub(crate) fn no_frames(alloc: Global, v: u8, mode: Mode) -> Private
    ensures { result ≡ no_frames v mode }
{
    Private {
        version: v,
        frames: Frames::new(alloc),
        operands: Operands::new(alloc),
        mode,
        locals: KeptLocals::from_vec(Vec::new(alloc)),
    }
}
