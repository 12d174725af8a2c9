//! Names that a journal tells.

ghost use Rattle.std.specs.Prelude.{◌≡◌};
ghost use Rattle.std.specs.Option.{option_copied, option_map};
ghost use Rattle.kt_tree.specs.Tree.{function_of};
ghost use Rattle.kt_journal.specs.Marks as spec;

use kt_mem::Trap;
use kt_tree::{Fun, Version};

/// The name of a global of the version; none, without a byte, where there is no such global.
pub fn global_name<'a>(version: Option<&'a Version>, global: u32) -> &'a [u8]
    ensures { result.now ≡ spec.global_name (option_copied version.entry) global }
{
    match version {
        None => &[],
        Some(version) => match version.globals().get(global as usize) {
            None => &[],
            Some(global) => global.name.as_bytes(),
        },
    }
}

/// The function of that number.
pub fn function_at<'a>(version: Option<&'a Version>, function: u32) -> Option<&'a Fun>
    ensures { option_map function_of (option_copied result) ≡ spec.function_at (option_copied version.entry) function }
{
    version?.functions().get(function as usize)
}

/// The name of a function; none, without a byte, where there is no function.
pub fn function_name<'a>(function: Option<&'a Fun>) -> &'a [u8]
    ensures { result.now ≡ spec.name_of_function (option_map function_of (option_copied function.entry)) }
{
    match function {
        None => &[],
        Some(function) => function.name.as_bytes(),
    }
}

/// The name of a local of a function; none, without a byte, where there is no such local.
pub fn local_name<'a>(function: Option<&'a Fun>, local: u32) -> &'a [u8]
    ensures { result.now ≡ spec.name_of_local (spec.local_at (option_map function_of (option_copied function.entry)) local) }
{
    match function {
        None => &[],
        Some(function) => match function.locals.as_slice().get(local as usize) {
            None => &[],
            Some(local) => local.name.as_bytes(),
        },
    }
}

/// The name of a trap.
pub fn trap_name(trap: Trap) -> &'static str
    ensures { result.now ≡ spec.trap_name trap }
{
    match trap {
        Trap::Overflow => "overflow",
        Trap::Zero => "zero",
        Trap::Range => "range",
        Trap::Null => "null",
        Trap::Dead => "dead",
        Trap::Bounds => "bounds",
        Trap::Uninit => "uninit",
        Trap::Literal => "literal",
        Trap::Free => "free",
        Trap::Mutex => "mutex",
        Trap::Thread => "thread",
        Trap::Threads => "threads",
        Trap::Size => "size",
        Trap::Heap => "heap",
        Trap::Depth => "depth",
        Trap::Output => "output",
    }
}
