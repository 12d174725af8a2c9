//! Instructions that are put behind others, and those of a loop.
ghost use Rattle.std.specs.Prelude.{◌≡◌, ◌+◌, ◌-◌, ◌<◌, ◌++◌, ◌∷◌, [], suc, length, reverse, slice_set, IfOk, OnOk};
ghost use Rattle.std.specs.Option.{option_map};
ghost use Rattle.kt_tree.specs.Tree.{expression_of};
ghost use Rattle.kt_code.specs.declared.instr.Instr.TheVariants as instr;
ghost use Rattle.kt_codegen.specs.Emitting.{back, test_in, entry_code};

use kt_code::Instr;
use kt_genexpr::{emit_expr, put};
use kt_tree::{Expr, Version};
use std::alloc::{AllocError, Global};

/// How many instructions stand between two places; 2^32 or more are want of memory.
pub fn passed(from: usize, to: usize) -> Result<u32, AllocError>
    ensures { IfOk result (λ n. n ≡ to - from) }
{
    u32::try_from(to.saturating_sub(from)).map_err(|_| AllocError)
}

/// Puts a jump over all that stands behind a place.
pub fn put_skip(to: usize, out: &mut Vec<Instr>) -> Result<(), AllocError>
    ensures { OnOk result ((n : _) → to + n ≡ length out.old.items → out.new.items ≡ out.old.items ++ instr.Skip n ∷ []) }
{
    let n = passed(to, out.len())?;
    put(out, Instr::Skip(n))
}

/// Puts a loop's test, and the jump back behind it, which does not yet tell how far.
pub fn put_test(
    alloc: Global,
    version: &Version,
    test: &Option<Expr>,
    out: &mut Vec<Instr>,
) -> Result<(), AllocError>
    ensures { OnOk result (out.new.items ≡ out.old.items ++ reverse (test_in version.now (option_map expression_of test.now) 0)) }
{
    match test {
        Some(test) => {
            put(out, Instr::BackIfNotZero(0))?;
            emit_expr(alloc, version, test, out)
        }
        None => put(out, Instr::Back(0)),
    }
}

/// Puts a loop's tick. The jump back, which stands at a place, goes there.
pub fn put_tick(tested: bool, place: usize, out: &mut Vec<Instr>) -> Result<(), AllocError>
    requires { place < length out.old.items }
    ensures { OnOk result ((n : _) → place + n ≡ suc (length out.old.items) → out.new.items ≡ slice_set out.old.items place (back tested n) ++ instr.Tick ∷ []) }
{
    let n = passed(place, out.len() + 1)?;
    out[place] = jump_back(tested, n);
    put(out, Instr::Tick)
}

fn jump_back(tested: bool, n: u32) -> Instr
    ensures { result ≡ back tested n }
{
    if tested {
        Instr::BackIfNotZero(n)
    } else {
        Instr::Back(n)
    }
}

/// A loop that has a test begins there: puts the jump to where the test stands.
pub fn put_entry(test: &Option<Expr>, to: usize, out: &mut Vec<Instr>) -> Result<(), AllocError>
    ensures { OnOk result ((n : _) → to + n ≡ length out.old.items → out.new.items ≡ out.old.items ++ entry_code (option_map expression_of test.now) n) }
{
    match test {
        Some(_) => put_skip(to, out),
        None => Ok(()),
    }
}
