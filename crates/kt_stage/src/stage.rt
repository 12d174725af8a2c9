//! Which versions run so far, and which of them may be updated.
ghost use Rattle.std.specs.Prelude.{◌≡◌, map};
ghost use Rattle.std.specs.List.{list_all, list_any};
ghost use Rattle.kt_tree.specs.Tree.{function_of};
ghost use Rattle.kt_lone.specs.Update.{is_int};
ghost use Rattle.kt_stage.specs.Stage.{is_threaded, function_asks, runs_alone, keeps_only_ints, runs_updated};

use crate::asks::statement_asks;
use kt_tree::{Fun, GlobalDecl, Version};

/// The place of `int` in each version's table of types.
const INT: u32 = 1;

fn is_int(global: &GlobalDecl) -> bool
    ensures { result ≡ is_int global.now }
{
    global.ty == INT && !global.array
}

#[tactic(auto, using(crate::proofs::Lists::searches))]
fn are_ints(globals: &[GlobalDecl]) -> bool
    ensures { result ≡ list_all is_int globals.now }
{
    for global in globals {
        if !is_int(global) {
            return false;
        }
    }
    true
}

#[tactic(auto, using(crate::proofs::Lists::searches))]
fn some_asks(functions: &[Fun]) -> bool
    ensures { result ≡ list_any (λ f. function_asks is_threaded (function_of f)) functions.now }
{
    for function in functions {
        if statement_asks(&function.body) {
            return true;
        }
    }
    false
}

#[tactic(auto, using(crate::proofs::Lists::searches))]
fn some_is_noted(functions: &[Fun]) -> bool
    ensures { result ≡ list_any (λ f. f.noted) functions.now }
{
    for function in functions {
        if function.noted {
            return true;
        }
    }
    false
}

/// Whether the version runs so far: it asks for no other thread and no lock.
pub fn runs_alone(version: &Version) -> bool
    ensures { result ≡ runs_alone version.now }
{
    !some_asks(version.functions())
}

// Whether its globals are of type `int` and no arrays, and no function is written with `E_NOTELOCALS`.
fn keeps_only_ints(version: &Version) -> bool
    ensures { result ≡ keeps_only_ints version.now }
{
    are_ints(version.globals()) && !some_is_noted(version.functions())
}

/// Whether the version may be updated so far, and come of an update: it runs, its globals are of type `int` and no
/// arrays, and no function is written with `E_NOTELOCALS`.
pub fn runs_updated(version: &Version) -> bool
    ensures { result ≡ runs_updated version.now }
{
    runs_alone(version) && keeps_only_ints(version)
}
