//! What is judged of globals (ISO/IEC 9899:2011, 6.7.9).

ghost use Rattle.std.specs.Prelude.{◌≡◌, ℕ, ◌+◌, ◌==◌, [], ◌∷◌, ◌++◌, not, ◌&&◌, ◌||◌, List, is_some, IfOk, OnOk};
ghost use Rattle.std.specs.List.{list_any};
ghost use Rattle.kt_operands.specs.Views.{environment_of};
ghost use Rattle.kt_program.specs.Files.{Before, with_globals};
ghost use Rattle.kt_program.specs.Globals.{global, globals, global_cells, is_small};
ghost use Rattle.kt_program.specs.Judgments.{first_wrong};
ghost use Rattle.kt_program.specs.Mentioned.{stars_of};
ghost use Rattle.kt_program.specs.Scopes.{contains};
ghost use Rattle.kt_typing.specs.Calls.{builtin_named};
ghost use Rattle.kt_declarations.specs.Met.{AreNamed, kept, routine_names, capped, AreGlobals};

use crate::base::{base_fault, declared_type, stars_of};
use crate::cells::{declared_cells, fit, is_array_count, more_cells};
use crate::constant::is_initial;
use crate::declarator::{declarator_place, extent_fault};
use crate::first::{earlier, where_not};
use crate::functions::Functions;
use crate::names::Names;
use kt_calls::builtin::builtin_named;
use kt_grammar::Base;
use kt_operands::environment::Environment;
use kt_syntax::GlobalDeclarator;
use kt_typing::{Fault, Kind};
use std::alloc::{AllocError, Global};

/// The globals that were met: their names, and how many cells they have.
#[derive(Drop)]
pub struct Globals {
    pub names: Names,
    pub cells: u64,
}

// Whether a global is no larger than it may be, behind globals of so many cells.
fn is_small(env: &Environment<'_>, cells: u64, base: &Base, g: &GlobalDeclarator) -> bool
    ensures { (n : ℕ) → capped n ≡ cells → result ≡ is_small (environment_of env.now) n base.now g.now }
{
    let own = declared_cells(env, base, &g.declarator);
    is_array_count(&g.declarator.count) && own <= 65_536 && fit(cells, own, 1_048_576)
}

// Whether a name that is new among globals is no function's, and no built-in call's.
fn is_free(is_new: bool, functions: &Functions<'_>, name: &[u8]) -> bool
    ensures { result ≡ (is_new && not (is_some (builtin_named name.now)) && not (is_some (kept functions.now name.now))) }
{
    is_new && builtin_named(name).is_none() && !functions.has(name)
}

// What is wrong with a global, behind globals of so many cells.
fn global_fault(
    env: &Environment<'_>,
    is_new: bool,
    cells: u64,
    base: &Base,
    g: &GlobalDeclarator,
) -> Option<Fault>
    ensures { (names : List (List ℕ)) (n : ℕ) → not (is_some (builtin_named g.now.declarator.name.word) || contains names g.now.declarator.name.word) ≡ is_new → capped n ≡ cells → result ≡ first_wrong (global (environment_of env.now) names n base.now g.now) }
{
    let d = &g.declarator;
    let small = is_small(env, cells, base, g);
    let ty = declared_type(env, base, &d.pointer);
    let initial = is_initial(env, ty, d.count.is_some(), &g.initial);
    let size = where_not(small, d.name.at, Kind::TooBig);
    let value = where_not(
        initial,
        declarator_place(&d.pointer, &d.name),
        Kind::BadType,
    );
    let twice = where_not(is_new, d.name.at, Kind::Twice);
    earlier(
        extent_fault(env, &d.pointer),
        earlier(twice, earlier(size, value)),
    )
}

impl Globals {
    /// No globals.
    pub fn new(alloc: Global) -> Globals
        ensures { AreGlobals result [] 0 }
    {
        Globals {
            names: Names::new(alloc),
            cells: 0,
        }
    }

    // One more global, and what is wrong with it.
    fn declare_one(
        &mut self,
        env: &Environment<'_>,
        functions: &Functions<'_>,
        base: &Base,
        g: &GlobalDeclarator,
    ) -> Result<Option<Fault>, AllocError>
        ensures fault { (b : Before) → AreGlobals self.old b.globals b.cells → AreNamed functions.now (routine_names b.functions) → IfOk result (λ f. f ≡ first_wrong (global (environment_of env.now) (b.globals ++ routine_names b.functions) b.cells base.now g.now)) }
        ensures behind { (b : Before) → AreGlobals self.old b.globals b.cells → OnOk result (AreGlobals self.new (g.now.declarator.name.word ∷ b.globals) (b.cells + global_cells (environment_of env.now) base.now g.now)) }
    {
        let name = g.declarator.name.word.as_bytes();
        let is_new = self.names.add(env.alloc, name)?;
        let free = is_free(is_new, functions, name);
        let fault = global_fault(env, free, self.cells, base, g);
        let own = declared_cells(env, base, &g.declarator);
        self.cells = more_cells(self.cells, own);
        Ok(fault)
    }

    /// The globals of one declaration, and what is wrong with them. Names of functions were met too. Behind want of memory these are
    /// of no more use.
    pub fn declare(
        &mut self,
        env: &Environment<'_>,
        functions: &Functions<'_>,
        base: &Base,
        declarators: &[GlobalDeclarator],
    ) -> Result<Option<Fault>, AllocError>
        ensures fault { (b : Before) → AreGlobals self.old b.globals b.cells → AreNamed functions.now (routine_names b.functions) → IfOk result (λ f. f ≡ first_wrong (globals (environment_of env.now) (b.globals ++ routine_names b.functions) b.cells base.now declarators.now)) }
        ensures behind { (b : Before) → AreGlobals self.old b.globals b.cells → OnOk result (AreGlobals self.new (with_globals (environment_of env.now) base.now b declarators.now).globals (with_globals (environment_of env.now) base.now b declarators.now).cells) }
    {
        let by_value = has_value(declarators);
        let mut fault = base_fault(env, base, by_value);
        for g in declarators {
            let broken = self.declare_one(env, functions, base, g)?;
            fault = earlier(fault, broken);
        }
        Ok(fault)
    }
}

// Whether one of these is no pointer.
fn has_value(declarators: &[GlobalDeclarator]) -> bool
    ensures { result ≡ list_any (λ g. stars_of g.declarator.pointer == 0) declarators.now }
{
    declarators
        .iter()
        .any(|g| stars_of(&g.declarator.pointer) == 0)
}
