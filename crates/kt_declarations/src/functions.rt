//! What is judged of the heads of functions (ISO/IEC 9899:2011, 6.7.6.3 and 6.9.1).

ghost use Rattle.std.specs.Prelude.{◌≡◌, ℕ, List, [], ◌∷◌, ◌&&◌, ◌||◌, is_some, IfOk, OnOk};
ghost use Rattle.kt_syntax.specs.Tree.{Routine, routine_of};
ghost use Rattle.kt_operands.specs.Views.{environment_of};
ghost use Rattle.kt_program.specs.Files.{Before};
ghost use Rattle.kt_program.specs.Judgments.{first_wrong};
ghost use Rattle.kt_program.specs.Outside.{Whole};
ghost use Rattle.kt_program.specs.Scopes.{contains};
ghost use Rattle.kt_program.specs.Statements.{absent};
ghost use Rattle.kt_typing.specs.Calls.{builtin_named};
ghost use Rattle.kt_declarations.specs.Heads.{head_judged};
ghost use Rattle.kt_declarations.specs.Met.{SameNames, HasStructs, IsMet, Tells, AreFunctions, kept, first_of, was_defined, had_other};

use crate::first::{earlier, where_not};
use crate::head::{is_result, result_complete, result_place, same_head};
use crate::names::Names;
use indexmap::IndexMap;
use kt_calls::builtin::builtin_named;
use kt_operands::environment::Environment;
use kt_syntax::Function;
use kt_typing::{Fault, Kind};
use std::alloc::{AllocError, Global};

/// What is kept of the declarations of a function: the first, whether one of them is a definition, and whether two are of
/// other types.
#[derive(Clone, Copy)]
pub struct Met<'f> {
    pub first: &'f Function,
    pub defined: bool,
    pub mixed: bool,
}

/// The functions that were met, by their names.
#[derive(Drop)]
pub struct Functions<'f> {
    pub met: IndexMap<Vec<u8>, Met<'f>>,
}

// Whether one of the declarations is a definition.
fn was_defined(before: Option<Met<'_>>) -> bool
    ensures { result ≡ was_defined before.entry }
{
    match before {
        None => false,
        Some(m) => m.defined,
    }
}

// Whether one of the declarations is of another type than this one.
fn had_other(before: Option<Met<'_>>, f: &Function) -> bool
    ensures { result ≡ had_other before.entry (routine_of f.now) }
{
    match before {
        None => false,
        Some(m) => m.mixed || !same_head(m.first, f),
    }
}

// Whether the name of a function is a built-in call's or a global's, or the function is defined a second time.
fn is_twice(globals: &Names, before: Option<Met<'_>>, f: &Function) -> bool
    ensures { result ≡ (is_some (builtin_named f.now.name.word) || contains globals.now f.now.name.word || (is_some f.now.body && was_defined before.entry)) }
{
    let name = f.name.word.as_bytes();
    builtin_named(name).is_some() || globals.has(name) || (f.body.is_some() && was_defined(before))
}

// What is wrong with the head of a function of which this is kept.
fn head_fault(
    env: &Environment<'_>,
    globals: &Names,
    before: Option<Met<'_>>,
    f: &Function,
) -> Option<Fault>
    ensures { (w : Whole) (gs : List (List ℕ)) (rs : List Routine) → SameNames globals.now gs → Tells w.structs rs f.now.name.word before.entry → HasStructs w.structs (routine_of f.now) → result ≡ first_wrong (head_judged (environment_of env.now) w gs rs (routine_of f.now) absent) }
{
    let result = where_not(is_result(env, f), result_place(f), Kind::BadType);
    let twice = is_twice(globals, before, f);
    let twice = where_not(!twice, f.name.at, Kind::Twice);
    let mixed = had_other(before, f);
    let other = where_not(!mixed, f.name.at, Kind::BadType);
    earlier(
        result_complete(env, f),
        earlier(result, earlier(twice, other)),
    )
}

fn first_of<'f>(before: Option<Met<'f>>, f: &'f Function) -> &'f Function
    ensures { result.now ≡ first_of before.entry f.now }
{
    match before {
        None => f,
        Some(m) => m.first,
    }
}

fn is_defined_behind(before: Option<Met<'_>>, f: &Function) -> bool
    ensures { result ≡ (is_some f.now.body || was_defined before.entry) }
{
    f.body.is_some() || was_defined(before)
}

// What is kept of a function behind one more declaration.
fn met_behind<'f>(before: Option<Met<'f>>, f: &'f Function) -> Met<'f>
    ensures { (structs : List (List ℕ)) (rs : List Routine) → Tells structs rs f.now.name.word before.entry → HasStructs structs (routine_of f.now) → IsMet structs (routine_of f.now ∷ rs) f.now.name.word result }
{
    Met {
        first: first_of(before, f),
        defined: is_defined_behind(before, f),
        mixed: had_other(before, f),
    }
}

impl<'f> Functions<'f> {
    /// No functions.
    pub fn new(alloc: Global) -> Functions<'f>
        ensures { (structs : List (List ℕ)) → AreFunctions result structs [] }
    {
        Functions {
            met: IndexMap::new(alloc),
        }
    }

    /// Whether a function of the name was declared.
    pub fn has(&self, name: &[u8]) -> bool
        ensures { result ≡ is_some (kept self.now name.now) }
    {
        self.met.contains_key(name)
    }

    // What is kept of the declarations of a name.
    fn met_of(&self, name: &[u8]) -> Option<Met<'f>>
        ensures { result ≡ kept self.now name.now }
    {
        self.met.get(name).copied()
    }

    /// One more declaration of a function, and what is wrong with its head, among globals of these names. Behind want of memory
    /// these are of no more use.
    pub fn declare(
        &mut self,
        env: &Environment<'_>,
        globals: &Names,
        f: &'f Function,
    ) -> Result<Option<Fault>, AllocError>
        ensures fault { (w : Whole) (b : Before) → SameNames globals.now b.globals → AreFunctions self.old w.structs b.functions → HasStructs w.structs (routine_of f.now) → IfOk result (λ o. o ≡ first_wrong (head_judged (environment_of env.now) w b.globals b.functions (routine_of f.now) absent)) }
        ensures behind { (structs : List (List ℕ)) (rs : List Routine) → AreFunctions self.old structs rs → HasStructs structs (routine_of f.now) → OnOk result (AreFunctions self.new structs (routine_of f.now ∷ rs)) }
    {
        let name = f.name.word.as_bytes();
        let before = self.met_of(name);
        let fault = head_fault(env, globals, before, f);
        let key = Vec::from_slice(env.alloc, name)?;
        self.met.insert(key, met_behind(before, f))?;
        Ok(fault)
    }
}
