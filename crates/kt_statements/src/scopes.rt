//! The names in scope inside a function (ISO/IEC 9899:2011, 6.2.1).

ghost use Rattle.std.specs.Prelude.{◌≡◌, ◌<◌, ◌≤◌, ◌-◌, ◌^◌, [], ◌∷◌, ℕ, take, length, slice_get, true, Some, IfSome, IsNone, OnOk};
ghost use Rattle.std.specs.List.{list_any};
ghost use Rattle.std.specs.Str.{bytes_eq};
ghost use Rattle.kt_operands.specs.Views.{environment_of, meaning_of};
ghost use Rattle.kt_program.specs.Scopes.{here, entered, looped, declared, contains};
ghost use Rattle.kt_program.specs.Functions.{nowhere};
ghost use Rattle.kt_statements.specs.declared.scopes.Body.{Body};
ghost use Rattle.kt_statements.specs.declared.scopes.Local.{Local};
ghost use Rattle.kt_statements.specs.Scopes.{body_of, place_of, latest_first, latest_place, meaning_in, Shown, Fits, IsMark, left};

use crate::mark::Mark;
use crate::names::{hide, put};
use indexmap::IndexMap;
use kt_operands::environment::Environment;
use kt_operands::meaning::Meaning;
use kt_types::FieldDecl;
use sqlite_items::at;
use std::alloc::{AllocError, Global};

/// What holds in all of a function: what names mean outside of it, with the types of its locals; the type of its result; and its
/// locals, parameters first, in the order of their declarations.
#[derive(Drop)]
pub struct Body<'f> {
    pub environment: Environment<'f>,
    pub result: Option<u32>,
    pub locals: &'f [FieldDecl],
}

/// A local in scope, and what its name means outside of that scope.
#[derive(Drop)]
pub struct Local<'f> {
    pub name: &'f [u8],
    pub number: u32,
    pub hides: Meaning,
}

/// A place in a function.
#[derive(Drop)]
pub struct Scopes<'f> {
    /// What each name means here.
    pub names: IndexMap<Vec<u8>, Meaning>,
    /// The locals in scope, the innermost last.
    pub locals: Vec<Local<'f>>,
    /// For each local that was declared, how many were in scope before it.
    pub places: Vec<usize>,
    /// How many of them stand around the innermost scope.
    pub start: usize,
    /// How many locals were declared before.
    pub next: u32,
    pub in_loop: bool,
}

// Whether one of these has the name.
fn declares(locals: &[FieldDecl], name: &[u8]) -> bool
    ensures { result ≡ list_any (λ l. bytes_eq l.name name.now) locals.now }
{
    locals.iter().any(|local| local.name.as_bytes() == name)
}

// Whether it is the local's name.
fn is_named(local: &Local<'_>, name: &[u8]) -> bool
    ensures { result ≡ bytes_eq local.now.name.now name.now }
{
    local.name == name
}

impl<'f> Body<'f> {
    /// What expressions are typed in at a place.
    pub fn here<'s>(&'s self, scopes: &'s Scopes<'f>) -> Environment<'s>
        requires { Fits self.now scopes.now }
        ensures { environment_of result ≡ here (body_of self.now) (place_of scopes.now) }
    {
        Environment {
            names: &scopes.names,
            ..self.environment
        }
    }

    /// The type of the local of a number.
    #[tactic(auto, unfolding(kt_operands::specs::Views::scope_of))]
    pub fn local_type(&self, x: u32) -> u32
        requires { x < length (body_of self.now).environment.scope.locals }
        ensures { slice_get (body_of self.now).environment.scope.locals x ≡ Some result }
    {
        self.environment.locals[x as usize]
    }

    /// Whether one of so many first locals of the function has the name.
    #[tactic(auto, using(crate::proofs::Shown::among))]
    pub fn has_among(&self, count: u32, name: &[u8]) -> bool
        ensures { result ≡ contains (take count (body_of self.now).names) name.now }
    {
        let count = count as usize;
        if count < self.locals.len() {
            declares(&self.locals[..count], name)
        } else {
            declares(self.locals, name)
        }
    }
}

impl<'f> Scopes<'f> {
    /// Outside of all scopes.
    pub fn new(alloc: Global, names: IndexMap<Vec<u8>, Meaning>) -> Scopes<'f>
        ensures place { place_of result ≡ nowhere }
        ensures fits { (b : Body) → length (body_of b).environment.scope.locals < 2 ^ 32 → meaning_in names.entries ≡ (body_of b).environment.name → Fits b result }
    {
        Scopes {
            names,
            locals: Vec::new(alloc),
            places: Vec::new(alloc),
            start: 0,
            next: 0,
            in_loop: false,
        }
    }

    // What a name means here.
    fn meaning(&self, name: &[u8]) -> Meaning
        ensures { meaning_of result ≡ meaning_in self.now.names.entries name.now }
    {
        match self.names.get(name) {
            Some(meaning) => *meaning,
            None => Meaning::Missing,
        }
    }

    // Where the local of a number stands among those in scope, if it does and has the name.
    fn place_at(&self, x: u32, name: &[u8]) -> Option<usize>
        ensures there { IfSome result (λ p. (l : Local) × (slice_get self.now.locals.items p ≡ Some l) × (bytes_eq l.name.now name.now ≡ true)) }
        ensures placed { IfSome result (λ p. slice_get self.now.places.items x ≡ Some p) }
        ensures missing { IsNone result → (p : ℕ) → (l : Local) → slice_get self.now.places.items x ≡ Some p → slice_get self.now.locals.items p ≡ Some l → bytes_eq l.name.now name.now ≡ true → ⊥ }
    {
        let place = *at(self.places.as_slice(), x as usize)?;
        let local = at(self.locals.as_slice(), place)?;
        if is_named(local, name) {
            Some(place)
        } else {
            None
        }
    }

    // Where the latest local in scope of a name stands.
    fn latest(&self, body: &Body<'f>, name: &[u8]) -> Option<usize>
        requires { Fits body.now self.now }
        ensures { result ≡ latest_place (latest_first self.now.locals.items) name.now }
    {
        match self.meaning(name) {
            Meaning::Local(x, _) => self.place_at(x, name),
            Meaning::Missing => None,
            Meaning::Barred => None,
            Meaning::Fixed(_, _, _) => None,
            Meaning::Routine(_) => None,
        }
    }

    /// Whether the innermost scope has declared the name.
    pub fn has_own(&self, body: &Body<'f>, name: &[u8]) -> bool
        requires { Fits body.now self.now }
        ensures { result ≡ contains (place_of self.now).own name.now }
    {
        match self.latest(body, name) {
            Some(place) => self.start <= place,
            None => false,
        }
    }

    /// Declares the name as the next local.
    pub fn declare(&mut self, body: &Body<'f>, name: &'f [u8]) -> Result<(), AllocError>
        requires fits { Fits body.now self.old }
        requires room { (place_of self.old).next < length (body_of body.now).environment.scope.locals }
        ensures fits { OnOk result (Fits body.now self.new) }
        ensures place { OnOk result (place_of self.new ≡ declared (place_of self.old) name.now) }
    {
        let number = self.next;
        let ty = body.local_type(number);
        let hides = hide(
            &mut self.names,
            body.environment.alloc,
            name,
            Meaning::Local(number, ty),
        )?;
        let place = self.locals.len();
        self.places.push(place)?;
        self.locals.push(Local {
            name,
            number,
            hides,
        })?;
        self.next = number + 1;
        Ok(())
    }

    /// Where the innermost scope is left.
    pub fn mark(&self) -> Mark
        requires { self.now.start ≤ length self.now.locals.items }
        ensures { IsMark result (place_of self.now) }
    {
        Mark {
            count: self.locals.len(),
            start: self.start,
            in_loop: self.in_loop,
        }
    }

    /// A scope inside begins.
    pub fn enter(&mut self, body: &Body<'f>)
        requires fits { Fits body.now self.old }
        ensures fits { Fits body.now self.new }
        ensures place { place_of self.new ≡ entered (place_of self.old) }
    {
        self.start = self.locals.len();
    }

    /// A loop is around.
    pub fn enter_loop(&mut self, body: &Body<'f>)
        requires fits { Fits body.now self.old }
        ensures fits { Fits body.now self.new }
        ensures place { place_of self.new ≡ looped (place_of self.old) }
    {
        self.in_loop = true;
    }

    // The innermost local is in scope no longer.
    fn forget(&mut self, body: &Body<'f>)
        requires shows { Shown body.now self.old }
        ensures shows { Shown body.now self.new }
        ensures locals { self.new.locals.items ≡ take (length self.old.locals.items - 1) self.old.locals.items }
        ensures next { self.new.next ≡ self.old.next }
        ensures places { self.new.places.items ≡ self.old.places.items }
    {
        if let Some(last) = self.locals.pop() {
            put(&mut self.names, last.name, last.hides);
        }
    }

    /// Back in the scope of a mark.
    pub fn leave(&mut self, body: &Body<'f>, mark: Mark)
        requires fits { Fits body.now self.old }
        requires start { mark.start ≤ mark.count }
        requires count { mark.count ≤ length (place_of self.old).visible }
        ensures fits { Fits body.now self.new }
        ensures place { place_of self.new ≡ left mark (place_of self.old) }
    {
        while self.locals.len() > mark.count {
            self.forget(body);
        }
        self.start = mark.start;
        self.in_loop = mark.in_loop;
    }
}
