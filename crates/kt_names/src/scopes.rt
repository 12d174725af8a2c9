//! The names that are in scope (ISO/IEC 9899:2011, 6.2.1).

ghost use Rattle.std.specs.Prelude.{◌≡◌, ◌≤◌, length, take, OnOk, IfErr};
ghost use Rattle.kt_names.specs.declared.fault.CheckFault.TheVariants.{NoMemory};
ghost use Rattle.kt_names.specs.Statements.{contains, declared, entered};
ghost use Rattle.kt_names.specs.Functions.{no_state};
ghost use Rattle.kt_names.specs.Scopes.{state_of, Grown};

use crate::fault::CheckFault;
use crate::in_scope::InScope;
use crate::info::Scopes;
use std::alloc::Global;

impl Scopes {
    /// No names are in scope.
    pub fn new(alloc: Global) -> Scopes
        ensures { state_of result ≡ no_state }
    {
        Scopes {
            visible: InScope::new(alloc),
            start: 0,
            next: 0,
        }
    }

    /// Whether the innermost scope has the name.
    pub fn has_own(&self, name: &[u8]) -> bool
        ensures { result ≡ contains (state_of self.now).own name.now }
    {
        match self.visible.place_of(name) {
            Some(place) => self.start <= place,
            None => false,
        }
    }

    /// Declares the name as the next local.
    pub fn declare(&mut self, name: &[u8]) -> Result<(), CheckFault>
        ensures declared { OnOk result (state_of self.new ≡ declared (state_of self.old) name.now) }
        ensures grown { OnOk result (Grown self.old self.new) }
        ensures memory { IfErr result (λ f. f ≡ NoMemory) }
    {
        match self.next.checked_add(1) {
            Some(next) => {
                self.visible.push(name, self.next)?;
                self.next = next;
                Ok(())
            }
            None => Err(CheckFault::NoMemory),
        }
    }

    /// A new scope inside; where the outer one begins.
    pub fn enter(&mut self) -> usize
        ensures entered { state_of self.new ≡ entered (state_of self.old) }
        ensures visible { self.new.visible ≡ self.old.visible }
        ensures inner { self.new.start ≡ length self.old.visible }
        ensures outer { result ≡ self.old.start }
    {
        let start = self.start;
        self.start = self.visible.len();
        start
    }

    /// The end of the innermost scope, in an outer one that begins there.
    pub fn leave(&mut self, start: usize)
        requires { start ≤ self.old.start }
        ensures visible { self.new.visible ≡ take self.old.start self.old.visible }
        ensures start { self.new.start ≡ start }
        ensures next { self.new.next ≡ self.old.next }
    {
        self.visible.truncate(self.start);
        self.start = start;
    }
}
