//! What holds in the whole body of a function.

ghost use Rattle.std.specs.Prelude.{◌≡◌};
ghost use Rattle.std.proofs.Props.{props};
ghost use Rattle.kt_names.specs.Firsts.{AreFirst};

use crate::ctype::CType;
use crate::environment::Environment;
use crate::info::{FunctionInfo, LocalInfo, Scopes};
use indexmap::IndexMap;

/// A function's body: what stands around it, its locals in the order of their declarations, and its result.
#[derive(Drop)]
pub struct Body<'b, 'e, 'f> {
    pub outside: &'b Environment<'e>,
    /// The type of each local.
    pub types: &'b [CType],
    pub locals: &'b [LocalInfo<'f>],
    /// The place of the first local of each name.
    pub first: &'b IndexMap<Vec<u8>, usize>,
    /// The function has `E_NOTELOCALS`.
    pub noted: bool,
    pub result: Option<CType>,
    ghost places: { AreFirst first.now.entries locals.now } by { Prim.hlevel props },
}

impl Body<'_, '_, '_> {
    ghost use Rattle.std.specs.Prelude.{take};
    ghost use Rattle.kt_names.specs.Statements.{contains, here};
    ghost use Rattle.kt_names.specs.Views.{environment_of};
    ghost use Rattle.kt_names.specs.Scopes.{state_of, body_of};

    /// What names stand for where these are in scope.
    pub fn here<'s>(&'s self, scopes: &'s Scopes) -> Environment<'s>
        ensures { environment_of result ≡ here (body_of self.now) (state_of scopes.now) }
    {
        Environment {
            alloc: self.outside.alloc,
            names: self.outside.names,
            types: self.outside.types,
            structs: self.outside.structs,
            outer: self.outside.outer,
            literals: self.outside.literals,
            points: self.outside.points,
            locals: self.types,
            noted: self.noted,
            visible: Some(&scopes.visible),
        }
    }

    /// Whether one of so many first locals of the function has the name.
    pub fn has_among(&self, count: u32, name: &[u8]) -> bool
        ensures { result ≡ contains (take count (body_of self.now).names) name.now }
    {
        match self.first.get(name) {
            Some(place) => *place < count as usize,
            None => false,
        }
    }

    /// What names stand for before its parameters.
    pub fn around(&self) -> Environment<'_>
        ensures { environment_of result ≡ (body_of self.now).environment }
    {
        Environment {
            alloc: self.outside.alloc,
            names: self.outside.names,
            types: self.outside.types,
            structs: self.outside.structs,
            outer: self.outside.outer,
            literals: self.outside.literals,
            points: self.outside.points,
            locals: self.types,
            noted: self.noted,
            visible: self.outside.visible,
        }
    }
}

impl<'f> FunctionInfo<'f> {
    ghost use Rattle.kt_names.specs.Views.{environment_of};
    ghost use Rattle.kt_names.specs.Scopes.{body_of, body_by};

    /// The body of this function, seen from outside functions.
    pub fn body<'b, 'e>(&'b self, outside: &'b Environment<'e>) -> Body<'b, 'e, 'f>
        ensures { body_of result ≡ body_by (environment_of outside.now) self.now }
    {
        Body {
            outside,
            types: self.types.as_slice(),
            locals: self.locals.as_slice(),
            first: &self.first,
            noted: self.noted,
            result: self.result,
        }
    }
}
