//! What stands around the declarations of a file.

ghost use Rattle.std.specs.Prelude.{◌≡◌};
ghost use Rattle.kt_names.specs.Types.{ctype, root_of, number_of_struct};
ghost use Rattle.kt_names.specs.Environment.{cells_of, is_complete};
ghost use Rattle.kt_names.specs.Uses.{stars_of};
ghost use Rattle.kt_names.specs.Tables.{declared_type};
ghost use Rattle.kt_check.specs.Files.{outside};
ghost use Rattle.kt_names.specs.Views.{environment_of};
ghost use Rattle.kt_check.specs.Stages.{frame_seen, sofar_of};

use crate::frame::Frame;
use crate::sofar::Sofar;
use kt_grammar::Base;
use kt_names::ctype::{CType, Root};
use kt_names::environment::Environment;
use kt_syntax::Pointer;

/// How many stars a declarator has.
pub(crate) fn stars_of(pointer: &Option<Pointer>) -> usize
    ensures { result ≡ stars_of pointer.now }
{
    match pointer {
        None => 0,
        Some(pointer) => pointer.stars.count,
    }
}

impl Frame<'_> {
    /// The environment outside functions.
    pub(crate) fn outside<'s>(&'s self, sofar: &'s Sofar<'s>) -> Environment<'s>
        ensures { environment_of result ≡ outside (frame_seen self.now) (sofar_of sofar.now) }
    {
        Environment {
            alloc: self.alloc,
            names: self.names,
            types: self.types,
            structs: &sofar.structs,
            outer: self.outer,
            literals: self.literals,
            points: self.points,
            locals: &[],
            noted: false,
            visible: None,
        }
    }

    /// How many cells the type has.
    pub(crate) fn cells_of(&self, sofar: &Sofar<'_>, t: CType) -> u32
        ensures { result ≡ cells_of (outside (frame_seen self.now) (sofar_of sofar.now)) t }
    {
        self.outside(sofar).cells_of(t)
    }

    /// Whether the type has its cells.
    pub(crate) fn is_complete(&self, sofar: &Sofar<'_>, t: CType) -> bool
        ensures { result ≡ is_complete (outside (frame_seen self.now) (sofar_of sofar.now)) t }
    {
        self.outside(sofar).is_complete(t)
    }

    /// The number of the struct of this name.
    pub(crate) fn number_of_struct(&self, name: &[u8]) -> u32
        ensures { result ≡ number_of_struct (frame_seen self.now).names name.now }
    {
        match self.names.get_index_of(name) {
            Some(number) => number as u32,
            None => 0,
        }
    }

    /// What a base is without its stars.
    fn root_of(&self, base: &Base) -> Root
        ensures { result ≡ root_of (frame_seen self.now).names base.now }
    {
        match base {
            Base::Char => Root::Char,
            Base::Int => Root::Int,
            Base::Long => Root::Long,
            Base::Mutex => Root::Mutex,
            Base::Struct(name) => Root::Struct(self.number_of_struct(name.word.as_bytes())),
        }
    }

    /// The type of a base with so many stars.
    pub(crate) fn ctype(&self, base: &Base, stars: usize) -> CType
        ensures { result ≡ ctype (frame_seen self.now).names base.now stars }
    {
        CType {
            root: self.root_of(base),
            stars,
        }
    }

    /// The type that a declarator declares, of an array that of its elements.
    pub(crate) fn declared_type(&self, base: &Base, pointer: &Option<Pointer>) -> CType
        ensures { result ≡ declared_type (frame_seen self.now).names base.now pointer.now }
    {
        self.ctype(base, stars_of(pointer))
    }

    /// The number of the literal at a place in the file.
    pub(crate) fn literal(&self, at: u32) -> u32
        ensures { result ≡ (frame_seen self.now).literal at }
    {
        match self.literals.get(&at) {
            Some(number) => *number,
            None => 0,
        }
    }
}
