//! Types of expressions.

ghost use Rattle.std.specs.Prelude.{◌≡◌, IfOk, OnErr, IfErr};
ghost use Rattle.kt_names.specs.declared.fault.CheckFault.TheVariants.{NoMemory};
ghost use Rattle.kt_names.specs.Types.{char, int, long, mutex, pointer_to, pointee, is_pointer, is_integer_root, is_integer, is_scalar, same_ctype, common, root_type};
ghost use Rattle.kt_names.specs.Environment.{is_struct};

use crate::fault::CheckFault;
use kt_types::Ty;

/// What a type is without its stars. A struct has a number, one for each name.
#[derive(Clone, Copy, PartialEq, Eq, Hash)]
pub enum Root {
    Char,
    Int,
    Long,
    Mutex,
    Struct(u32),
}

/// A type of an expression: a root with so many stars. (Arrays are no types of expressions.)
#[derive(Clone, Copy, PartialEq, Eq)]
pub struct CType {
    pub root: Root,
    pub stars: usize,
}

impl Root {
    /// Whether the type without stars is an integer.
    pub fn is_integer(self) -> bool
        ensures { result ≡ is_integer_root self }
    {
        match self {
            Root::Char => true,
            Root::Int => true,
            Root::Long => true,
            Root::Mutex => false,
            Root::Struct(_) => false,
        }
    }

    /// The type without stars, as the table has it.
    pub(crate) fn table_type(self) -> Ty
        ensures { result ≡ root_type self }
    {
        match self {
            Root::Char => Ty::Char,
            Root::Int => Ty::Int,
            Root::Long => Ty::Long,
            Root::Mutex => Ty::Mutex,
            Root::Struct(number) => Ty::Struct(number),
        }
    }
}

impl CType {
    /// `char`
    pub fn char() -> CType
        ensures { result ≡ char }
    {
        CType {
            root: Root::Char,
            stars: 0,
        }
    }

    /// `char *`
    pub fn text() -> CType
        ensures { result ≡ pointer_to char }
    {
        CType {
            root: Root::Char,
            stars: 1,
        }
    }

    /// `int`
    pub fn int() -> CType
        ensures { result ≡ int }
    {
        CType {
            root: Root::Int,
            stars: 0,
        }
    }

    /// `long`
    pub fn long() -> CType
        ensures { result ≡ long }
    {
        CType {
            root: Root::Long,
            stars: 0,
        }
    }

    /// `pthread_mutex_t`
    pub fn mutex() -> CType
        ensures { result ≡ mutex }
    {
        CType {
            root: Root::Mutex,
            stars: 0,
        }
    }

    /// The type of a pointer to this one. There is no memory for as many stars as a number can't count.
    pub fn pointer_to(self) -> Result<CType, CheckFault>
        ensures ok { IfOk result (λ t. t ≡ pointer_to self) }
        ensures err { IfErr result (λ f. f ≡ NoMemory) }
    {
        match self.stars.checked_add(1) {
            Some(stars) => Ok(CType {
                root: self.root,
                stars,
            }),
            None => Err(CheckFault::NoMemory),
        }
    }

    /// What a pointer of this type points to, if it is one (ISO/IEC 9899:2011, 6.2.5).
    pub fn pointee(self) -> Option<CType>
        ensures { result ≡ pointee self }
    {
        if self.stars == 0 {
            None
        } else {
            Some(CType {
                root: self.root,
                stars: self.stars - 1,
            })
        }
    }

    /// Whether it is a pointer.
    pub fn is_pointer(self) -> bool
        ensures { result ≡ is_pointer self }
    {
        self.stars != 0
    }

    /// Whether it is an integer.
    pub fn is_integer(self) -> bool
        ensures { result ≡ is_integer self }
    {
        self.stars == 0 && self.root.is_integer()
    }

    /// Whether it is an integer or a pointer.
    pub fn is_scalar(self) -> bool
        ensures { result ≡ is_scalar self }
    {
        self.is_integer() || self.is_pointer()
    }

    /// Whether it is a struct.
    pub fn is_struct(self) -> bool
        ensures { result ≡ is_struct self }
    {
        match self.root {
            Root::Struct(_) => self.stars == 0,
            Root::Char => false,
            Root::Int => false,
            Root::Long => false,
            Root::Mutex => false,
        }
    }

    /// Whether it is the same type.
    pub fn is(self, other: CType) -> bool
        ensures { result ≡ same_ctype self other }
    {
        self == other
    }

    /// The type that this integer and another take in arithmetic (6.3.1.8).
    pub fn common(self, other: CType) -> CType
        ensures { result ≡ common self other }
    {
        if self.is(CType::long()) || other.is(CType::long()) {
            CType::long()
        } else {
            CType::int()
        }
    }
}
