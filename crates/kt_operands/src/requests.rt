//! Which operands a request takes (ISO/IEC 9899:2011, 6.5).

ghost use Rattle.std.specs.Prelude.{◌≡◌, ◌&&◌, not, slice_get};
ghost use Rattle.std.specs.Option.{option_map};
ghost use Rattle.kt_tree.specs.Kinds.{points_to, is_scalar, is_complete, is_array_type, type_at, takes, is_entry, is_request};
ghost use Rattle.kt_operands.specs.Tests.{behind, asks_nothing, asks_integer, asks_pointer};
ghost use Rattle.kt_operands.specs.Views.{scope_of, head_of};

use crate::environment::Environment;
use crate::types::{CHAR, INT, LONG, MUTEX};
use kt_tree::{Part, Request};

// It gives an `int` and takes nothing.
fn asks_nothing(t: Option<u32>, operands: &[u32]) -> bool
    ensures { result ≡ asks_nothing t operands.now }
{
    match t {
        Some(t) => t == INT && operands.is_empty(),
        None => false,
    }
}

impl Environment<'_> {
    // It gives an `int` and takes an integer.
    fn asks_integer(&self, t: Option<u32>, operands: &[u32]) -> bool
        ensures { result ≡ asks_integer (scope_of self.now) t operands.now }
    {
        match t {
            Some(t) => match operands {
                [e] => self.is_integer(*e) && t == INT,
                _ => false,
            },
            None => false,
        }
    }

    // It gives an `int` and takes a pointer to a type.
    fn asks_pointer(&self, e: u32, t: Option<u32>, operands: &[u32]) -> bool
        ensures { result ≡ asks_pointer (scope_of self.now) e t operands.now }
    {
        match t {
            Some(t) => match operands {
                [p] => self.points_to(*p, e) && t == INT,
                _ => false,
            },
            None => false,
        }
    }

    // The operands that a part of a format leaves; none where it doesn't take the first.
    fn behind<'o>(&self, part: &Part, operands: &'o [u32]) -> Option<&'o [u32]>
        ensures { option_map (λ rest. rest.now) result ≡ behind (scope_of self.now) part.now operands.now }
    {
        match part {
            Part::Bytes(_) => Some(operands),
            Part::Number => match operands {
                [t, rest @ ..] => if self.is_integer(*t) {
                    Some(rest)
                } else {
                    None
                },
                _ => None,
            },
            Part::Byte => match operands {
                [t, rest @ ..] => if self.is_integer(*t) && *t != LONG {
                    Some(rest)
                } else {
                    None
                },
                _ => None,
            },
            Part::Text => match operands {
                [t, rest @ ..] => if self.points_to(*t, CHAR) {
                    Some(rest)
                } else {
                    None
                },
                _ => None,
            },
        }
    }

    // The parts of a format take operands of these types.
    fn takes(&self, parts: &[Part], operands: &[u32]) -> bool
        ensures { result ≡ takes (scope_of self.now) parts.now operands.now }
    {
        let mut rest = operands;
        for part in parts {
            match self.behind(part, rest) {
                Some(behind) => rest = behind,
                None => return false,
            }
        }
        rest.is_empty()
    }

    // The function has no result and one parameter, of this type.
    fn is_entry(&self, function: u32, t: u32) -> bool
        ensures { result ≡ is_entry (slice_get (scope_of self.now).functions function) t }
    {
        match self.head(function) {
            Some(head) => match head.result {
                Some(_) => false,
                None => match head.parameters.as_slice() {
                    [p] => *p == t,
                    _ => false,
                },
            },
            None => false,
        }
    }

    // The type has a cell, which a pointer of the other type points to.
    fn is_cell(&self, p: u32, t: u32) -> bool
        ensures { result ≡ (points_to (scope_of self.now) p t && is_scalar (scope_of self.now) t) }
    {
        self.points_to(p, t) && self.is_scalar(t)
    }

    // The type is complete and no array, and pointers to it have the other type.
    fn is_allocated(&self, t: u32, e: u32) -> bool
        ensures { result ≡ (points_to (scope_of self.now) t e && is_complete (scope_of self.now) e && not (is_array_type (type_at (scope_of self.now) e))) }
    {
        self.points_to(t, e) && self.is_complete(e) && !self.is_array(e)
    }

    /// Whether the request takes operands of these types and gives this type, or nothing.
    pub fn takes_request(&self, request: &Request, t: Option<u32>, operands: &[u32]) -> bool
        ensures { result ≡ is_request (scope_of self.now) request.now t operands.now }
    {
        match request {
            Request::Load => match t {
                Some(t) => match operands {
                    [p] => self.is_cell(*p, t),
                    _ => false,
                },
                None => false,
            },
            Request::Store => match t {
                Some(t) => match operands {
                    [p, v] => self.is_cell(*p, t) && *v == t,
                    _ => false,
                },
                None => false,
            },
            Request::Allocate(e, _) => match t {
                Some(t) => match operands {
                    [n] => self.is_integer(*n) && self.is_allocated(t, *e),
                    _ => false,
                },
                None => false,
            },
            Request::Release => match t {
                Some(_) => false,
                None => match operands {
                    [p] => self.is_pointer(*p),
                    _ => false,
                },
            },
            Request::Lock => self.asks_pointer(MUTEX, t, operands),
            Request::Unlock => self.asks_pointer(MUTEX, t, operands),
            Request::InitMutex => self.asks_pointer(MUTEX, t, operands),
            Request::GetChar => asks_nothing(t, operands),
            Request::PutChar => self.asks_integer(t, operands),
            Request::Puts => self.asks_pointer(CHAR, t, operands),
            Request::Print(parts) => match t {
                Some(t) => self.takes(parts.as_slice(), operands) && t == INT,
                None => false,
            },
            Request::Create(function) => match t {
                Some(t) => match operands {
                    [e] => self.is_entry(*function, *e) && t == INT,
                    _ => false,
                },
                None => false,
            },
            Request::Join => self.asks_integer(t, operands),
            Request::Point(n) => match t {
                Some(_) => false,
                None => self.is_update(*n) && operands.is_empty(),
            },
            Request::IsUpdating => asks_nothing(t, operands),
            Request::IsUpdatingFrom(n) => self.is_name(*n) && asks_nothing(t, operands),
            Request::Automigrate => t.is_none() && operands.is_empty(),
            Request::MigrateLocal(x) => self.keeps(*x) && asks_nothing(t, operands),
        }
    }
}
