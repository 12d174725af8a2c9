//! Which operands an operation takes (ISO/IEC 9899:2011, 6.5).

ghost use Rattle.std.specs.Prelude.{◌≡◌};
ghost use Rattle.kt_tree.specs.Kinds.{is_moved, points_to_struct, points_to_field, field_at, is_operation};
ghost use Rattle.kt_typing.specs.Rules.{lacks_cells};
ghost use Rattle.kt_operands.specs.Tests.{is_sum, is_comparison};
ghost use Rattle.kt_operands.specs.Views.{scope_of};

use crate::environment::Environment;
use crate::types::{INT, LONG, common};
use kt_tree::Operation;
use kt_types::Ty;

impl Environment<'_> {
    /// Two integers, which together have the type.
    fn is_sum(&self, t: u32, operands: &[u32]) -> bool
        ensures { result ≡ is_sum (scope_of self.now) t operands.now }
    {
        match operands {
            [a, b] => self.is_integer(*a) && self.is_integer(*b) && common(*a, *b) == t,
            _ => false,
        }
    }

    /// Two operands that are compared.
    fn is_comparison(&self, t: u32, operands: &[u32]) -> bool
        ensures { result ≡ is_comparison (scope_of self.now) t operands.now }
    {
        match operands {
            [a, b] => self.is_comparable(*a, *b) && t == INT,
            _ => false,
        }
    }

    /// A pointer to elements of type e, and an integer that moves it.
    fn is_moved(&self, e: u32, t: u32, p: u32, i: u32) -> bool
        ensures { result ≡ is_moved (scope_of self.now) e t p i }
    {
        p == t && self.points_to(p, e) && self.is_complete(e) && self.is_integer(i)
    }

    /// The type is a pointer to the struct of this number.
    fn points_to_struct(&self, t: u32, number: u32) -> bool
        ensures { result ≡ points_to_struct (scope_of self.now) t number }
    {
        match self.pointee(t) {
            Some(e) => match self.ty(e) {
                Some(Ty::Struct(n)) => n == number,
                _ => false,
            },
            None => false,
        }
    }

    /// The type is a pointer to the field of this number.
    fn points_to_field(&self, t: u32, number: u32, index: u32) -> bool
        ensures { result ≡ points_to_field (scope_of self.now) t (field_at (scope_of self.now) number index) }
    {
        match self.field_type(number, index) {
            Some(f) => self.points_to(t, self.field_pointee(f)),
            None => false,
        }
    }

    /// Whether the operation takes operands of these types and gives this type.
    pub fn takes_operation(&self, operation: Operation, t: u32, operands: &[u32]) -> bool
        ensures { result ≡ is_operation (scope_of self.now) operation t operands.now }
    {
        match operation {
            Operation::Add => self.is_sum(t, operands),
            Operation::Subtract => self.is_sum(t, operands),
            Operation::Multiply => self.is_sum(t, operands),
            Operation::Divide => self.is_sum(t, operands),
            Operation::Remainder => self.is_sum(t, operands),
            Operation::Less => self.is_comparison(t, operands),
            Operation::Greater => self.is_comparison(t, operands),
            Operation::LessEqual => self.is_comparison(t, operands),
            Operation::GreaterEqual => self.is_comparison(t, operands),
            Operation::Equal => self.is_comparison(t, operands),
            Operation::NotEqual => self.is_comparison(t, operands),
            Operation::Not => match operands {
                [a] => self.is_scalar(*a) && t == INT,
                _ => false,
            },
            Operation::Convert => match operands {
                [a] => self.is_integer(*a) && self.is_integer(t),
                _ => false,
            },
            Operation::ElementAfter(e) => match operands {
                [a, b] => self.is_moved(e, t, *a, *b) || self.is_moved(e, t, *b, *a),
                _ => false,
            },
            Operation::ElementBefore(e) => match operands {
                [p, i] => self.is_moved(e, t, *p, *i),
                _ => false,
            },
            Operation::ElementsBetween(e) => match operands {
                [p, q] => *p == *q && self.points_to(*p, e) && self.is_complete(e) && t == LONG,
                _ => false,
            },
            Operation::Field(number, index) => match operands {
                [p] => self.points_to_struct(*p, number) && self.points_to_field(t, number, index),
                _ => false,
            },
        }
    }

    /// Whether the types are right but for the cells of what is pointed to.
    pub fn lacks_cells(&self, operation: Operation, operands: &[u32]) -> bool
        ensures { result ≡ lacks_cells (scope_of self.now) operation operands.now }
    {
        match operation {
            Operation::ElementAfter(e) => match operands {
                [a, b] => !self.is_complete(e) && (self.is_integer(*a) || self.is_integer(*b)),
                _ => false,
            },
            Operation::ElementBefore(e) => match operands {
                [_, b] => !self.is_complete(e) && self.is_integer(*b),
                _ => false,
            },
            Operation::ElementsBetween(e) => match operands {
                [a, b] => !self.is_complete(e) && *a == *b,
                _ => false,
            },
            _ => false,
        }
    }
}
