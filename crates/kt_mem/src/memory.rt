//! What memory holds: names, values, and lists of values and of cells.
ghost use Rattle.std.specs.Prelude.{◌≡◌, ◌<◌, length, slice_set};

use crate::cell::Cell;
use std::alloc::AllocError;
use std::marker::Model;

/// The name of an object.
#[derive(Clone, Copy, Debug, PartialEq, Eq)]
pub enum Name {
    /// A global, by its number in the version in force.
    Glob(u32),

    /// A string literal: the number of its version, and its number there.
    Lit(u8, u32),

    /// A heap object. In memory as the meaning has it, the heap number, which counts allocations
    /// from 0; in a heap, the address.
    Heap(u64),
}

/// What a cell or a local holds.
#[derive(Clone, Copy, Debug, PartialEq, Eq)]
pub enum Value {
    /// A number of an integer type.
    Num(i64),

    /// The null pointer.
    Null,

    /// A pointer: the object's name, and the offset in cells from the object's start.
    Ptr(Name, u32),

    /// A mutex that nobody holds.
    Free,

    /// A mutex that this thread holds.
    Held(u8),

    /// The value of a cell or local that was not written yet.
    Undef,
}

/// A list of values, as the locals of a frame.
#[derive(Drop)]
pub struct Values {
    items: Vec<Value>,
}

impl Model for Values {
    ghost use Rattle.std.specs.Prelude.{List};
    ghost use Rattle.kt_mem.specs.declared.memory.Value.{Value as Item};

    ghost Value = { List Item };

    ghost view = { λ v. v.items.items };
}

impl Values {
    /// The list that the vector holds.
    pub fn from_vec(items: Vec<Value>) -> Self
        ensures { result ≡ items.items }
    {
        Values { items }
    }

    /// The vector that holds the list.
    pub fn into_vec(self) -> Vec<Value>
        ensures { result.items ≡ self }
    {
        self.items
    }

    /// The list as a slice.
    pub fn as_slice(&self) -> &[Value]
        ensures { result.now ≡ self.now }
    {
        self.items.as_slice()
    }
}

impl Clone for Values {
    ghost is_clone = { λ a b. b ≡ a };

    fn clone(&self) -> Result<Values, AllocError> {
        Ok(Values {
            items: self.items.clone()?,
        })
    }
}

/// The cells of an object, in order.
#[derive(Drop)]
pub struct Cells {
    items: Vec<Cell>,
}

impl Model for Cells {
    ghost use Rattle.std.specs.Prelude.{List};
    ghost use Rattle.kt_mem.specs.Memory.{Cell};

    ghost Value = { List Cell };

    ghost view = { λ c. c.items.items };
}

impl Cells {
    /// The list that the vector holds.
    pub fn from_vec(items: Vec<Cell>) -> Self
        ensures { result ≡ items.items }
    {
        Cells { items }
    }

    /// The vector that holds the list.
    pub fn into_vec(self) -> Vec<Cell>
        ensures { result.items ≡ self }
    {
        self.items
    }

    /// The list as a slice.
    pub fn as_slice(&self) -> &[Cell]
        ensures { result.now ≡ self.now }
    {
        self.items.as_slice()
    }

    /// Writes the cell at a place.
    pub fn set(&mut self, place: usize, cell: Cell)
        requires { place < length self.old }
        ensures { self.new ≡ slice_set self.old place cell }
    {
        self.items[place] = cell;
    }
}

impl Clone for Cells {
    ghost is_clone = { λ a b. b ≡ a };

    fn clone(&self) -> Result<Cells, AllocError> {
        Ok(Cells {
            items: self.items.clone()?,
        })
    }
}
