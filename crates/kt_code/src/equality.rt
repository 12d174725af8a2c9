//! Equality of private states.
ghost use Rattle.std.specs.Prelude.{◌≡◌, ◌↔◌, IsTrue};

use crate::frame::{Frame, Frames};
use crate::operands::Operands;
use crate::private::Private;
use kt_mem::{KeptLocal, Stored};

/// What is compared whole.
trait Same {
    /// Whether the two are equal.
    fn is(&self, other: &Self) -> bool
        ensures { IsTrue result ↔ (self.now ≡ other.now) };
}

impl Same for Stored {
    #[inline]
    fn is(&self, other: &Stored) -> bool {
        self.value() == other.value()
    }
}

impl Same for KeptLocal {
    fn is(&self, other: &KeptLocal) -> bool {
        self.function == other.function && self.local == other.local && self.value == other.value
    }
}

impl Same for Frame {
    fn is(&self, other: &Frame) -> bool {
        self.function == other.function
            && self.at == other.at
            && are_same(self.locals.as_slice(), other.locals.as_slice())
    }
}

impl Same for Operands {
    #[tactic(auto, using(crate::proofs::Reversed::reversed_equal))]
    fn is(&self, other: &Operands) -> bool {
        are_same(self.as_slice(), other.as_slice())
    }
}

impl Same for Frames {
    #[tactic(auto, using(crate::proofs::Reversed::reversed_equal))]
    fn is(&self, other: &Frames) -> bool {
        are_same(self.as_slice(), other.as_slice())
    }
}

/// Whether two lists are equal.
fn are_same<T: Same>(a: &[T], b: &[T]) -> bool
    ensures { IsTrue result ↔ (a.now ≡ b.now) }
{
    let mut left = b;
    for item in a {
        let Some((first, others)) = left.split_first() else {
            return false;
        };
        if !item.is(first) {
            return false;
        }
        left = others;
    }
    left.is_empty()
}

impl Private {
    /// Whether this state and another are equal.
    pub fn is(&self, other: &Private) -> bool
        ensures { IsTrue result ↔ (self.now ≡ other.now) }
    {
        self.version == other.version
            && self.mode == other.mode
            && self.operands.is(&other.operands)
            && self.frames.is(&other.frames)
            && are_same(self.locals.as_slice(), other.locals.as_slice())
    }
}
