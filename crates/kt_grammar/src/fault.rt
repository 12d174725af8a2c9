ghost use Rattle.std.specs.Prelude.{◌≡◌, Ok, Err, IfOk, IfErr};
ghost use Rattle.kt_grammar.specs.declared.fault.Fault.TheVariants.{NoMemory};

use std::alloc::{AllocError, AllocFailed};

/// Why symbols were not read. A place is told by how many symbols stand from there to the end.
#[derive(Clone, Copy, PartialEq, Eq)]
pub enum Fault {
    /// What was read up to there, that symbol included, begins no text of the grammar.
    Syntax(usize),
    /// The symbol there is deeper than the limit.
    TooDeep(usize),
    NoMemory,
}

/// Both, or the fault of the second. On the way back from a fault nothing that was read is held.
pub fn beside<X: Drop, Y: Drop>(x: X, more: Result<Y, Fault>) -> Result<(X, Y), Fault>
    ensures ok { IfOk result (λ p. (p.0 ≡ x) × (more ≡ Ok p.1)) }
    ensures err { IfErr result (λ e. more ≡ Err e) }
{
    match more {
        Ok(y) => Ok((x, y)),
        Err(fault) => Err(fault),
    }
}

impl From<AllocError> for Fault {
    ghost from_gives = { λ _ e. e ≡ NoMemory };

    fn from(_e: AllocError) -> Fault {
        Fault::NoMemory
    }
}

impl<T: Drop> From<AllocFailed<T>> for Fault {
    ghost from_gives = { λ _ e. e ≡ NoMemory };

    fn from(_e: AllocFailed<T>) -> Fault {
        Fault::NoMemory
    }
}
