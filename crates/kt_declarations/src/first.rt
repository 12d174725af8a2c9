//! The earlier of two faults, of which each may be missing.

ghost use Rattle.std.specs.Prelude.{◌≡◌};
ghost use Rattle.kt_typing.specs.First.{earlier};
ghost use Rattle.kt_program.specs.Declarators.{where_not};

use kt_operators::first::earlier as earlier_of;
use kt_typing::{Fault, Kind};

/// The fault where a condition doesn't hold.
pub fn where_not(holds: bool, at: u32, kind: Kind) -> Option<Fault>
    ensures { result ≡ where_not holds (record { at = at; kind = kind }) }
{
    if holds {
        None
    } else {
        Some(Fault { at, kind })
    }
}

/// The earlier of two faults, of which each may be missing.
pub fn earlier(one: Option<Fault>, other: Option<Fault>) -> Option<Fault>
    ensures { result ≡ earlier one other }
{
    match one {
        None => other,
        Some(f) => match other {
            None => Some(f),
            Some(g) => Some(earlier_of(f, g)),
        },
    }
}
