//! The earlier of two faults, and of two answers.

ghost use Rattle.std.specs.Prelude.{◌≡◌};
ghost use Rattle.kt_typing.specs.Faults.{rank, is_before};
ghost use Rattle.kt_typing.specs.First.{earlier_of};
ghost use Rattle.kt_operators.specs.Judged.{sooner, both_of};

use kt_operands::refusal::Refusal;
use kt_typing::{Fault, Kind};

fn rank_of(kind: Kind) -> u8
    ensures { result ≡ rank kind }
{
    match kind {
        Kind::Unknown => 0,
        Kind::Twice => 1,
        Kind::BadType => 2,
        Kind::WritesIn => 3,
        Kind::Incomplete => 4,
        Kind::TooBig => 5,
        Kind::Entry => 6,
        Kind::Note => 7,
        Kind::NoMain => 8,
    }
}

fn comes_before(one: Fault, other: Fault) -> bool
    ensures { result ≡ is_before one other }
{
    one.at < other.at || (one.at == other.at && rank_of(one.kind) < rank_of(other.kind))
}

/// The earlier of two faults: at the lesser place, or at one place of the earlier kind.
pub fn earlier(one: Fault, other: Fault) -> Fault
    ensures { result ≡ earlier_of one other }
{
    if comes_before(other, one) { other } else { one }
}

/// Of two refusals want of memory, or else the earlier fault.
pub fn sooner(one: Refusal, other: Refusal) -> Refusal
    ensures { result ≡ sooner one other }
{
    match one {
        Refusal::NoMemory => Refusal::NoMemory,
        Refusal::Fault(f) => match other {
            Refusal::NoMemory => Refusal::NoMemory,
            Refusal::Fault(g) => Refusal::Fault(earlier(f, g)),
        },
    }
}

/// Two parts that are judged both: what they are, or the earlier fault.
pub fn both<A: Drop, B: Drop>(
    a: Result<A, Refusal>,
    b: Result<B, Refusal>,
) -> Result<(A, B), Refusal>
    ensures { result ≡ both_of a b }
{
    match a {
        Ok(x) => match b {
            Ok(y) => Ok((x, y)),
            Err(g) => {
                drop(x);
                Err(g)
            }
        },
        Err(f) => match b {
            Ok(y) => {
                drop(y);
                Err(f)
            }
            Err(g) => Err(sooner(f, g)),
        },
    }
}
