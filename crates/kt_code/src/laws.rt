//! Laws of code, each the contract of a function that does nothing.
ghost use Rattle.kt_meaning.specs.Steps.{Settles};
ghost use Rattle.kt_code.specs.Looks.{AgreementIsSameActs, SameActsGoOn};
ghost use Rattle.kt_code.specs.Machine.{step};
ghost use Rattle.kt_code.specs.Settling.{settle};

use crate::code::Code;
use crate::private::Private;

/// From every private state settling ends after finitely many quiet steps in exactly one act, trap or end, whatever
/// the state is.
pub fn settle_law(code: &Code, private: &Private)
    ensures { Settles (step code.now) private.now (settle code.now private.now) }
{
    let _ = code.instrs();
}

/// A thread of a tree and one of code that agree on all numbers of replies do the same acts on all lists of replies; and
/// where both have settled, they do the same acts again after each reply of the act's kind.
pub fn agreement_law()
    ensures same_acts { AgreementIsSameActs }
    ensures onward { SameActsGoOn }
{}
