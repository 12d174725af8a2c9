//! Writes the lines of closings that were refused because something is wrong at a place.

ghost use Rattle.std.specs.Prelude.{◌≡◌, ◌++◌, ◌∷◌, [], codes, OnOk};
ghost use Rattle.std.specs.Option.{option_copied};
ghost use Rattle.kt_text.specs.Lines.{line_of};
ghost use Rattle.kt_journal.specs.Marks as spec;
ghost use Rattle.kt_text.proofs.Spaced.{spaced};

use super::names::{function_at, function_name, global_name, local_name, trap_name};
use itoa::Buffer;
use kt_mem::Trap;
use kt_tree::Version;
use std::alloc::AllocError;
use xf_plan::{Fault, Place, Why};

/// The line of a refused closing that was to bring this version.
#[tactic(auto, using(crate::proofs::Spaced::fault_line))]
pub fn push_fault(
    text: &mut Vec<u8>,
    request: &[u8],
    new: Option<&Version>,
    fault: Fault,
) -> Result<(), AllocError>
    ensures { OnOk result (text.new.items ≡ text.old.items
        ++ line_of (codes "close" ∷ request.now ∷ codes "refused" ∷ spec.fault_words fault.why (spec.place_words (option_copied new.entry) fault.place))) }
{
    text.extend_from_slice(b"close")?;
    push_word(text, request)?;
    push_word(text, b"refused")?;
    push_word(text, why_name(fault.why).as_bytes())?;
    push_place(text, new, fault.place)?;
    push_cause(text, trap_in(fault.why))?;
    text.push(b'\n')?;
    Ok(())
}

// Appends a space and the word.
fn push_word(text: &mut Vec<u8>, word: &[u8]) -> Result<(), AllocError>
    ensures { OnOk result (text.new.items ≡ text.old.items ++ spaced (word.now ∷ [])) }
{
    text.push(b' ')?;
    text.extend_from_slice(word)
}

fn push_place(text: &mut Vec<u8>, new: Option<&Version>, place: Place) -> Result<(), AllocError>
    ensures { OnOk result (text.new.items ≡ text.old.items ++ spaced (spec.place_words (option_copied new.entry) place)) }
{
    let (mut first, mut second) = (Buffer::new(), Buffer::new());
    match place {
        Place::GlobalCell(global, cell) => {
            push_word(text, b"g")?;
            push_word(text, global_name(new, global))?;
            push_word(text, first.format(cell).as_bytes())
        }
        Place::Argument(thread) => {
            push_word(text, b"a")?;
            push_word(text, first.format(thread).as_bytes())
        }
        Place::Local(thread, number, local) => {
            let function = function_at(new, number);
            push_word(text, b"l")?;
            push_word(text, first.format(thread).as_bytes())?;
            push_word(text, function_name(function))?;
            push_word(text, local_name(function, local))
        }
        Place::HeapCell(number, cell) => {
            push_word(text, b"h")?;
            push_word(text, first.format(number).as_bytes())?;
            push_word(text, second.format(cell).as_bytes())
        }
    }
}

fn push_cause(text: &mut Vec<u8>, cause: Option<Trap>) -> Result<(), AllocError>
    ensures { OnOk result (text.new.items ≡ text.old.items ++ spaced (spec.trap_words cause)) }
{
    match cause {
        None => Ok(()),
        Some(cause) => push_word(text, trap_name(cause).as_bytes()),
    }
}

fn why_name(why: Why) -> &'static str
    ensures { result.now ≡ spec.why_name why }
{
    match why {
        Why::Rule(_) => "rule",
        Why::Interior => "interior",
        Why::Gone => "gone",
        Why::Retyped => "retyped",
        Why::Extent => "extent",
    }
}

// Of a rule that traps, the trap.
fn trap_in(why: Why) -> Option<Trap>
    ensures { result ≡ spec.trap_in why }
{
    match why {
        Why::Rule(cause) => Some(cause),
        _ => None,
    }
}
