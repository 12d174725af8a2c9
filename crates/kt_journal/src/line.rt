//! What a line says.

ghost use Rattle.std.specs.Prelude.{◌≡◌, ◌≤◌, ◌<◌, ◌+◌, ◌^◌, length, IfOk, IfSome, MatchOption, OnOk, ◌++◌, replicate, true};
ghost use Rattle.kt_journal.specs.Grammar as spec;
ghost use Rattle.kt_journal.specs.Journal.{StandsAt, most_turns};
ghost use Rattle.kt_journal.specs.Reading.{split, stretch_in, TakesEnd, TakesEntry, TakesNone};

use super::cut::{cut_at, first_word};
use super::form::{Part, is_of, is_of_one};
use super::kit::Kit;
use super::word::{is, number};
use std::alloc::AllocError;

/// The most turns of a journal.
const MOST_TURNS: usize = 10_000_000;

/// Takes the line at the front of the text, where it may stand between the first and the last one, and adds its turns. It
/// gives what stands behind the line.
pub fn take_entry<'a>(
    kit: Kit,
    text: &'a [u8],
    turns: &mut Vec<u8>,
) -> Result<Option<&'a [u8]>, AllocError>
    requires { length turns.old.items ≤ most_turns }
    ensures taken { IfOk result (λ found. MatchOption found
        (TakesNone kit turns.old.items text.now × (turns.new.items ≡ turns.old.items))
        (λ behind. TakesEntry kit turns.old.items turns.new.items text.now behind.now)) }
    ensures shorter { IfOk result (λ found. IfSome found (λ behind. length behind.now < length text.now)) }
{
    match cut_at(text, b'\n') {
        None => Ok(None),
        Some((line, behind)) => match stretch(line) {
            Some((thread, count)) => {
                if count > MOST_TURNS - turns.len() {
                    return Ok(None);
                }
                push_all(turns, thread, count)?;
                Ok(Some(behind))
            }
            None => {
                if is_mark(kit, line) {
                    Ok(Some(behind))
                } else {
                    Ok(None)
                }
            }
        },
    }
}

fn push_all(turns: &mut Vec<u8>, thread: u8, count: usize) -> Result<(), AllocError>
    ensures { OnOk result (turns.new.items ≡ turns.old.items ++ replicate count thread) }
{
    'made: for _ in 0..count {
        turns.push(thread)?;
    }
    Ok(())
}

/// What stands behind the last line, where that stands at the front of the text.
pub fn take_end(text: &[u8]) -> Option<&[u8]>
    ensures { MatchOption result ((end : spec.Words) → spec.is_end end ≡ true → StandsAt end text.now → ⊥) (λ behind. TakesEnd text.now behind.now) }
{
    match cut_at(text, b'\n') {
        None => None,
        Some((line, behind)) => { if is_end(line) { Some(behind) } else { None } }
    }
}

/// The thread and the number of turns that a line says.
#[tactic(auto, using(crate::proofs::Turning::four_none))]
pub fn stretch(line: &[u8]) -> Option<(u8, usize)>
    ensures { result ≡ stretch_in (split line.now) }
{
    let (word, rest) = first_word(line);
    let (thread, rest) = first_word(rest?);
    let (count, rest) = first_word(rest?);
    if let Some(_) = rest {
        return None;
    }
    if !is(word, "turn") {
        return None;
    }
    let thread = number(thread, 64)?;
    let count = number(count, MOST_TURNS as u64)?;
    if count == 0 {
        None
    } else {
        Some((thread as u8, count as usize))
    }
}

fn is_mark(kit: Kit, line: &[u8]) -> bool
    ensures { result ≡ spec.is_mark kit (split line.now) }
{
    is_request(kit, line) || is_progress(line) || is_refusal(line)
}

fn is_request(kit: Kit, line: &[u8]) -> bool
    ensures { result ≡ spec.is_of (spec.request kit) (split line.now) }
{
    match kit {
        Kit::First => is_of(line, &[Part::Word("ask"), Part::Number]),
        Kit::Second => is_of(line, &[Part::Word("ask"), Part::Number, Part::Woken]),
    }
}

fn is_progress(line: &[u8]) -> bool
    ensures { result ≡ spec.is_of_one spec.progress (split line.now) }
{
    is_of_one(
        line,
        &[
            &[
                Part::Word("close"),
                Part::Number,
                Part::Word("ok"),
                Part::Number,
            ],
            &[Part::Word("main"), Part::Number],
            &[Part::Word("back"), Part::Number],
        ],
    )
}

/// Whether the line says why a closing was refused.
fn is_refusal(line: &[u8]) -> bool
    ensures { result ≡ spec.is_of_one spec.refusals (split line.now) }
{
    is_of_one(line, &REFUSALS)
}

fn is_end(line: &[u8]) -> bool
    ensures { result ≡ spec.is_end (split line.now) }
{
    is_of_one(
        line,
        &[
            &[Part::Word("end"), Part::Word("main"), Part::Value],
            &[
                Part::Word("end"),
                Part::Word("trap"),
                Part::Thread,
                Part::Trap,
            ],
            &[Part::Word("end"), Part::Word("stuck")],
            &[Part::Word("end"), Part::Word("budget")],
        ],
    )
}

const REFUSALS: [&[Part<'static>]; 12] = [
    &[
        Part::Word("close"),
        Part::Number,
        Part::Word("refused"),
        Part::Word("held"),
    ],
    &[
        Part::Word("close"),
        Part::Number,
        Part::Word("refused"),
        Part::Word("size"),
    ],
    &[
        Part::Word("close"),
        Part::Number,
        Part::Word("refused"),
        Part::Word("point"),
        Part::Thread,
    ],
    &[
        Part::Word("close"),
        Part::Number,
        Part::Word("refused"),
        Part::Word("entry"),
        Part::Thread,
    ],
    &[
        Part::Word("close"),
        Part::Number,
        Part::Word("refused"),
        Part::Fault,
        Part::Word("g"),
        Part::Name,
        Part::Number,
    ],
    &[
        Part::Word("close"),
        Part::Number,
        Part::Word("refused"),
        Part::Fault,
        Part::Word("a"),
        Part::Thread,
    ],
    &[
        Part::Word("close"),
        Part::Number,
        Part::Word("refused"),
        Part::Fault,
        Part::Word("l"),
        Part::Thread,
        Part::Name,
        Part::Name,
    ],
    &[
        Part::Word("close"),
        Part::Number,
        Part::Word("refused"),
        Part::Fault,
        Part::Word("h"),
        Part::Number,
        Part::Number,
    ],
    &[
        Part::Word("close"),
        Part::Number,
        Part::Word("refused"),
        Part::Word("rule"),
        Part::Word("g"),
        Part::Name,
        Part::Number,
        Part::Trap,
    ],
    &[
        Part::Word("close"),
        Part::Number,
        Part::Word("refused"),
        Part::Word("rule"),
        Part::Word("a"),
        Part::Thread,
        Part::Trap,
    ],
    &[
        Part::Word("close"),
        Part::Number,
        Part::Word("refused"),
        Part::Word("rule"),
        Part::Word("l"),
        Part::Thread,
        Part::Name,
        Part::Name,
        Part::Trap,
    ],
    &[
        Part::Word("close"),
        Part::Number,
        Part::Word("refused"),
        Part::Word("rule"),
        Part::Word("h"),
        Part::Number,
        Part::Number,
        Part::Trap,
    ],
];
