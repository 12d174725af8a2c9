//! Reads a journal.

ghost use Rattle.std.specs.Prelude.{◌≡◌, ◌⊎◌, ◌++◌, ◌^◌, ◌<◌, ℕ, List, [], length, IfOk, IsErrOf, MatchOption, MatchResult};
ghost use Rattle.kt_text.specs.Lines.{line_of};
ghost use Rattle.kt_journal.specs.Journal.{LeavesAt, Says, StandsAt, kit_words};
ghost use Rattle.kt_journal.specs.Reading.{ReadsEntries};
ghost use Rattle.kt_journal.specs.declared.kit.Kit.{Kit};

use super::fault::JournalFault;
use super::kit::Kit;
use super::line::{take_end, take_entry};
use std::alloc::{AllocError, Global};

/// The turns that a journal says.
///
/// `Line` tells the first byte of the first line that is not of the grammar: a line that may not stand there, a line by
/// which there are more than 10,000,000 turns, or one behind the last line; a missing last line is at the text's length.
pub fn read(alloc: Global, bytes: &[u8]) -> Result<Vec<u8>, JournalFault>
    requires { length bytes.now < 2 ^ 32 }

    // An answer has its cause.
    ensures turns { IfOk result (λ turns. Says bytes.now turns.items) }
    ensures line { (at : ℕ) → IsErrOf result (JournalFault.Line at) → LeavesAt bytes.now at }

    // Each cause has its answer, unless memory runs out.
    ensures says { (turns : List ℕ) → Says bytes.now turns
        → MatchResult result (λ read. read.items ≡ turns) (λ fault. fault ≡ JournalFault.NoMemory) }
    ensures leaves { (at : ℕ) → LeavesAt bytes.now at
        → MatchResult result (λ read. ⊥) (λ fault. (fault ≡ JournalFault.Line at) ⊎ (fault ≡ JournalFault.NoMemory)) }
{
    let Some((kit, lines)) = first_line(bytes) else {
        return Err(JournalFault::Line { at: 0 });
    };
    let mut turns = Vec::new(alloc);
    let rest = read_entries(kit, lines, &mut turns)?;
    let left = match take_end(rest) {
        Some([]) => return Ok(turns),
        Some(behind) => behind.len(),
        None => rest.len(),
    };
    Err(JournalFault::Line {
        at: (bytes.len() - left) as u32,
    })
}

/// What stands behind the lines at the front that may stand there, whose turns are added.
fn read_entries<'a>(kit: Kit, text: &'a [u8], turns: &mut Vec<u8>) -> Result<&'a [u8], AllocError>
    requires { turns.old.items ≡ [] }
    ensures { IfOk result (λ rest. ReadsEntries kit text.now rest.now turns.new.items) }
{
    let mut rest = text;
    while let Some(behind) = take_entry(kit, rest, turns)? {
        rest = behind;
    }
    Ok(rest)
}

/// The form that the first line tells, and what stands behind it.
fn first_line(bytes: &[u8]) -> Option<(Kit, &[u8])>
    ensures { MatchOption result ((kit : Kit) → StandsAt (kit_words kit) bytes.now → ⊥) (λ first. bytes.now ≡ line_of (kit_words first.0) ++ first.1.now) }
{
    match bytes.strip_prefix(b"kit 1\n") {
        Some(rest) => Some((Kit::First, rest)),
        None => second_line(bytes),
    }
}

fn second_line(bytes: &[u8]) -> Option<(Kit, &[u8])>
    ensures { MatchOption result (StandsAt (kit_words Kit.Second) bytes.now → ⊥) (λ first. bytes.now ≡ line_of (kit_words first.0) ++ first.1.now) }
{
    match bytes.strip_prefix(b"kit 2\n") {
        Some(rest) => Some((Kit::Second, rest)),
        None => None,
    }
}
