//! Forms of lines.

ghost use Rattle.std.specs.Prelude.{◌≡◌, map};
ghost use Rattle.std.specs.List.{list_any};
ghost use Rattle.kt_journal.specs.Grammar.{is_of};
ghost use Rattle.kt_journal.specs.Reading.{split, test_of, form_of};

use super::cut::first_word;
use super::word::{is, is_number, is_number_up_to, is_place_fault, is_thread, is_trap, is_value};
use kt_grammar::is_identifier;

/// What a word of a line may be.
#[derive(Clone, Copy)]
pub enum Part<'a> {
    /// This word.
    Word(&'a str),
    /// A number.
    Number,
    /// How many threads a request woke.
    Woken,
    /// The number of a thread.
    Thread,
    /// An identifier.
    Name,
    /// The name of a trap.
    Trap,
    /// Why what stands at a place can't be carried over.
    Fault,
    /// What `main` returned.
    Value,
}

fn may_be(part: &Part<'_>, word: &[u8]) -> bool
    ensures { result ≡ test_of part.now word.now }
{
    match *part {
        Part::Word(text) => is(word, text),
        Part::Number => is_number(word),
        Part::Woken => is_number_up_to(word, 65),
        Part::Thread => is_thread(word),
        Part::Name => is_identifier(word),
        Part::Trap => is_trap(word),
        Part::Fault => is_place_fault(word),
        Part::Value => is_value(word),
    }
}

/// Whether the line is of this form.
pub fn is_of(line: &[u8], form: &[Part<'_>]) -> bool
    ensures { result ≡ is_of (form_of form.now) (split line.now) }
{
    let mut rest = Some(line);
    for part in form {
        match rest {
            None => return false,
            Some(left) => {
                let (word, behind) = first_word(left);
                if !may_be(part, word) {
                    return false;
                }
                rest = behind;
            }
        }
    }
    rest.is_none()
}

/// Whether the line is of one of these forms.
pub fn is_of_one(line: &[u8], forms: &[&[Part<'_>]]) -> bool
    ensures { result ≡ list_any (λ form. is_of (form_of form.now) (split line.now)) forms.now }
{
    forms.iter().any(|form| is_of(line, form))
}
