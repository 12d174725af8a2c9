//! What a word may be.

ghost use Rattle.std.specs.Prelude.{◌≡◌, ◌≤◌, IfSome};
ghost use Rattle.std.specs.List.{list_any};
ghost use Rattle.kt_journal.specs.Grammar as spec;

use kt_text::read_number;

const FAULTS: [&str; 4] = ["interior", "gone", "retyped", "extent"];

const TRAPS: [&str; 16] = [
    "overflow", "zero", "range", "null", "dead", "bounds", "uninit", "literal", "free", "mutex",
    "thread", "threads", "size", "heap", "depth", "output",
];

/// Whether it is this word.
pub fn is(word: &[u8], text: &str) -> bool
    ensures { result ≡ spec.is text.now word.now }
{
    text.as_bytes() == word
}

/// Whether it is one of these words.
pub fn is_one_of(word: &[u8], texts: &[&str]) -> bool
    ensures { result ≡ list_any (λ text. spec.is text.now word.now) texts.now }
{
    texts.iter().any(|text| text.as_bytes() == word)
}

/// The number that a word says, where it is at most `most`.
#[tactic(auto, unfolding(crate::specs::Grammar::number_in))]
pub fn number(word: &[u8], most: u64) -> Option<u64>
    ensures number { result ≡ spec.number_in most word.now }
    ensures within { IfSome result (λ n. n ≤ most) }
{
    if word.len() > 1 && word[0] == b'0' {
        return None;
    }
    read_number(word, most)
}

pub fn is_number_up_to(word: &[u8], most: u64) -> bool
    ensures { result ≡ spec.is_number_up_to most word.now }
{
    number(word, most).is_some()
}

pub fn is_number(word: &[u8]) -> bool
    ensures { result ≡ spec.is_number word.now }
{
    is_number_up_to(word, u64::MAX)
}

pub fn is_thread(word: &[u8]) -> bool
    ensures { result ≡ spec.is_thread word.now }
{
    is_number_up_to(word, 64)
}

/// Whether it is a number in the range of `int`.
#[tactic(auto, unfolding(crate::specs::Grammar::is_value))]
pub fn is_value(word: &[u8]) -> bool
    ensures { result ≡ spec.is_value word.now }
{
    match word {
        [] => false,
        [b'-', digits @ ..] => is_number_up_to(digits, 1 << 31) && !is(digits, "0"),
        digits => is_number_up_to(digits, (1 << 31) - 1),
    }
}

#[tactic(auto, unfolding(crate::specs::Grammar::trap_names))]
pub fn is_trap(word: &[u8]) -> bool
    ensures { result ≡ spec.is_trap word.now }
{
    is_one_of(word, &TRAPS)
}

/// Whether it tells why what stands at a place can't be carried over.
#[tactic(auto, unfolding(crate::specs::Grammar::place_faults))]
pub fn is_place_fault(word: &[u8]) -> bool
    ensures { result ≡ spec.is_place_fault word.now }
{
    is_one_of(word, &FAULTS)
}
