//! Lines of a text, and words of a line.

ghost use Rattle.std.specs.Prelude.{◌≡◌, ◌==◌, ◌∷◌, ◌++◌, [], MatchOption, false};
ghost use Rattle.std.specs.List.{list_any};
ghost use Rattle.kt_journal.specs.Reading.{split, words_in};

#[tactic(auto, using(crate::proofs::Splitting::found, crate::proofs::Splitting::not_yet, crate::proofs::Splitting::nowhere))]
/// What stands before the first such byte, and what stands behind it.
pub fn cut_at(bytes: &[u8], byte: u8) -> Option<(&[u8], &[u8])>
    ensures { MatchOption result (list_any (λ b. b == byte) bytes.now ≡ false)
        (λ parts. (bytes.now ≡ parts.0.now ++ byte ∷ parts.1.now) × (list_any (λ b. b == byte) parts.0.now ≡ false)) }
{
    for (i, b) in bytes.iter().enumerate() {
        if *b == byte {
            return Some((&bytes[..i], &bytes[i + 1..]));
        }
    }
    None
}

#[tactic(auto, using(crate::proofs::Splitting::split_word, crate::proofs::Splitting::split_append))]
/// The first word of a line, and what is left behind it: none behind the last word.
pub fn first_word(line: &[u8]) -> (&[u8], Option<&[u8]>)
    ensures { split line.now ≡ result.0.now ∷ words_in result.1 }
{
    match cut_at(line, b' ') {
        Some((word, rest)) => (word, Some(rest)),
        None => (line, None),
    }
}
