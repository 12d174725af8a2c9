ghost use Rattle.std.specs.Prelude.{◌≡◌, ◌≤◌, length, nat_eq};
ghost use Rattle.std.specs.List.{list_any, starts_with};
ghost use Rattle.std.specs.Str.{bytes_eq};
ghost use Rattle.kt_lex.specs.Words.{word_length, is_among, keywords, rule_words, sign_length};

use super::bytes::is_word_byte;

const KEYWORDS: [&[u8]; 23] = [
    b"char",
    b"int",
    b"long",
    b"void",
    b"struct",
    b"const",
    b"static",
    b"if",
    b"else",
    b"while",
    b"do",
    b"for",
    b"return",
    b"break",
    b"continue",
    b"sizeof",
    b"pthread_mutex_t",
    b"NULL",
    b"EOF",
    b"PTHREAD_MUTEX_INITIALIZER",
    b"E_NOTELOCALS",
    b"E_PTRARRAY",
    b"INIT",
];

const RULE_WORDS: [&[u8]; 6] = [b"in", b"out", b"base", b"oldsym", b"xform", b"new"];

const SIGNS_OF_TWO: [&[u8]; 15] = [
    b"->", b"::", b"==", b"!=", b"<=", b">=", b"++", b"--", b"+=", b"-=", b"*=", b"/=", b"%=",
    b"&&", b"||",
];

const SIGNS_OF_ONE: &[u8] = b"{}()[];,.:?=<>+-*/%!&";

/// How many letters, digits and underscores stand at the front.
#[tactic(auto, using(crate::proofs::Rules::prefixes), unfolding(crate::specs::Words::word_length))]
pub(crate) fn word_length(bytes: &[u8]) -> usize
    ensures value { result ≡ word_length bytes.now }
    ensures within { result ≤ length bytes.now }
{
    bytes.iter().take_while(|byte| is_word_byte(**byte)).count()
}

/// Whether the word is one of these.
fn is_among(words: &[&[u8]], word: &[u8]) -> bool
    ensures { result ≡ list_any (λ known. bytes_eq known.now word.now) words.now }
{
    words.iter().any(|known| *known == word)
}

/// Whether the word is a keyword.
#[tactic(auto, unfolding(crate::specs::Words::is_among, crate::specs::Words::keywords))]
pub(crate) fn is_keyword(word: &[u8]) -> bool
    ensures { result ≡ is_among keywords word.now }
{
    is_among(&KEYWORDS, word)
}

/// Whether the word stands behind a dollar sign in rules.
#[tactic(auto, unfolding(crate::specs::Words::is_among, crate::specs::Words::rule_words))]
pub(crate) fn is_rule_word(word: &[u8]) -> bool
    ensures { result ≡ is_among rule_words word.now }
{
    is_among(&RULE_WORDS, word)
}

/// Whether one of these stands at the front.
fn begins_with_any(bytes: &[u8], words: &[&[u8]]) -> bool
    ensures { result ≡ list_any (λ word. starts_with nat_eq bytes.now word.now) words.now }
{
    words.iter().any(|word| bytes.starts_with(word))
}

/// How many bytes the sign at the front has, or 0.
#[tactic(auto, unfolding(crate::specs::Words::sign_length, crate::specs::Words::signs_of_one, crate::specs::Words::signs_of_two))]
pub(crate) fn sign_length(bytes: &[u8]) -> usize
    ensures value { result ≡ sign_length bytes.now }
{
    if bytes.is_empty() {
        0
    } else if begins_with_any(bytes, &SIGNS_OF_TWO) {
        2
    } else if SIGNS_OF_ONE.contains(&bytes[0]) {
        1
    } else {
        0
    }
}
