use thiserror::Error;

/// What a token is. Which words are keywords, rule words and signs is told in `docs/language.md`.
#[derive(Clone, Copy, Debug, PartialEq, Eq)]
pub enum Kind {
    Identifier,
    Keyword,
    Number,
    Character,
    Text,
    RuleWord,
    Sign,
}

/// A token: its spelling is the bytes of the file from `at` to before `end`. Lines count from 1.
#[derive(Clone, Copy, Debug, PartialEq, Eq)]
pub struct Token {
    pub kind: Kind,
    pub at: u32,
    pub end: u32,
    pub line: u32,
}

/// The first fault of a file, at the first byte of what is faulty. At one byte the first of this list is told.
#[derive(Clone, Copy, Debug, PartialEq, Eq, Error)]
pub enum LexFault {
    /// A comment that is not closed, or a character constant or string that is not closed on its line.
    #[error("unclosed comment or quote at byte {at}")]
    Unclosed { at: u32 },
    /// A word that begins with a digit and is no number, or a faulty character constant or string.
    #[error("faulty literal at byte {at}")]
    Literal { at: u32 },
    /// A directive other than `#include`.
    #[error("unknown directive at byte {at}")]
    Directive { at: u32 },
    /// A byte that begins no token.
    #[error("unexpected byte at byte {at}")]
    Byte { at: u32 },
    #[error("out of memory")]
    NoMemory,
}
