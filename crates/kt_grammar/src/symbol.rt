use super::keyword::{Keyword, RuleWord};
use super::sign::Sign;
use super::word::Word;
use kt_lex::Number;
use sqlite_items::Items;

/// A token with what it stands for, and the place of its first byte.
#[derive(Drop)]
pub enum Symbol {
    Name(u32, Word),
    Keyword(u32, Keyword),
    Number(u32, Number),
    /// The byte of a character constant.
    Character(u32, u8),
    /// The bytes of a string, without the zero at its end.
    Text(u32, Items<u8>),
    RuleWord(u32, RuleWord),
    Sign(u32, Sign),
    /// A spelling that no token has.
    Other(u32),
}
