ghost use Rattle.std.specs.Prelude.{◌≡◌, true, if◌then◌else◌};
ghost use Rattle.kt_grammar.specs.Identifiers.{is_identifier};

use super::spelled::is_identifier;
use std::alloc::AllocError;
use std::marker::Model;

/// An identifier: a letter or underscore, then letters, digits and underscores, and no keyword (ISO/IEC 9899:2011, 6.4.2).
#[derive(Drop)]
pub struct Word {
    bytes: Vec<u8>,
}

impl Model for Word {
    ghost use Rattle.std.specs.Prelude.{◌≡◌, ℕ, true, List};
    ghost use Rattle.std.specs.Coded.{coded_list, coded_ℕ};
    ghost use Rattle.kt_grammar.specs.Identifiers.{is_identifier};

    ghost Value = { List ℕ };

    ghost coded = { coded_list coded_ℕ };

    ghost view = { λ w. w.bytes.items };

    ghost invariant = { λ w. is_identifier w.bytes.items ≡ true };
}

impl Word {
    /// The word of these bytes, where they are an identifier.
    pub fn new(bytes: Vec<u8>) -> Option<Word>
        ensures { result ≡ (if is_identifier bytes.items then Some bytes.items else None) }
    {
        if is_identifier(&bytes) {
            Some(Word { bytes })
        } else {
            None
        }
    }

    /// Its bytes.
    pub fn as_bytes(&self) -> &[u8]
        ensures bytes { result.now ≡ self.now }
        ensures identifier { is_identifier self.now ≡ true }
    {
        self.bytes.as_slice()
    }
}

impl Clone for Word {
    ghost is_clone = { λ a b. b ≡ a };

    fn clone(&self) -> Result<Word, AllocError> {
        Ok(Word {
            bytes: self.bytes.clone()?,
        })
    }
}
