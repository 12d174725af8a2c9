ghost use Rattle.std.specs.Prelude.{◌≡◌};
ghost use Rattle.kt_grammar.specs.declared.syntax_fault.SyntaxFault.TheVariants.{NoMemory};

use std::alloc::AllocError;
use thiserror::Error;

/// Why the tokens of a file are none of its grammar, and at which byte.
#[derive(Clone, Copy, Debug, PartialEq, Eq, Error)]
pub enum SyntaxFault {
    /// No file of the grammar has the same tokens up to this one, that token included. At the end of the bytes: some file
    /// begins with all tokens.
    #[error("unexpected token at byte {at}")]
    Syntax { at: u32 },
    /// The first token that is deeper than 200 constructs.
    #[error("too deep at byte {at}")]
    TooDeep { at: u32 },
    #[error("out of memory")]
    NoMemory,
}

impl From<AllocError> for SyntaxFault {
    ghost from_gives = { λ _ e. e ≡ NoMemory };

    fn from(_e: AllocError) -> SyntaxFault {
        SyntaxFault::NoMemory
    }
}
