//! At which byte a fault of reading is told.

ghost use Rattle.std.specs.Prelude.{◌≡◌};
ghost use Rattle.kt_grammar.specs.Texts.{place_of, told_of};

use super::fault::Fault;
use super::syntax_fault::SyntaxFault;
use kt_lex::Token;

/// The first byte of the token from which so many are left, or the length of the file.
fn place(tokens: &[Token], total: u32, left: usize) -> u32
    ensures { result ≡ place_of tokens.now total left }
{
    match tokens.get(tokens.len().saturating_sub(left)) {
        Some(token) => token.at,
        None => total,
    }
}

/// A fault of reading the symbols of these tokens, at its byte. `total`: how many bytes the file has.
pub fn told(tokens: &[Token], total: u32, fault: Fault) -> SyntaxFault
    ensures { result ≡ told_of tokens.now total fault }
{
    match fault {
        Fault::Syntax(left) => SyntaxFault::Syntax {
            at: place(tokens, total, left),
        },
        Fault::TooDeep(left) => SyntaxFault::TooDeep {
            at: place(tokens, total, left),
        },
        Fault::NoMemory => SyntaxFault::NoMemory,
    }
}
