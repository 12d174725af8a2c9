ghost use Rattle.std.specs.Prelude.{◌≡◌, ◌<◌, ◌≤◌, ◌+◌, ◌^◌, ◌⊎◌, ◌≢◌, ℕ, List, length, IfOk, IfErr, MatchResult, fold, count_by};
ghost use Rattle.kt_lex.specs.Bytes.{is_newline};
ghost use Rattle.kt_lex.specs.declared.token.Token.{Token};
ghost use Rattle.kt_lex.specs.declared.token.LexFault.{LexFault};
ghost use Rattle.kt_lex.specs.Tokens.{tokens_of, indents_after};

use super::bytes::is_indent;
use super::front::{Piece, front};
use super::token::{LexFault, Token};
use std::alloc::Global;

/// A place in a file.
#[derive(Clone, Copy)]
struct Place {
    at: u32,
    /// How many lines end before it.
    newlines: u32,
    /// Only spaces and tabs stand before it on its line.
    indented: bool,
}

impl Place {
    const START: Place = Place {
        at: 0,
        newlines: 0,
        indented: true,
    };

    /// The place behind these bytes, which stand here.
    fn behind(self, bytes: &[u8]) -> Place
        requires fits { self.at + length bytes.now < 2 ^ 32 }
        requires lines { self.newlines ≤ self.at }
        ensures at { result.at ≡ self.at + length bytes.now }
        ensures newlines { result.newlines ≡ self.newlines + count_by is_newline bytes.now }
        ensures indented { result.indented ≡ fold indents_after self.indented bytes.now }
    {
        let newlines = bytes.iter().filter(|byte| **byte == b'\n').count();
        let mut indented = self.indented;
        for byte in bytes {
            indented = *byte == b'\n' || indented && is_indent(*byte);
        }
        Place {
            at: self.at + bytes.len() as u32,
            newlines: self.newlines + newlines as u32,
            indented,
        }
    }
}

/// The tokens of a C file or rule file, or its first fault, in time proportional to its bytes.
/// The file has fewer than 4,294,967,296 bytes. Tokens stand in the order of the file, and none is empty.
pub fn lex(alloc: Global, bytes: &[u8]) -> Result<Vec<Token>, LexFault>
    requires { length bytes.now < 2 ^ 32 }

    // An answer has its cause.
    ensures tokens { IfOk result (λ v. tokens_of bytes.now ≡ Ok v.items) }
    ensures fault { IfErr result (λ fault. fault ≢ LexFault.NoMemory → tokens_of bytes.now ≡ Err fault) }

    // Each cause has its answer, unless memory runs out.
    ensures succeeds { (tokens : List Token) → tokens_of bytes.now ≡ Ok tokens
        → MatchResult result (λ v. v.items ≡ tokens) (λ e. e ≡ LexFault.NoMemory) }
    ensures fails { (fault : LexFault) → tokens_of bytes.now ≡ Err fault
        → MatchResult result (λ v. ⊥) (λ e. (e ≡ fault) ⊎ (e ≡ LexFault.NoMemory)) }
{
    read_all(alloc, bytes)
}

/// Reads front by front, from the left.
fn read_all(alloc: Global, bytes: &[u8]) -> Result<Vec<Token>, LexFault>
    requires { length bytes.now < 2 ^ 32 }
    ensures { MatchResult result (λ v. tokens_of bytes.now ≡ Ok v.items)
        (λ e. (tokens_of bytes.now ≡ Err e) ⊎ (e ≡ LexFault.NoMemory)) }
{
    let mut tokens = Vec::new(alloc);
    let mut place = Place::START;
    let mut rest = bytes;
    while !rest.is_empty() {
        let piece = front(place.at, place.indented, rest)?;
        let (spelling, after) = rest.split_at(piece.size());
        let next = place.behind(spelling);
        if let Piece::Word(kind, _) = piece {
            let token = Token {
                kind,
                at: place.at,
                end: next.at,
                line: place.newlines + 1,
            };
            tokens.push(token).map_err(|_| LexFault::NoMemory)?;
        }
        place = next;
        rest = after;
    }
    Ok(tokens)
}
