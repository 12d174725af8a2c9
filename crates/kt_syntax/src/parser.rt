//! A whole file.

ghost use Rattle.std.specs.Prelude.{◌≡◌, ◌⊎◌, ℕ, ◌<◌, ◌^◌, [], List, length, Ok, Err, IfOk, IfErr, MatchResult};
ghost use Rattle.kt_lex.specs.Tokens.{tokens_of};
ghost use Rattle.kt_grammar.specs.Symbols.{symbols_of_tokens};
ghost use Rattle.kt_grammar.specs.Cursor.{Fails, Outcome};
ghost use Rattle.kt_syntax.specs.Tree.{External, Tree, tree_of};
ghost use Rattle.kt_syntax.specs.Reading.{file_at};
ghost use Rattle.kt_syntax.specs.File.{IsTree};
ghost use Rattle.kt_syntax.specs.Places.{place_of, Tells, BreaksOff, IsTooDeepAt};
ghost use Rattle.kt_syntax.specs.Answer.{IsAnswer};
ghost use Rattle.kt_syntax.specs.declared.fault.SyntaxFault.{SyntaxFault};

use super::answer::file_answer_law;
use super::external::externals;
use super::fault::SyntaxFault;
use super::laws::file_laws;
use super::places::file_places_law;
use super::stands::file_stands_law;
use super::tree::File;
use kt_grammar::{Fault, Symbol, symbols};
use kt_lex::Token;
use std::alloc::Global;

/// How many constructs may be open at a token.
const DEPTH_LIMIT: u32 = 200;

/// The first byte of the token from which so many are left, or the length of the file.
fn place(tokens: &[Token], total: u32, left: usize) -> u32
    ensures { result ≡ place_of tokens.now total left }
{
    match tokens.get(tokens.len().saturating_sub(left)) {
        Some(token) => token.at,
        None => total,
    }
}

/// A fault at its place.
fn told(tokens: &[Token], total: u32, fault: Fault) -> SyntaxFault
    ensures { (read : Outcome (List External)) → Fails fault read → Tells tokens.now total result read }
{
    match fault {
        Fault::Syntax(left) => SyntaxFault::Syntax {
            at: place(tokens, total, left),
        },
        Fault::TooDeep(left) => SyntaxFault::TooDeep {
            at: place(tokens, total, left),
        },
        Fault::NoMemory => SyntaxFault::NoMemory,
    }
}

/// The file with these symbols, which are those of the tokens.
fn read_file(
    alloc: Global,
    symbols: &[Symbol],
    tokens: &[Token],
    total: u32,
) -> Result<File, SyntaxFault>
    ensures tree { IfOk result (λ x. (file_at 200 symbols.now ≡ Ok ((tree_of x).externals, [])) × (x.length ≡ total)) }
    ensures fault { IfErr result (λ e. Tells tokens.now total e (file_at 200 symbols.now)) }
{
    match externals(alloc, DEPTH_LIMIT, symbols) {
        Ok(items) => Ok(File {
            items,
            length: total,
        }),
        Err(fault) => Err(told(tokens, total, fault)),
    }
}

/// The file with these tokens.
fn read_tokens(alloc: Global, tokens: &[Token], bytes: &[u8]) -> Result<File, SyntaxFault>
    requires short { length bytes.now < 2 ^ 32 }
    ensures tree { IfOk result (λ x. (file_at 200 (symbols_of_tokens bytes.now tokens.now) ≡ Ok ((tree_of x).externals, [])) × (x.length ≡ length bytes.now)) }
    ensures fault { IfErr result (λ e. Tells tokens.now (length bytes.now) e (file_at 200 (symbols_of_tokens bytes.now tokens.now))) }
{
    let symbols = symbols(alloc, tokens, bytes)?;
    read_file(alloc, &symbols, tokens, bytes.len() as u32)
}

/// The syntax tree of a C file by its tokens, which are those of its bytes, in time proportional to them.
///
/// `Syntax` is told at the first token up to which, that token included, no file has the same tokens, or at the file's length
/// where a file could go on; `TooDeep` at the first token deeper than 200. Where both could be told, the lesser place is, and
/// `Syntax` at a tie.
pub fn parse(alloc: Global, tokens: &[Token], bytes: &[u8]) -> Result<File, SyntaxFault>
    requires short { length bytes.now < 2 ^ 32 }
    requires lexed { tokens_of bytes.now ≡ Ok tokens.now }

    // What is answered is the file's tree, and the one tree of the file is answered, unless memory runs out.
    ensures tree { IfOk result (λ x. IsTree bytes.now tokens.now (tree_of x)) }
    ensures only { (x : Tree) → IsTree bytes.now tokens.now x → MatchResult result (λ y. tree_of y ≡ x) (λ e. e ≡ SyntaxFault.NoMemory) }

    // A fault stands at its place.
    ensures syntax { (at : ℕ) → result ≡ Err (SyntaxFault.Syntax at) → BreaksOff bytes.now tokens.now at }
    ensures deep { (at : ℕ) → result ≡ Err (SyntaxFault.TooDeep at) → IsTooDeepAt bytes.now tokens.now at }

    // Where the tokens have a fault it is answered, unless memory runs out.
    ensures fails { (fault : SyntaxFault) → IsAnswer bytes.now tokens.now (Err fault)
        → MatchResult result (λ y. ⊥) (λ e. (e ≡ fault) ⊎ (e ≡ SyntaxFault.NoMemory)) }
{
    file_answer_law();
    file_laws();
    file_stands_law();
    file_places_law();
    read_tokens(alloc, tokens, bytes)
}
