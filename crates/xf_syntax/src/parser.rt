//! A whole rule file.

ghost use Rattle.std.specs.Prelude.{◌≡◌, ◌⊎◌, ℕ, ◌<◌, ◌^◌, [], List, length, Ok, Err, IfOk, IfErr, MatchResult};
ghost use Rattle.kt_lex.specs.Tokens.{tokens_of};
ghost use Rattle.kt_grammar.specs.Symbols.{symbols_of_tokens};
ghost use Rattle.kt_grammar.specs.Texts.{Sized, IsTree, Tells, BreaksOff, IsTooDeepAt, IsAnswer};
ghost use Rattle.kt_grammar.specs.declared.syntax_fault.SyntaxFault.{SyntaxFault};
ghost use Rattle.xf_syntax.specs.Tree.{Rule, tree_of};
ghost use Rattle.xf_syntax.specs.Spelling.{rules};
ghost use Rattle.xf_syntax.specs.Reading.{rules_at};

use super::laws::{rules_answer_law, rules_laws, rules_places_law, rules_stands_law};
use super::rule::rules;
use super::tree::RuleFile;
use kt_grammar::{Symbol, SyntaxFault, symbols, told};
use kt_lex::Token;
use std::alloc::Global;

/// How many constructs may be open at a token.
const DEPTH_LIMIT: u32 = 200;

/// The file with these symbols, which are those of the tokens.
fn read_file(
    alloc: Global,
    symbols: &[Symbol],
    tokens: &[Token],
    total: u32,
) -> Result<RuleFile, SyntaxFault>
    ensures tree { IfOk result (λ x. (rules_at 200 symbols.now ≡ Ok ((tree_of x).content, [])) × ((tree_of x).length ≡ total)) }
    ensures fault { IfErr result (λ e. Tells tokens.now total e (rules_at 200 symbols.now)) }
{
    match rules(alloc, DEPTH_LIMIT, symbols) {
        Ok(rules) => Ok(RuleFile {
            rules,
            length: total,
        }),
        Err(fault) => Err(told(tokens, total, fault)),
    }
}

/// The file with these tokens.
fn read_tokens(alloc: Global, tokens: &[Token], bytes: &[u8]) -> Result<RuleFile, SyntaxFault>
    requires short { length bytes.now < 2 ^ 32 }
    ensures tree { IfOk result (λ x. (rules_at 200 (symbols_of_tokens bytes.now tokens.now) ≡ Ok ((tree_of x).content, [])) × ((tree_of x).length ≡ length bytes.now)) }
    ensures fault { IfErr result (λ e. Tells tokens.now (length bytes.now) e (rules_at 200 (symbols_of_tokens bytes.now tokens.now))) }
{
    let symbols = symbols(alloc, tokens, bytes)?;
    read_file(alloc, &symbols, tokens, bytes.len() as u32)
}

/// The syntax tree of a rule file by its tokens, which are those of its bytes, in time proportional to them.
///
/// `Syntax` is told at the first token up to which, that token included, no rule file has the same tokens, or at the file's
/// length where a rule file could go on; `TooDeep` at the first token deeper than 200. Where both could be told, the lesser place
/// is, and `Syntax` at a tie.
pub fn parse_rules(alloc: Global, tokens: &[Token], bytes: &[u8]) -> Result<RuleFile, SyntaxFault>
    requires short { length bytes.now < 2 ^ 32 }
    requires lexed { tokens_of bytes.now ≡ Ok tokens.now }

    // What is answered is the file's tree, and the one tree of the file is answered, unless memory runs out.
    ensures tree { IfOk result (λ x. IsTree rules bytes.now tokens.now (tree_of x)) }
    ensures only { (x : Sized (List Rule)) → IsTree rules bytes.now tokens.now x → MatchResult result (λ y. tree_of y ≡ x) (λ e. e ≡ SyntaxFault.NoMemory) }

    // A fault stands at its place.
    ensures syntax { (at : ℕ) → result ≡ Err (SyntaxFault.Syntax at) → BreaksOff rules bytes.now tokens.now at }
    ensures deep { (at : ℕ) → result ≡ Err (SyntaxFault.TooDeep at) → IsTooDeepAt rules bytes.now tokens.now at }

    // Where the tokens have a fault it is answered, unless memory runs out.
    ensures fails { (fault : SyntaxFault) → IsAnswer rules bytes.now tokens.now (Err fault)
        → MatchResult result (λ y. ⊥) (λ e. (e ≡ fault) ⊎ (e ≡ SyntaxFault.NoMemory)) }
{
    rules_answer_law();
    rules_laws();
    rules_stands_law();
    rules_places_law();
    read_tokens(alloc, tokens, bytes)
}
