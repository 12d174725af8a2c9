//! From the text of a file to the version that it is.

ghost use Rattle.std.specs.Prelude.{◌≡◌, ◌≢◌, ◌<◌, ◌^◌, List, ℕ, Ok, Err, IfOk, IfErr, length};
ghost use Rattle.kt_lex.specs.Tokens.{tokens_of};
ghost use Rattle.kt_check.specs.Files.{version_of};
ghost use Rattle.kt_names.specs.declared.fault.CheckFault.{CheckFault};
ghost use Rattle.kt_names.specs.declared.fault.CheckFault.TheVariants as check_fault;
ghost use Rattle.kt_syntax.specs.File.{IsTree};
ghost use Rattle.kt_syntax.specs.Places.{BreaksOff, IsTooDeepAt};
ghost use Rattle.kt_syntax.specs.Tree.{tree_of};
ghost use Rattle.kt_play.specs.Judged.{IsNoVersion};
ghost use Rattle.kt_play.specs.Text.{HasTree, IsTypedAs, IsVersionText};

use crate::refusal::NoJob;
use crate::status::Cause;
use kt_check::{CheckFault, check};
use kt_lex::{LexFault, Token, lex};
use kt_syntax::{File, SyntaxFault, parse};
use kt_tree::Version;
use std::alloc::Global;

fn of_lex(n: u8, fault: LexFault) -> NoJob
    ensures { (bytes : List ℕ) → (fault ≢ LexFault.NoMemory → tokens_of bytes ≡ Err fault) → IsNoVersion result bytes n }
{
    match fault {
        LexFault::Byte { at } => NoJob::File(n, Cause::Byte(at)),
        LexFault::Unclosed { at } => NoJob::File(n, Cause::Unclosed(at)),
        LexFault::Literal { at } => NoJob::File(n, Cause::Literal(at)),
        LexFault::Directive { at } => NoJob::File(n, Cause::Directive(at)),
        LexFault::NoMemory => NoJob::NoMemory,
    }
}

// The tokens of the n-th file.
fn tokens(alloc: Global, n: u8, text: &[u8]) -> Result<Vec<Token>, NoJob>
    requires { length text.now < 2 ^ 32 }
    ensures tokens { IfOk result (λ tokens. tokens_of text.now ≡ Ok tokens.items) }
    ensures cause { IfErr result (λ no_job. IsNoVersion no_job text.now n) }
{
    match lex(alloc, text) {
        Ok(tokens) => Ok(tokens),
        Err(fault) => Err(of_lex(n, fault)),
    }
}

fn of_syntax(n: u8, fault: SyntaxFault) -> NoJob
    ensures { (bytes : List ℕ) (tokens : List Token) → tokens_of bytes ≡ Ok tokens →
        ((at : ℕ) → fault ≡ SyntaxFault.Syntax at → BreaksOff bytes tokens at) → ((at : ℕ) → fault ≡ SyntaxFault.TooDeep at → IsTooDeepAt bytes tokens at) →
        IsNoVersion result bytes n }
{
    match fault {
        SyntaxFault::Syntax { at } => NoJob::File(n, Cause::Syntax(at)),
        SyntaxFault::TooDeep { at } => NoJob::File(n, Cause::TooDeep(at)),
        SyntaxFault::NoMemory => NoJob::NoMemory,
    }
}

// The syntax tree of the n-th file, whose tokens these are.
fn tree(alloc: Global, n: u8, tokens: &[Token], text: &[u8]) -> Result<File, NoJob>
    requires short { length text.now < 2 ^ 32 }
    requires lexed { tokens_of text.now ≡ Ok tokens.now }
    ensures tree { IfOk result (λ file. HasTree text.now (tree_of file)) }
    ensures cause { IfErr result (λ no_job. IsNoVersion no_job text.now n) }
{
    match parse(alloc, tokens, text) {
        Ok(file) => Ok(file),
        Err(fault) => Err(of_syntax(n, fault)),
    }
}

fn of_check(n: u8, fault: CheckFault) -> NoJob
    ensures { (bytes : List ℕ) → (fault ≢ check_fault.NoMemory → IsTypedAs bytes (Err fault)) → IsNoVersion result bytes n }
{
    match fault {
        CheckFault::Unknown { at } => NoJob::File(n, Cause::Unknown(at)),
        CheckFault::Twice { at } => NoJob::File(n, Cause::Twice(at)),
        CheckFault::BadType { at } => NoJob::File(n, Cause::BadType(at)),
        CheckFault::Incomplete { at } => NoJob::File(n, Cause::Incomplete(at)),
        CheckFault::TooBig { at } => NoJob::File(n, Cause::TooBig(at)),
        CheckFault::Entry { at } => NoJob::File(n, Cause::Entry(at)),
        CheckFault::Note { at } => NoJob::File(n, Cause::Note(at)),
        CheckFault::NoMain { at } => NoJob::File(n, Cause::NoMain(at)),
        CheckFault::NoMemory => NoJob::NoMemory,
    }
}

// The version of the n-th file, whose syntax tree this is.
fn typed(alloc: Global, n: u8, file: &File) -> Result<Version, NoJob>
    ensures version { IfOk result (λ v. (bytes : List ℕ) → HasTree bytes (tree_of file.now) → IsVersionText bytes v) }
    ensures cause { IfErr result (λ no_job. (bytes : List ℕ) → HasTree bytes (tree_of file.now) → IsNoVersion no_job bytes n) }
{
    match check(alloc, file) {
        Ok(version) => Ok(version),
        Err(fault) => Err(of_check(n, fault)),
    }
}

/// The version that the text of the n-th file is, or why it is none.
pub fn version(alloc: Global, n: u8, text: &[u8]) -> Result<Version, NoJob>
    requires { length text.now < 2 ^ 32 }
    ensures version { IfOk result (λ v. IsVersionText text.now v) }
    ensures cause { IfErr result (λ no_job. IsNoVersion no_job text.now n) }
{
    let tokens = tokens(alloc, n, text)?;
    let file = tree(alloc, n, tokens.as_slice(), text)?;
    typed(alloc, n, &file)
}
