//! Reads the files that the words name, and then the input.

ghost use Rattle.std.specs.Prelude.{◌≡◌, ◌<◌, ◌≤◌, [], ◌∷◌, length, IfOk, IfErr, OnErr, OnOk};
ghost use Rattle.std.specs.Io.KnownBytes.{IsAtEnd};
ghost use Rattle.kt_play.specs.Given.{HoldsInput};
ghost use Rattle.kt_play.specs.Job.{IsShortInput};
ghost use Rattle.kt_play.specs.Names.{names_in, texts_in};
ghost use Rattle.kt_play.specs.Reading.{AreReadWhole, IsFilesCause, IsInputCause, IsReadCause, IsReadWhole};

use crate::order::Names;
use crate::refusal::UnreadFile;
use kt_edge::{FileEnd, Files, ReadEnd, Source, read_all};
use kt_types::Text;
use std::alloc::Global;

// The most bytes of a file.
const LIMIT: u32 = 262_144;

// The most bytes of the input.
const INPUT_LIMIT: u32 = 1_048_576;

/// The bytes of the files that the words name, in their order.
#[derive(Drop)]
pub enum Texts {
    /// A version.
    One(Vec<u8>),
    /// A version, the rules of its update, and the next version.
    Three(Vec<u8>, Vec<u8>, Vec<u8>),
}

/// Reads the files of these names, each whole; none behind one that is missing, fails or is too long.
pub fn read_files<F: Files>(
    alloc: Global,
    names: Names<'_>,
    files: &mut F,
) -> Result<Texts, UnreadFile>
    ensures read { IfOk result (λ texts. AreReadWhole (F.told files.old) (names_in names.entry) (texts_in texts)) }
    ensures cause { IfErr result (λ unread. IsFilesCause unread (F.told files.old) (F.faults files.old) (F.faults files.new) (names_in names.entry)) }
    ensures same { F.told files.new ≡ F.told files.old }
{
    match names {
        Names::One(version) => read_one(alloc, version, files),
        Names::Three(first, rules, second) => read_three(alloc, first, rules, second, files),
    }
}

fn read_one<F: Files>(alloc: Global, version: &str, files: &mut F) -> Result<Texts, UnreadFile>
    ensures read { IfOk result (λ texts. AreReadWhole (F.told files.old) (version.now ∷ []) (texts_in texts)) }
    ensures cause { IfErr result (λ unread. IsFilesCause unread (F.told files.old) (F.faults files.old) (F.faults files.new) (version.now ∷ [])) }
    ensures same { F.told files.new ≡ F.told files.old }
{
    let version = read(alloc, 1, version, files)?;
    Ok(Texts::One(version))
}

fn read_three<F: Files>(
    alloc: Global,
    first: &str,
    rules: &str,
    second: &str,
    files: &mut F,
) -> Result<Texts, UnreadFile>
    ensures read { IfOk result (λ texts. AreReadWhole (F.told files.old) (first.now ∷ (rules.now ∷ (second.now ∷ []))) (texts_in texts)) }
    ensures cause { IfErr result (λ unread. IsFilesCause unread (F.told files.old) (F.faults files.old) (F.faults files.new) (first.now ∷ (rules.now ∷ (second.now ∷ [])))) }
    ensures same { F.told files.new ≡ F.told files.old }
{
    let first = read(alloc, 1, first, files)?;
    let rules = read(alloc, 2, rules, files)?;
    let second = read(alloc, 3, second, files)?;
    Ok(Texts::Three(first, rules, second))
}

// The bytes of the file of this name, that of the given number among the words, which is within the limit.
fn read<F: Files>(
    alloc: Global,
    number: u8,
    name: &str,
    files: &mut F,
) -> Result<Vec<u8>, UnreadFile>
    ensures whole { IfOk result (λ text. IsReadWhole (F.told files.old) name.now text.items) }
    ensures number { IfErr result (λ unread. unread.number ≡ number) }
    ensures cause { IfErr result (λ unread. IsReadCause unread.end (F.told files.old) name.now (F.faults files.old) (F.faults files.new)) }
    ensures same { F.told files.new ≡ F.told files.old }
    ensures later { F.faults files.old ≤ F.faults files.new }
{
    match files.read(alloc, name, LIMIT) {
        Ok(bytes) => measured(number, bytes),
        Err(FileEnd::Missing | FileEnd::Failed) => Err(UnreadFile {
            number,
            end: ReadEnd::Failed,
        }),
        Err(FileEnd::NoMemory) => Err(UnreadFile {
            number,
            end: ReadEnd::NoMemory,
        }),
    }
}

// The bytes, unless they pass the limit.
fn measured(number: u8, bytes: Vec<u8>) -> Result<Vec<u8>, UnreadFile>
    ensures short { IfOk result (λ text. (text ≡ bytes) × (length bytes.items ≤ 262144)) }
    ensures long { IfErr result (λ unread. (unread ≡ record { number = number; end = ReadEnd.TooLong }) × (262144 < length bytes.items)) }
{
    if bytes.len() > LIMIT as usize {
        Err(UnreadFile {
            number,
            end: ReadEnd::TooLong,
        })
    } else {
        Ok(bytes)
    }
}

/// Reads the input whole, which is within its limit.
pub fn read_input<S: Source>(alloc: Global, input: &mut S) -> Result<Text, ReadEnd>
    ensures whole { IfOk result (λ text. HoldsInput (S.left input.old) text) }
    ensures short { IfOk result (λ text. IsShortInput text) }
    ensures at_end { OnOk result (IsAtEnd (S.left input.new)) }
    ensures cause { IfErr result (λ end. IsInputCause end (S.left input.old) (S.faults input.old) (S.faults input.new)) }
{
    let bytes = read_all(alloc, input, INPUT_LIMIT)?;
    Ok(Text::from_vec(bytes))
}
