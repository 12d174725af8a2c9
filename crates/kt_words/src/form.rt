//! What each word is: an option with or without its value, a file, or `--`.

ghost use Rattle.std.specs.Prelude.{◌≡◌, ◌≢◌, ℕ, codes, MatchBool, true, ◌≤◌, ◌∷◌, ◌++◌, List, IfOk, IfSome, IfNone, IsErrOf, OnOk, length, string_bytes};
ghost use Rattle.std.specs.List.{AllByRecursion, list_any};
ghost use Rattle.std.specs.Str.{bytes_eq};
ghost use Rattle.kt_words.specs.Form.{Gives, begins_with_hyphen, is_option, texts, IsName, IsValue};
ghost use Rattle.kt_words.specs.Reading.{Grows, HasNoForm, IsKind, told};

use super::fault::WordFault;
use super::order::Program;
use super::value::Value;
use std::alloc::Global;

const PLAY: [&str; 6] = [
    "--after",
    "--budget",
    "--quantum",
    "--mix",
    "--turns",
    "--job",
];

const SERVE: [&str; 3] = ["--after", "--budget", "--workers"];

/// What words give.
#[derive(Drop)]
pub struct Given<'a> {
    pub values: Vec<Value<'a>>,
    pub files: Vec<String>,
}

/// What a word is in front of `--`.
#[derive(Clone, Copy)]
pub enum Kind<'a> {
    /// An option and its value.
    Joined(&'a str, &'a str),
    /// An option, whose value is the next word.
    Name,
    File,
    /// `--`
    End,
    Other,
}

fn is_among(options: &[&str], name: &str) -> bool
    ensures { result ≡ list_any (λ option. bytes_eq option.now name.now) options.now }
{
    options.iter().any(|option| *option == name)
}

#[tactic(auto, unfolding(crate::specs::Form::is_option, crate::specs::Form::options_of))]
fn is_option(program: Program, name: &str) -> bool
    ensures { result ≡ is_option program name.now }
{
    match program {
        Program::Play => is_among(&PLAY, name),
        Program::Serve => is_among(&SERVE, name),
    }
}

fn begins_with_hyphen(word: &str) -> bool
    ensures { result ≡ begins_with_hyphen word.now }
{
    matches!(word.as_bytes(), [b'-', ..])
}

fn kind_of<'a>(program: Program, word: &'a str) -> Kind<'a>
    ensures { IsKind program word.now result }
{
    if word == "--" {
        Kind::End
    } else if begins_with_hyphen(word) {
        kind_of_option(program, word)
    } else if word.is_empty() {
        Kind::Other
    } else {
        Kind::File
    }
}

fn kind_of_option<'a>(program: Program, word: &'a str) -> Kind<'a>
    requires hyphen { begins_with_hyphen word.now ≡ true }
    requires no_end { word.now ≢ codes "--" }
    ensures { IsKind program word.now result }
{
    match word.split_once('=') {
        None => {
            if is_option(program, word) {
                Kind::Name
            } else {
                Kind::Other
            }
        }
        Some((name, value)) => {
            if !value.is_empty() && is_option(program, name) {
                Kind::Joined(name, value)
            } else {
                Kind::Other
            }
        }
    }
}

// Whether the word may stand behind `--`.
fn is_name(word: &str) -> bool
    ensures { MatchBool result (IsName word.now) (IsName word.now → ⊥) }
{
    !word.is_empty() && word != "-"
}

// `--` and the names behind it.
fn take_names(files: &mut Vec<String>, names: &[String]) -> Result<(), WordFault>
    ensures ok { OnOk result (texts files.new.items ≡ texts files.old.items ++ texts names.now) }
    ensures named { OnOk result (AllByRecursion IsName (texts names.now)) }
    ensures err { IsErrOf result WordFault.Words → AllByRecursion IsName (texts names.now) → ⊥ }
{
    for name in names {
        if !is_name(name.as_str()) {
            return Err(WordFault::Words);
        }
        files.push(name.clone()?)?;
    }
    Ok(())
}

// A value in a word of its own stands first, and doesn't begin with `-`.
fn apart(words: &[String]) -> Option<(&str, &[String])>
    ensures value { IfSome result (λ found. (texts words.now ≡ found.0.now ∷ texts found.1.now) × IsValue found.0.now) }
    ensures shorter { IfSome result (λ found. length found.1.now ≤ length words.now) }
    ensures none { IfNone result ((value : List ℕ) (rest : List (List ℕ)) → texts words.now ≡ value ∷ rest → IsValue value → ⊥) }
{
    let [word, rest @ ..] = words else {
        return None;
    };
    let value = word.as_str();
    if value.is_empty() || begins_with_hyphen(value) {
        None
    } else {
        Some((value, rest))
    }
}

impl<'a> Given<'a> {
    // Takes the entry that the words begin with, or `--` and all behind it. It gives the words that are left.
    fn take(
        &mut self,
        program: Program,
        word: &'a String,
        more: &'a [String],
    ) -> Result<&'a [String], WordFault>
        ensures ok { IfOk result (λ rest. Grows program (string_bytes word.now ∷ texts more.now) (told self.old.values.items) (texts self.old.files.items) (told self.new.values.items) (texts self.new.files.items) (texts rest.now)) }
        ensures shorter { IfOk result (λ rest. length rest.now ≤ length more.now) }
        ensures err { IsErrOf result WordFault.Words → HasNoForm program (string_bytes word.now ∷ texts more.now) }
    {
        match kind_of(program, word.as_str()) {
            Kind::Joined(name, text) => {
                self.values.push(Value { name, text })?;
                Ok(more)
            }
            Kind::Name => {
                let (text, rest) = apart(more).ok_or(WordFault::Words)?;
                let name = word.as_str();
                self.values.push(Value { name, text })?;
                Ok(rest)
            }
            Kind::File => {
                self.files.push(word.clone()?)?;
                Ok(more)
            }
            Kind::End => {
                take_names(&mut self.files, more)?;
                Ok(&[])
            }
            Kind::Other => Err(WordFault::Words),
        }
    }
}

/// The values of options and the files that the words give.
pub fn gather(alloc: Global, program: Program, words: &[String]) -> Result<Given<'_>, WordFault>
    ensures ok { IfOk result (λ given. Gives program (texts words.now) (told given.values.items) (texts given.files.items)) }
    ensures err { IsErrOf result WordFault.Words → HasNoForm program (texts words.now) }
{
    let mut given = Given {
        values: Vec::new(alloc),
        files: Vec::new(alloc),
    };
    let mut rest = words;
    while let [word, more @ ..] = rest {
        rest = given.take(program, word, more)?;
    }
    Ok(given)
}
