//! A command of `clap` finds the same values of options and the same files.

use super::helpers::words;
use clap::{Arg, ArgAction, ArgMatches, Command, Error};
use kt_text::read_number;
use kt_words::{Order, Program, Wish, read_words};
use std::alloc::Global;
use std::test::Fail;

fn option<'a>(alloc: Global, name: &'a str) -> Arg<'a> {
    Arg::new(alloc, name).long(name).action(ArgAction::Set)
}

fn command<'a>(alloc: Global) -> Result<Command<'a>, Error> {
    let files = Arg::new(alloc, "files")
        .num_args(0..)
        .action(ArgAction::Append);
    let command = Command::new(alloc, "kitplay")
        .arg(option(alloc, "after"))?
        .arg(option(alloc, "budget"))?
        .arg(option(alloc, "quantum"))?
        .arg(option(alloc, "mix"))?
        .arg(option(alloc, "turns"))?
        .arg(option(alloc, "job"))?
        .arg(files)?;
    Ok(command)
}

fn number(matches: &ArgMatches<'_>, name: &str, default: u64) -> Option<u64> {
    match matches.get_str(name) {
        Some(text) => read_number(text.as_bytes(), u64::MAX),
        None => Some(default),
    }
}

fn same_numbers(order: &Order, matches: &ArgMatches<'_>) -> bool {
    let quantum = match order.schedule {
        Wish::Quantum(quantum) => quantum,
        _ => return false,
    };
    let after = order.after.as_slice();
    number(matches, "budget", 1_000_000) == Some(order.budget.into())
        && number(matches, "quantum", 50) == Some(quantum.into())
        && number(matches, "job", 0) == Some(order.job.unwrap_or(0).into())
        && (after.is_empty() || number(matches, "after", 0) == Some(after[0].into()))
}

fn same_files(order: &Order, matches: &ArgMatches<'_>) -> bool {
    let files = order.files.as_slice();
    match matches.get_strs("files") {
        Some(names) => {
            names.len() == files.len()
                && names
                    .iter()
                    .zip(files)
                    .all(|(name, file)| *name == file.as_str())
        }
        None => files.is_empty(),
    }
}

// The words behind the program's name.
fn behind_first(words: &[String]) -> &[String] {
    match words {
        [_, rest @ ..] => rest,
        [] => words,
    }
}

/// Whether both find the same in these words.
fn is_same(alloc: Global, line: &str) -> Result<bool, Fail> {
    let given = words(alloc, line)?;
    let order = read_words(alloc, Program::Play, behind_first(given.as_slice()))?;
    let matches = command(alloc)?.try_get_matches_from(given.as_slice())?;
    Ok(same_numbers(&order, &matches) && same_files(&order, &matches))
}

#[test]
fn clap_finds_the_same(rt: HostRuntime) -> Result<(), Fail> {
    for line in [
        "kitplay a.c e.kx b.c",
        "kitplay a.c e.kx b.c --after 9999",
        "kitplay a.c --quantum 1 e.kx b.c",
        "kitplay --budget=1000 a.c",
        "kitplay --job 2000 --after 20000",
    ] {
        assert!(rt; is_same(rt.alloc(), line)?);
    }
    Ok(())
}
