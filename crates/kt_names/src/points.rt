//! The names of update points, and those that are asked about.

ghost use Rattle.std.specs.Prelude.{◌≡◌, ◌<◌, ◌≤◌, ◌^◌, [], ◌∷◌, ◌++◌, map, length, OnOk, IfOk};
ghost use Rattle.kt_names.specs.Gathered.{written_as, written_in};
ghost use Rattle.kt_names.specs.Types.{with_names};
ghost use Rattle.kt_names.specs.Tables.{updates_in, asks_in};

use crate::mentions::add_names;
use crate::written::Written;
use indexmap::IndexSet;
use kt_types::{Points, Text};
use std::alloc::{AllocError, Global};

/// The name more, where the string is one of an update point.
fn push_update<'f>(names: &mut Vec<&'f [u8]>, written: Written<'f>) -> Result<(), AllocError>
    ensures { OnOk result (map (λ n. n.now) names.new.items ≡ map (λ n. n.now) names.old.items ++ updates_in (written_as written.entry ∷ [])) }
{
    match written {
        Written::Literal(_, _) => Ok(()),
        Written::Updates(bytes) => {
            names.push(bytes)?;
            Ok(())
        }
        Written::Asks(_) => Ok(()),
    }
}

/// The name more, where the string is one that is asked about.
fn push_asked<'f>(names: &mut Vec<&'f [u8]>, written: Written<'f>) -> Result<(), AllocError>
    ensures { OnOk result (map (λ n. n.now) names.new.items ≡ map (λ n. n.now) names.old.items ++ asks_in (written_as written.entry ∷ [])) }
{
    match written {
        Written::Literal(_, _) => Ok(()),
        Written::Updates(_) => Ok(()),
        Written::Asks(bytes) => {
            names.push(bytes)?;
            Ok(())
        }
    }
}

/// The names of update points, each as often as it is written.
#[tactic(auto, using(crate::proofs::Noted::strings))]
fn updates<'f>(alloc: Global, strings: &[Written<'f>]) -> Result<Vec<&'f [u8]>, AllocError>
    ensures { IfOk result (λ names. map (λ n. n.now) names.items ≡ updates_in (written_in strings.now)) }
{
    let mut names = Vec::new(alloc);
    for written in strings {
        push_update(&mut names, *written)?;
    }
    Ok(names)
}

/// The names that are asked about, each as often as it is written.
#[tactic(auto, using(crate::proofs::Noted::strings))]
fn asked<'f>(alloc: Global, strings: &[Written<'f>]) -> Result<Vec<&'f [u8]>, AllocError>
    ensures { IfOk result (λ names. map (λ n. n.now) names.items ≡ asks_in (written_in strings.now)) }
{
    let mut names = Vec::new(alloc);
    for written in strings {
        push_asked(&mut names, *written)?;
    }
    Ok(names)
}

/// The names of points, the update points first, and how many of them are update points.
pub(crate) fn point_names(
    alloc: Global,
    strings: &[Written<'_>],
) -> Result<(IndexSet<Vec<u8>>, u32), AllocError>
    ensures names { IfOk result (λ r. map (λ n. n.items) r.0.keys ≡ with_names (with_names [] (updates_in (written_in strings.now))) (asks_in (written_in strings.now))) }
    ensures updates { IfOk result (λ r. r.1 ≡ length (with_names [] (updates_in (written_in strings.now)))) }
    ensures few { IfOk result (λ r. length r.0.keys < 2 ^ 32) }
{
    let updates = updates(alloc, strings)?;
    let asked = asked(alloc, strings)?;
    let mut names = IndexSet::new(alloc);
    add_names(&mut names, alloc, &updates)?;
    let count = u32::try_from(names.len()).map_err(|_| AllocError)?;
    add_names(&mut names, alloc, &asked)?;
    if names.len() > u32::MAX as usize {
        return Err(AllocError);
    }
    Ok((names, count))
}

/// The points of these names.
pub fn points(alloc: Global, names: &IndexSet<Vec<u8>>, updates: u32) -> Result<Points, AllocError>
    requires { updates ≤ length names.now.keys }
    ensures names { IfOk result (λ points. points.names ≡ map (λ n. n.items) names.now.keys) }
    ensures updates { IfOk result (λ points. points.updates ≡ updates) }
{
    let mut texts = Vec::new(alloc);
    for name in names.as_slice() {
        let text = Text::from_vec(Vec::from_slice(alloc, name)?);
        texts.push(text)?;
    }
    Ok(Points::from_vec(texts, updates))
}
