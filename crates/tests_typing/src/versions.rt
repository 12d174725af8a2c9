//! The version of a text: its names are looked up, and it is copied.

use crate::typing::read;
use kt_check::check;
use kt_tree::Version;
use std::alloc::{AllocError, Global};
use std::test::Fail;

/// A global, two functions, a point, and another one that is only asked about.
const TEXT: &str = "int count; void idle(void) E_NOTELOCALS { } \
int main(void) { kitsune_update(\"top\"); puts(\"hi\"); return kitsune_is_updating_from(\"far\") ? 7 : 9; }";

fn version(alloc: Global) -> Option<Version> {
    match read(alloc, TEXT.as_bytes()) {
        Ok(file) => {
            let version = check(alloc, &file).ok();
            drop(file);
            version
        }
        Err(_) => None,
    }
}

/// A place as a number or `-`, with a space behind it.
fn place(out: &mut String, place: Option<u32>) -> Result<(), AllocError> {
    match place {
        Some(place) => write!(out, "{place} "),
        None => out.push_str("- "),
    }
}

/// The places of each name as a global, a function and a point.
fn places(alloc: Global, version: &Version, names: &[&str]) -> Result<String, AllocError> {
    let mut out = String::new(alloc);
    for name in names {
        let name = name.as_bytes();
        place(&mut out, version.global(name))?;
        place(&mut out, version.function(name))?;
        place(&mut out, version.point(name))?;
    }
    Ok(out)
}

/// The place of a function in a copy of the version.
fn place_in_copy(version: &Version, name: &str) -> Result<Option<u32>, AllocError> {
    let copy = version.copy()?;
    let place = copy.function(name.as_bytes());
    drop(copy);
    Ok(place)
}

#[test]
fn names_are_found(rt: HostRuntime) -> Result<(), Fail> {
    let version = version(rt.alloc()).ok_or("no version")?;
    let names = ["count", "coun", "idle", "main", "top", "far"];
    let found = places(rt.alloc(), &version, &names);
    let copied = place_in_copy(&version, "idle");
    drop(version);
    assert_eq!(rt; found?.as_str(), "0 - - - - - - 0 - - 1 - - - 0 - - - ");
    assert!(rt; copied? == Some(0));
    Ok(())
}
