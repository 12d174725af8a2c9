//! A version and its code.
ghost use Rattle.std.specs.Prelude.{◌≡◌, slice_get};
ghost use Rattle.kt_meaning.specs.Laws.{numbered};
ghost use Rattle.kt_pair.specs.VersionActs.{DoesVersion, EntriesLookAlike, FitsEntries};

use kt_code::Code;
use kt_tree::Version;
use std::marker::Model;

/// A version and its code. Whatever number the version has, its code does exactly the acts of its trees, and the states
/// at which its threads begin fit the code.
#[derive(Drop)]
pub struct Compiled {
    version: Version,
    code: Code,
}

impl Model for Compiled {
    ghost use Rattle.kt_pair.specs.Pair.{Pair};
    ghost use Rattle.kt_pair.specs.Stored.{pair_code};
    ghost use Rattle.kt_meaning.specs.Laws.{numbered};
    ghost use Rattle.kt_pair.specs.VersionActs.{DoesVersion, FitsEntries};

    ghost Value = { Pair };

    ghost coded = { pair_code };

    ghost view = { λ c. record { program = c.version; code = c.code } };

    ghost invariant = { λ c. ((n : _) → DoesVersion (numbered c.version n) c.code) × ((n : _) → FitsEntries (numbered c.version n) c.code) };
}

impl Compiled {
    /// The version beside this code of it.
    pub fn new(version: Version, code: Code) -> Compiled
        requires acts { (n : _) → DoesVersion (numbered version n) code }
        requires fits { (n : _) → FitsEntries (numbered version n) code }
        ensures { result ≡ record { program = version; code = code } }
    {
        Compiled { version, code }
    }

    /// The version.
    pub fn version(&self) -> &Version
        ensures { result.now ≡ self.now.program }
    {
        &self.version
    }

    /// Where the code of a function of the version begins.
    pub fn entry(&self, function: u32) -> Option<u32>
        ensures { result ≡ slice_get self.now.code.entries function }
    {
        self.code.entry(function)
    }

    /// The version's code.
    pub fn code(&self) -> &Code
        ensures { result.now ≡ self.now.code }
    {
        &self.code
    }
}

/// What the code of a compiled version does: exactly the acts of the version's trees, from each function's entry, with
/// any arguments, on all lists of replies. The states at which its threads begin fit the code.
pub fn compiled_law(compiled: &Compiled)
    ensures acts { (n : _) → DoesVersion (numbered compiled.now.program n) compiled.now.code }
    ensures fits { (n : _) → FitsEntries (numbered compiled.now.program n) compiled.now.code }
{
    let _ = &compiled.version;
}

/// The state at a function's entry looks like the tree's thread there: the same function with the same locals, the same
/// mode and kept locals.
pub fn entry_law()
    ensures { EntriesLookAlike }
{}
