//! Jobs.

use kt_tree::Version;
use kt_types::Text;
use sqlite_items::Items;

/// The versions of a program, in order.
pub type Versions = Items<Version>;

/// Numbers of turns.
pub type Numbers = Items<u32>;

/// What is to be run: the versions of a program, the turns after which updates are asked for, one after another, the
/// most turns of the run, and the input.
#[derive(Drop)]
pub struct Job {
    pub versions: Versions,
    pub after: Numbers,
    pub budget: u32,
    pub input: Text,
}
