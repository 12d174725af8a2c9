//! Jobs.

use kt_tree::Version;
use kt_types::{Numbers, Text};
use sqlite_items::Items;
use xf_plan::RulePlan;

/// The versions of a program, in order.
pub type Versions = Items<Version>;

/// The rule plans of the updates, each from the version of its number to the next one.
pub type Plans = Items<RulePlan>;

/// What is to be run: the versions of a program, the plans of the updates between them, the turns after which updates are
/// asked for, one after another, the most turns of the run, and the input.
#[derive(Drop)]
pub struct Job {
    pub versions: Versions,
    pub plans: Plans,
    pub after: Numbers,
    pub budget: u32,
    pub input: Text,
}
