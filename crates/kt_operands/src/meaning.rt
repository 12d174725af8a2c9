//! What names stand for.

use kt_tree::Constant;
use kt_typing::Standing;

/// What a name or a word of rule code stands for.
#[derive(Clone, Copy)]
pub enum Meaning {
    Missing,
    /// Something that may not stand by itself.
    Barred,
    /// What stands so, of that type and constant: a global's place is known by its address.
    Fixed(Standing, u32, Constant),
    /// The local of that number and type.
    Local(u32, u32),
    /// The defined function of that number.
    Routine(u32),
}

/// What a call of a function takes and gives: the types of its parameters, and its result.
#[derive(Drop)]
pub struct Head {
    pub parameters: Vec<u32>,
    pub result: Option<u32>,
}

/// Whether it is an expression of a C file or of rule code: they tell other faults of a struct without a definition.
#[derive(Clone, Copy, PartialEq, Eq)]
pub enum Dialect {
    C,
    Rules,
}
