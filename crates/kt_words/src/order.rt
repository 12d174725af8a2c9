use super::names::Names;
use kt_types::{Numbers, Text};

/// The program that is called.
#[derive(Clone, Copy)]
pub enum Program {
    /// `kitplay`
    Play,
    /// `kitsune`
    Serve,
}

/// What chooses the turns.
#[derive(Drop)]
pub enum Wish {
    /// Round robin with this many turns in a row.
    Quantum(u32),
    /// The mixed schedule that begins with this number.
    Mix(u64),
    /// The turns that the file of this name lists.
    Turns(Text),
}

/// What the words of a call order.
#[derive(Drop)]
pub struct Order {
    /// After how many turns each request comes.
    pub after: Numbers,
    /// The most turns.
    pub budget: u32,
    pub workers: u8,
    pub schedule: Wish,
    /// The size of the generated job, where it is to run.
    pub job: Option<u32>,
    /// A version, and for each update its rules and the next version.
    pub files: Names,
}
