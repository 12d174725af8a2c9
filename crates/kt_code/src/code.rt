//! Code.
ghost use Rattle.std.specs.Prelude.{◌≡◌, ◌<◌, ◌++◌, length, OnOk, OnErr, slice_get};
ghost use Rattle.kt_code.specs.Settling.{HasJumps, HasPlaces, HasRoom};

use crate::instr::Instr;
use kt_types::Points;
use std::alloc::AllocError;
use std::marker::Model;

/// A list of instructions.
#[derive(Drop)]
pub struct Instrs {
    items: Vec<Instr>,
}

impl Model for Instrs {
    ghost use Rattle.std.specs.Prelude.{List};
    ghost use Rattle.kt_code.specs.declared.instr.Instr.{Instr};

    ghost Value = { List Instr };

    ghost view = { λ i. i.items.items };
}

impl Instrs {
    /// The list of these instructions.
    pub fn from_vec(items: Vec<Instr>) -> Instrs
        ensures { result ≡ items.items }
    {
        Instrs { items }
    }

    /// The instructions, as the vector that holds them.
    pub fn into_vec(self) -> Vec<Instr>
        ensures { result.items ≡ self }
    {
        self.items
    }

    /// The instructions.
    pub fn as_slice(&self) -> &[Instr]
        ensures { result.now ≡ self.now }
    {
        self.items.as_slice()
    }

    /// Puts more instructions behind these.
    fn append(&mut self, more: Vec<Instr>) -> Result<(), AllocError>
        ensures ok { OnOk result (self.new ≡ self.old ++ more.items) }
        ensures err { OnErr result (self.new ≡ self.old) }
    {
        let mut more = more;
        self.items.append(&mut more)
    }
}

/// For each function the place of its first instruction.
#[derive(Drop)]
pub struct Entries {
    items: Vec<u32>,
}

impl Model for Entries {
    ghost use Rattle.std.specs.Prelude.{List, ℕ};

    ghost Value = { List ℕ };

    ghost view = { λ e. e.items.items };
}

impl Entries {
    /// The list of these places.
    pub fn from_vec(items: Vec<u32>) -> Entries
        ensures { result ≡ items.items }
    {
        Entries { items }
    }

    /// The places, as the vector that holds them.
    pub fn into_vec(self) -> Vec<u32>
        ensures { result.items ≡ self }
    {
        self.items
    }

    /// The places.
    pub fn as_slice(&self) -> &[u32]
        ensures { result.now ≡ self.now }
    {
        self.items.as_slice()
    }
}

/// The instructions of a version, where its functions begin, and the names of its points. There are fewer than 2^32 of
/// them; each jump forward stays within the code, and each jump back goes to a tick.
#[derive(Drop)]
pub struct Code {
    instrs: Instrs,
    entries: Entries,
    points: Points,
}

impl Model for Code {
    ghost use Rattle.kt_code.specs.Code.{Code as Content};
    ghost use Rattle.kt_code.specs.Settling.{HasJumps, HasPlaces};

    ghost Value = { Content };

    ghost view = { λ c. record { instrs = c.instrs; entries = c.entries; points = c.points } };

    ghost invariant = { λ c. HasJumps c.instrs × HasPlaces c.instrs };
}

impl Code {
    /// The code of these instructions.
    pub fn new(instrs: Instrs, entries: Entries, points: Points) -> Code
        requires jumps { HasJumps instrs }
        requires places { HasPlaces instrs }
        ensures { result ≡ record { instrs = instrs; entries = entries; points = points } }
    {
        Code {
            instrs,
            entries,
            points,
        }
    }

    /// The instructions.
    pub fn instrs(&self) -> &[Instr]
        ensures value { result.now ≡ self.now.instrs }
        ensures jumps { HasJumps self.now.instrs }
        ensures places { HasPlaces self.now.instrs }
    {
        self.instrs.as_slice()
    }

    /// The instruction at a place of the code.
    #[inline]
    pub fn instr(&self, at: u32) -> &Instr
        requires { at < length self.now.instrs }
        ensures value { slice_get self.now.instrs at ≡ Some result.now }
        ensures room { HasRoom at result.now }
    {
        &self.instrs.as_slice()[at as usize]
    }

    /// For each function the place of its first instruction.
    pub fn entries(&self) -> &[u32]
        ensures { result.now ≡ self.now.entries }
    {
        self.entries.as_slice()
    }

    /// Where the code of a function begins.
    pub fn entry(&self, function: u32) -> Option<u32>
        ensures { result ≡ slice_get self.now.entries function }
    {
        self.entries.as_slice().get(function as usize).copied()
    }

    /// The names of the points.
    pub fn points(&self) -> &Points
        ensures { result.now ≡ self.now.points }
    {
        &self.points
    }

    /// Puts more instructions behind these; 2^32 or more of them are want of memory.
    pub fn append(&mut self, more: Vec<Instr>) -> Result<(), AllocError>
        requires { HasJumps (self.old.instrs ++ more.items) }
        ensures ok { OnOk result (self.new ≡ record self.old { instrs = self.old.instrs ++ more.items }) }
        ensures err { OnErr result (self.new ≡ self.old) }
    {
        let room = u32::MAX as usize - self.instrs.as_slice().len();
        if room < more.len() {
            return Err(AllocError);
        }
        self.instrs.append(more)?;
        Ok(())
    }
}
