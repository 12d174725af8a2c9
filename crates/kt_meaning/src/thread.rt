//! Threads of the tree.
ghost use Rattle.std.specs.Prelude.{◌≡◌};

use crate::part::Part;
use kt_mem::{KeptLocals, Mode, Values};
use std::marker::Model;

/// The work that is left to a frame, the next part first.
#[derive(Drop)]
pub struct Parts {
    items: Vec<Part>,
}

impl Model for Parts {
    ghost use Rattle.std.specs.Prelude.{List};
    ghost use Rattle.std.specs.Coded.{coded_list};
    ghost use Rattle.kt_meaning.specs.declared.part.Part.{Part};
    ghost use Rattle.kt_meaning.specs.contracts.part.Part as part;

    ghost Value = { List Part };

    ghost coded = { coded_list part.the_row.coded };

    ghost view = { λ p. p.items.items };
}

impl Parts {
    /// The list of these parts.
    pub fn from_vec(items: Vec<Part>) -> Parts
        ensures { result ≡ items.items }
    {
        Parts { items }
    }

    /// The parts, as the vector that holds them.
    pub fn into_vec(self) -> Vec<Part>
        ensures { result.items ≡ self }
    {
        self.items
    }

    /// The parts.
    pub fn as_slice(&self) -> &[Part]
        ensures { result.now ≡ self.now }
    {
        self.items.as_slice()
    }
}

/// A call that is open: the number of the function, the values of its locals, and the work that is left.
#[derive(Drop)]
pub struct TreeFrame {
    pub function: u32,
    pub locals: Values,
    pub work: Parts,
}

/// The frames of a thread, the latest call first.
#[derive(Drop)]
pub struct TreeFrames {
    items: Vec<TreeFrame>,
}

impl Model for TreeFrames {
    ghost use Rattle.std.specs.Prelude.{List};
    ghost use Rattle.std.specs.Coded.{coded_list};
    ghost use Rattle.kt_meaning.specs.declared.thread.TreeFrame.{TreeFrame};
    ghost use Rattle.kt_meaning.specs.contracts.thread.TreeFrame as frame;

    ghost Value = { List TreeFrame };

    ghost coded = { coded_list frame.the_row.coded };

    ghost view = { λ f. f.items.items };
}

impl TreeFrames {
    /// The list of these frames.
    pub fn from_vec(items: Vec<TreeFrame>) -> TreeFrames
        ensures { result ≡ items.items }
    {
        TreeFrames { items }
    }

    /// The frames, as the vector that holds them.
    pub fn into_vec(self) -> Vec<TreeFrame>
        ensures { result.items ≡ self }
    {
        self.items
    }

    /// The frames.
    pub fn as_slice(&self) -> &[TreeFrame]
        ensures { result.now ≡ self.now }
    {
        self.items.as_slice()
    }
}

/// A thread of a version: its frames, its mode, and what an update kept for its locals.
#[derive(Drop)]
pub struct TreeThread {
    pub frames: TreeFrames,
    pub mode: Mode,
    pub locals: KeptLocals,
}
