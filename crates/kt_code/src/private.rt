//! The private state of a thread.
ghost use Rattle.std.specs.Prelude.{◌≡◌, IfOk};

use crate::frame::Frames;
use crate::operands::Operands;
use kt_mem::{Act, KeptLocals, Mode, Trap};
use std::alloc::AllocError;

/// All of a thread that it touches alone: the number of its version, its frames and operands, and what an update left.
#[derive(Drop)]
pub struct Private {
    pub version: u8,
    pub frames: Frames,
    pub operands: Operands,
    pub mode: Mode,
    /// The kept values of locals.
    pub locals: KeptLocals,
}

impl Private {
    /// A state that equals this one.
    pub fn copy(&self) -> Result<Private, AllocError>
        ensures { IfOk result (λ p. p ≡ self.now) }
    {
        Ok(Private {
            version: self.version,
            frames: self.frames.clone()?,
            operands: self.operands.clone()?,
            mode: self.mode,
            locals: self.locals.clone()?,
        })
    }
}

/// What a thread has come to after its quiet steps.
#[derive(Drop)]
pub enum Head {
    Act(Act),
    Trap(Trap),
}
