//! Open calls.
ghost use Rattle.std.specs.Prelude.{◌≡◌, suc, ◌+◌, ◌-◌, ◌<◌, ◌^◌, [], ◌∷◌, length, reverse, drop, MatchOption, OnOk, OnErr};

use crate::locals::Locals;
use std::alloc::{AllocError, Global};
use std::marker::Model;

/// A call that is open: the number of the function, the place of its next instruction, and the values of its locals.
#[derive(Drop)]
pub struct Frame {
    pub function: u32,
    pub at: u32,
    pub locals: Locals,
}

impl Frame {
    /// The next instruction is taken.
    #[inline]
    pub fn next(&mut self)
        requires { suc self.old.at < 2 ^ 32 }
        ensures { self.new ≡ record self.old { at = suc self.old.at } }
    {
        self.at += 1;
    }

    /// The next instruction is taken, and so many behind it are passed.
    #[inline]
    pub fn pass(&mut self, count: u32)
        requires { suc self.old.at + count < 2 ^ 32 }
        ensures { self.new ≡ record self.old { at = suc self.old.at + count } }
    {
        self.at = self.at + 1 + count;
    }

    /// The next instruction is taken, and from there it goes so many back.
    #[inline]
    pub fn go_back(&mut self, count: u32)
        requires { suc self.old.at < 2 ^ 32 }
        ensures { self.new ≡ record self.old { at = suc self.old.at - count } }
    {
        self.at = (self.at + 1).saturating_sub(count);
    }
}

impl Clone for Frame {
    ghost is_clone = { λ a b. b ≡ a };

    fn clone(&self) -> Result<Frame, AllocError> {
        Ok(Frame {
            function: self.function,
            at: self.at,
            locals: self.locals.clone()?,
        })
    }
}

/// The open calls of a thread, seen as a list with the latest first.
#[derive(Drop)]
pub struct Frames {
    // The latest call stands last.
    items: Vec<Frame>,
}

impl Model for Frames {
    ghost use Rattle.std.specs.Prelude.{List, reverse};
    ghost use Rattle.kt_code.specs.declared.frame.Frame.{Frame};

    ghost Value = { List Frame };

    ghost view = { λ f. reverse f.items.items };
}

impl Frames {
    /// No call.
    pub fn new(alloc: Global) -> Frames
        ensures { result ≡ [] }
    {
        Frames {
            items: Vec::new(alloc),
        }
    }

    /// The list of these frames, of which the latest call stands last.
    pub fn from_vec(items: Vec<Frame>) -> Frames
        ensures { result ≡ reverse items.items }
    {
        Frames { items }
    }

    /// The frames, as the vector that holds them. The latest call stands last.
    pub fn into_vec(self) -> Vec<Frame>
        ensures { result.items ≡ reverse self }
    {
        self.items
    }

    /// The frames, of which the latest call stands last.
    pub fn as_slice(&self) -> &[Frame]
        ensures { result.now ≡ reverse self.now }
    {
        self.items.as_slice()
    }

    /// How many calls are open.
    pub fn count(&self) -> usize
        ensures { result ≡ length self.now }
    {
        self.items.len()
    }

    /// The frame of the latest call.
    pub fn first(&self) -> Option<&Frame>
        ensures { MatchOption result (self.now ≡ []) (λ f. self.now ≡ f.now ∷ drop 1 self.now) }
    {
        self.items.last()
    }

    /// Opens a call.
    pub fn push(&mut self, frame: Frame) -> Result<(), AllocError>
        ensures ok { OnOk result (self.new ≡ frame ∷ self.old) }
        ensures err { OnErr result (self.new ≡ self.old) }
    {
        self.items.push(frame)?;
        Ok(())
    }

    /// Closes the latest call.
    pub fn pop(&mut self) -> Option<Frame>
        ensures { MatchOption result ((self.old ≡ []) × (self.new ≡ [])) (λ f. self.old ≡ f ∷ self.new) }
    {
        self.items.pop()
    }
}

impl Clone for Frames {
    ghost is_clone = { λ a b. b ≡ a };

    fn clone(&self) -> Result<Frames, AllocError> {
        Ok(Frames {
            items: self.items.clone()?,
        })
    }
}
