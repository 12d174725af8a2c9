//! What files, sources and sinks promise. What they tell of their bytes is optional: it is `None`
//! where nobody knows them.

ghost use Rattle.std.specs.Prelude.{◌≡◌, ℕ, ◌+◌, ◌<◌, ◌≤◌, List, Option, Result, length, IfOk, IsErrOf, is_err, vec_len, ⊤};
ghost use Rattle.std.specs.Io.{ReadsAtMost, WritesAtMost};
ghost use Rattle.std.specs.Io.KnownBytes.{ReadConsumes, WriteAppends};
ghost use Rattle.kt_edge.specs.declared.ends.Failed.{Failed};
ghost use Rattle.kt_edge.specs.Count.{HasCause, Rose, count_after, one_more};
ghost use Rattle.kt_edge.specs.FileMap.{FileMap, Lacks, StartsFile};

use crate::{Failed, FileEnd};
use std::alloc::Global;

/// Files that are read by their names.
pub trait Files {
    /// The names and the bytes, where they are told.
    ghost told: { Self → Option FileMap };

    /// How often a read failed, up to the last value of 64 bits.
    ghost faults: { Self → ℕ };

    /// The first `limit + 1` bytes of the file of that name, or all where it has fewer.
    fn read(&mut self, alloc: Global, name: &str, limit: u32) -> Result<Vec<u8>, FileEnd>
        ensures same { told self.new ≡ told self.old }
        ensures start { IfOk result
            (λ v. StartsFile (told self.old) name.now (limit + 1) v.items) }
        ensures bound { IfOk result (λ v. vec_len v ≤ limit + 1) }

        ensures later { faults self.old ≤ faults self.new }
        ensures failed { IsErrOf result FileEnd.Failed
            → Rose (faults self.old) (faults self.new) }
        ensures missing { IsErrOf result FileEnd.Missing → Lacks (told self.old) name.now }
        ensures missing_is_no_fault { IsErrOf result FileEnd.Missing
            → faults self.new ≡ faults self.old }

        // The count rises by one at `Failed`, and stays at any other answer.
        ensures rises { IsErrOf result FileEnd.Failed
            → faults self.new ≡ one_more (faults self.old) }
        ensures stays { ¬ IsErrOf result FileEnd.Failed → faults self.new ≡ faults self.old };
}

/// Bytes that are read once, in order.
pub trait Source {
    /// The bytes that are left to read, where they are told.
    ghost left: { Self → Option (List ℕ) };

    /// How often a read failed, up to the last value of 64 bits.
    ghost faults: { Self → ℕ };

    /// Reads the next bytes into the front of `buf`, and says how many: none only at the end of the
    /// source or into an empty `buf`. A read that fails has read nothing.
    fn read(&mut self, buf: &mut [u8]) -> Result<usize, Failed>
        ensures bound { ReadsAtMost result buf.new }
        ensures bytes { ReadConsumes (left self.old) (left self.new) result buf.new }
        ensures cause { HasCause (faults self.old) (faults self.new) result }
        ensures count { faults self.new ≡ count_after (faults self.old) (is_err result) };
}

/// Takes bytes, in order.
pub trait Sink {
    /// The bytes that were taken so far, where they are told.
    ghost taken: { Self → Option (List ℕ) };

    /// How often a write failed, up to the last value of 64 bits.
    ghost faults: { Self → ℕ };

    /// Relates the sink before a call, the bytes that it is given, its answer, and the sink after it.
    /// The default says nothing.
    ghost write_gives: { Self → List ℕ → Result ℕ Failed → Self → Type 0 } = { λ _ _ _ _. ⊤ };

    /// Takes bytes from the front of `bytes`, and says how many: at least one of a piece that isn't
    /// empty. A write that fails has taken nothing.
    fn write(&mut self, bytes: &[u8]) -> Result<usize, Failed>
        ensures bound { WritesAtMost result bytes.now }
        ensures some { IfOk result (λ n. 0 < length bytes.now → 0 < n) }
        ensures bytes { WriteAppends (taken self.old) (taken self.new) result bytes.now }
        ensures cause { HasCause (faults self.old) (faults self.new) result }
        ensures count { faults self.new ≡ count_after (faults self.old) (is_err result) }
        ensures gives { write_gives self.old bytes.now result self.new };
}
