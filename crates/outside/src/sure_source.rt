// A source in memory that never fails.
ghost use Rattle.std.specs.Prelude.{◌≡◌, ◌<◌, ◌≤◌, ◌++◌, [], Some, min, length, drop, take, IfOk, IsOk, IsErr};
ghost use Rattle.std.specs.Io.{ReadsAtMost};
ghost use Rattle.std.specs.Io.KnownBytes.{ReadConsumes};
ghost use Rattle.outside.specs.Causes.{HasCause};
ghost use Rattle.outside.specs.Memory.{SureSourceState, moved_count};

use crate::memory_source::give;
use crate::{Failed, Source};
use std::marker::Model;

/// A source in memory that never fails.
#[derive(Drop)]
pub struct SureSource {
    bytes: Vec<u8>,
    taken: usize,
    cut: usize,
}

impl Model for SureSource {
    ghost Value = { SureSourceState };

    ghost view = { λ s. record { left = drop s.taken s.bytes.items; cut = s.cut } };

    ghost invariant = { λ s. s.taken ≤ length s.bytes.items };
}

impl SureSource {
    /// A call of `read` gives at most `cut` bytes, where that isn't 0.
    pub fn new(bytes: Vec<u8>, cut: usize) -> Self
        ensures { result ≡ record { left = bytes.items; cut = cut } }
    {
        SureSource {
            bytes,
            taken: 0,
            cut,
        }
    }
}

impl Source for SureSource {
    ghost left = { λ s. Some s.left };

    ghost fault_count = { λ _. 0 };

    fn faults(&self) -> u64 {
        0
    }

    fn read(&mut self, buf: &mut [u8]) -> Result<usize, Failed>
        requires { 0 < length buf.old }
        ensures bound { ReadsAtMost result buf.new }
        ensures bytes { ReadConsumes (Some self.old.left) (Some self.new.left) result buf.new }
        ensures cause { HasCause 0 0 (IsErr result) }

        // What it does, exactly.
        ensures sure { IsOk result }
        ensures count { IfOk result
            (λ count. count ≡ moved_count (min (length self.old.left) (length buf.old)) self.old.cut) }
        ensures buffer { IfOk result (λ count. buf.new ≡ take count self.old.left ++ drop count buf.old) }
        ensures left { IfOk result (λ count. self.new ≡ record self.old { left = drop count self.old.left }) }
    {
        let count = give(&self.bytes[self.taken..], buf, self.cut);
        self.taken += count;
        Ok(count)
    }
}
