// A sink in memory that never fails.
ghost use Rattle.std.specs.Prelude.{◌≡◌, ◌<◌, ◌≤◌, ◌++◌, Some, length, take, IfOk, IsOk, OnErr, OnOk, IsErr, IsErrOf};
ghost use Rattle.std.specs.Io.KnownBytes.{WriteAppends, Keeps};
ghost use Rattle.outside.specs.Causes.{HasCause};
ghost use Rattle.outside.specs.Memory.{SureSinkState, moved_count};

use crate::memory_source::cut_to;
use crate::{Failed, PutFault, Sink};
use std::marker::Model;

/// A sink in memory that never fails. Memory can be lacking for the bytes that it keeps.
#[derive(Drop)]
pub struct SureSink {
    bytes: Vec<u8>,
    flushed: usize,
    cut: usize,
}

impl Model for SureSink {
    ghost Value = { SureSinkState };

    ghost view = { λ s. record { written = s.bytes.items; flushed = s.flushed; cut = s.cut } };
}

impl SureSink {
    /// The given bytes count as written, and none of them as flushed. A call takes at most `cut` bytes, where that
    /// isn't 0.
    pub fn new(bytes: Vec<u8>, cut: usize) -> Self
        ensures { result ≡ record { written = bytes.items; flushed = 0; cut = cut } }
    {
        SureSink {
            bytes,
            flushed: 0,
            cut,
        }
    }

    /// What is written so far, flushed or not.
    pub fn bytes(&self) -> &[u8]
        ensures { result.now ≡ self.now.written }
    {
        &self.bytes
    }
}

impl Sink for SureSink {
    ghost written = { λ s. Some s.written };

    ghost flushed = { λ s. Some s.flushed };

    ghost fault_count = { λ _. 0 };

    fn faults(&self) -> u64 {
        0
    }

    fn write(&mut self, piece: &[u8]) -> Result<usize, PutFault>
        requires { 0 < length piece.now }
        ensures some { IfOk result (λ count. 0 < count) }
        ensures most { IfOk result (λ count. count ≤ length piece.now) }
        ensures bytes { WriteAppends (Some self.old.written) (Some self.new.written) result piece.now }
        ensures flushed { Some self.new.flushed ≡ Some self.old.flushed }
        ensures cause { HasCause 0 0 (IsErrOf result PutFault.Failed) }

        // What it does, exactly.
        ensures sure { ¬ IsErrOf result PutFault.Failed }
        ensures count { IfOk result (λ count. count ≡ moved_count (length piece.now) self.old.cut) }
        ensures ok { IfOk result
            (λ count. self.new ≡ record self.old { written = self.old.written ++ take count piece.now }) }
        ensures err { OnErr result (self.new ≡ self.old) }
    {
        let count = cut_to(piece.len(), self.cut);
        self.bytes.extend_from_slice(&piece[..count])?;
        Ok(count)
    }

    fn flush(&mut self) -> Result<(), Failed>
        ensures bytes { Keeps (Some self.old.written) (Some self.new.written) }
        ensures flushed { OnOk result (self.new.flushed ≡ length self.new.written) }
        ensures unflushed { OnErr result (Some self.new.flushed ≡ Some self.old.flushed) }
        ensures cause { HasCause 0 0 (IsErr result) }

        // What it does, exactly.
        ensures sure { IsOk result }
        ensures ok { self.new ≡ record self.old { flushed = length self.old.written } }
    {
        self.flushed = self.bytes.len();
        Ok(())
    }
}
