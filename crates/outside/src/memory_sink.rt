// A sink in memory whose calls can fail.
ghost use Rattle.std.specs.Prelude.{◌≡◌, ◌<◌, ◌≤◌, ◌↔◌, ◌++◌, Some, length, take, if◌then◌else◌, IsTrue, Contains, IfOk, IfErr, OnErr, OnOk, IsErr, IsErrOf};
ghost use Rattle.std.specs.Io.KnownBytes.{WriteAppends, Keeps};
ghost use Rattle.outside.specs.Causes.{HasCause, one_more, faults_after_put};
ghost use Rattle.outside.specs.Memory.{SinkState, moved_count};

use crate::memory_source::cut_to;
use crate::{Failed, PutFault, Sink};
use std::marker::Model;

/// A sink in memory whose calls of some numbers fail. The counts of its calls and of its faults saturate.
#[derive(Drop)]
pub struct MemSink {
    bytes: Vec<u8>,
    flushed: usize,
    fail: Vec<u64>,
    cut: usize,
    calls: u64,
    faults: u64,
}

impl Model for MemSink {
    ghost Value = { SinkState };

    ghost view = { λ s. record { written = s.bytes.items; flushed = s.flushed; fail = s.fail.items; cut = s.cut; calls = s.calls; faults = s.faults } };
}

impl MemSink {
    /// The given bytes count as written, and none of them as flushed. The calls of `write` and `flush` whose numbers,
    /// from 1, stand in `fail` will fail. A call takes at most `cut` bytes, where that isn't 0.
    pub fn new(bytes: Vec<u8>, fail: Vec<u64>, cut: usize) -> Self
        ensures { result ≡ record { written = bytes.items; flushed = 0; fail = fail.items; cut = cut; calls = 0; faults = 0 } }
    {
        MemSink {
            bytes,
            flushed: 0,
            fail,
            cut,
            calls: 0,
            faults: 0,
        }
    }

    /// What is written so far, flushed or not.
    pub fn bytes(&self) -> &[u8]
        ensures { result.now ≡ self.now.written }
    {
        &self.bytes
    }

    // Counts a call, and says whether it fails.
    fn is_failing(&mut self) -> bool
        ensures fails { IsTrue result ↔ Contains self.old.fail (one_more self.old.calls) }
        ensures counts { self.new ≡ record self.old {
          calls = one_more self.old.calls;
          faults = if result then one_more self.old.faults else self.old.faults;
        } }
        ensures later { self.old.faults ≤ self.new.faults }
    {
        self.calls = self.calls.saturating_add(1);
        let fails = self.fail.contains(&self.calls);
        if fails {
            self.faults = self.faults.saturating_add(1);
        }
        fails
    }
}

impl Sink for MemSink {
    ghost written = { λ s. Some s.written };

    ghost flushed = { λ s. Some s.flushed };

    ghost fault_count = { λ s. s.faults };

    fn faults(&self) -> u64 {
        self.faults
    }

    fn write(&mut self, piece: &[u8]) -> Result<usize, PutFault>
        requires { 0 < length piece.now }
        ensures some { IfOk result (λ count. 0 < count) }
        ensures most { IfOk result (λ count. count ≤ length piece.now) }
        ensures bytes { WriteAppends (Some self.old.written) (Some self.new.written) result piece.now }
        ensures flushed { Some self.new.flushed ≡ Some self.old.flushed }
        ensures cause { HasCause self.old.faults self.new.faults (IsErrOf result PutFault.Failed) }

        // What it does, exactly.
        ensures failed { IsErrOf result PutFault.Failed ↔ Contains self.old.fail (one_more self.old.calls) }
        ensures count { IfOk result (λ count. count ≡ moved_count (length piece.now) self.old.cut) }
        ensures ok { IfOk result (λ count. self.new ≡ record self.old {
          written = self.old.written ++ take count piece.now;
          calls = one_more self.old.calls;
        }) }
        ensures err { IfErr result (λ fault. self.new ≡ record self.old {
          calls = one_more self.old.calls;
          faults = faults_after_put fault self.old.faults;
        }) }
    {
        if self.is_failing() {
            return Err(PutFault::Failed);
        }
        let count = cut_to(piece.len(), self.cut);
        self.bytes.extend_from_slice(&piece[..count])?;
        Ok(count)
    }

    fn flush(&mut self) -> Result<(), Failed>
        ensures bytes { Keeps (Some self.old.written) (Some self.new.written) }
        ensures flushed { OnOk result (self.new.flushed ≡ length self.new.written) }
        ensures unflushed { OnErr result (Some self.new.flushed ≡ Some self.old.flushed) }
        ensures cause { HasCause self.old.faults self.new.faults (IsErr result) }

        // What it does, exactly.
        ensures failed { IsErr result ↔ Contains self.old.fail (one_more self.old.calls) }
        ensures ok { OnOk result (self.new ≡ record self.old {
          flushed = length self.old.written;
          calls = one_more self.old.calls;
        }) }
        ensures err { OnErr result (self.new ≡ record self.old {
          calls = one_more self.old.calls;
          faults = one_more self.old.faults;
        }) }
    {
        if self.is_failing() {
            return Err(Failed);
        }
        self.flushed = self.bytes.len();
        Ok(())
    }
}
