// A writer as a sink.
ghost use Rattle.std.specs.Prelude.{◌≡◌, ◌<◌, ◌≤◌, None, length, IfOk, IsErr, IsErrOf, IsSome, OnErr, MatchResult};
ghost use Rattle.std.specs.Io.KnownBytes.{WriteAppends, Keeps};
ghost use Rattle.outside.specs.Causes.{HasCause, faults_after_put, one_more};

use crate::{Failed, PutFault, Sink};
use std::io;
use std::io::Write;

/// A writer as a sink: standard output. It tells of the bytes what its writer tells, and of those of the system that is
/// nothing; how many of them are flushed no writer tells. Each write that fails, an interrupted one too, each write that
/// takes no byte, and each flush that fails is a fault; the count of them saturates. It never answers `Memory`.
#[derive(Drop)]
pub struct StdoutSink<W: Write> {
    inner: W,
    faults: u64,
    reason: Option<io::Error>,
}

impl<W: Write> StdoutSink<W> {
    /// Writes to this writer, with no fault so far.
    pub fn new(inner: W) -> Self
        ensures { result ≡ record { inner = inner; faults = 0; reason = None } }
    {
        StdoutSink {
            inner,
            faults: 0,
            reason: None,
        }
    }

    /// Why the last call that failed did so, as the writer says it; None where none has failed, or the last one that
    /// did was a write that took no byte.
    pub fn reason(&self) -> Option<io::Error>
        ensures { result ≡ self.now.reason }
    {
        self.reason
    }
}

impl<W: Write> Sink for StdoutSink<W> {
    ghost written = { λ s. W.contents s.inner };

    ghost flushed = { λ _. None };

    ghost fault_count = { λ s. s.faults };

    fn faults(&self) -> u64 {
        self.faults
    }

    fn write(&mut self, piece: &[u8]) -> Result<usize, PutFault>
        requires { 0 < length piece.now }
        ensures some { IfOk result (λ count. 0 < count) }
        ensures most { IfOk result (λ count. count ≤ length piece.now) }
        ensures bytes { WriteAppends (W.contents self.old.inner) (W.contents self.new.inner) result piece.now }
        ensures cause { HasCause self.old.faults self.new.faults (IsErrOf result PutFault.Failed) }
        ensures no_memory { ¬ IsErrOf result PutFault.Memory }

        // The count rises exactly at a fault.
        ensures count { MatchResult result (λ _. self.new.faults ≡ self.old.faults)
            (λ _. self.new.faults ≡ one_more self.old.faults) }
    {
        let reason = match self.inner.write(piece) {
            // A stream that takes nothing would never be done.
            Ok(0) => None,
            Ok(count) => return Ok(count),
            Err(reason) => Some(reason),
        };
        self.faults = self.faults.saturating_add(1);
        self.reason = reason;
        Err(PutFault::Failed)
    }

    fn flush(&mut self) -> Result<(), Failed>
        ensures bytes { Keeps (W.contents self.old.inner) (W.contents self.new.inner) }
        ensures cause { HasCause self.old.faults self.new.faults (IsErr result) }

        // The count rises exactly at a fault.
        ensures count { MatchResult result (λ _. self.new.faults ≡ self.old.faults)
            (λ _. self.new.faults ≡ one_more self.old.faults) }
        ensures reason { OnErr result (IsSome self.new.reason) }
    {
        match self.inner.flush() {
            Ok(()) => Ok(()),
            Err(reason) => {
                self.faults = self.faults.saturating_add(1);
                self.reason = Some(reason);
                Err(Failed)
            }
        }
    }
}
