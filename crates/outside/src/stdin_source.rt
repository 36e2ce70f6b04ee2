// A reader as a source.
ghost use Rattle.std.specs.Prelude.{◌≡◌, ◌<◌, None, length, IsErr, IsSome, OnErr, MatchResult};
ghost use Rattle.std.specs.Io.{ReadsAtMost};
ghost use Rattle.std.specs.Io.KnownBytes.{ReadConsumes};
ghost use Rattle.outside.specs.Causes.{HasCause, one_more};

use crate::{Failed, Source};
use std::io;
use std::io::Read;

/// A reader as a source: standard input, or an open file. It tells of the bytes what its reader tells, and of those of
/// the system that is nothing. Each read that fails is a fault, one that is interrupted too; the count of them
/// saturates.
#[derive(Drop)]
pub struct StdinSource<R: Read> {
    inner: R,
    faults: u64,
    reason: Option<io::Error>,
}

impl<R: Read> StdinSource<R> {
    /// The bytes of this reader, with no fault so far.
    pub fn new(inner: R) -> Self
        ensures { result ≡ record { inner = inner; faults = 0; reason = None } }
    {
        StdinSource {
            inner,
            faults: 0,
            reason: None,
        }
    }

    /// Why the last call that failed did so, as the reader says it; None where none has failed.
    pub fn reason(&self) -> Option<io::Error>
        ensures { result ≡ self.now.reason }
    {
        self.reason
    }
}

impl<R: Read> Source for StdinSource<R> {
    ghost left = { λ s. R.remaining s.inner };

    ghost fault_count = { λ s. s.faults };

    fn faults(&self) -> u64 {
        self.faults
    }

    fn read(&mut self, buf: &mut [u8]) -> Result<usize, Failed>
        requires { 0 < length buf.old }
        ensures bound { ReadsAtMost result buf.new }
        ensures bytes { ReadConsumes (R.remaining self.old.inner) (R.remaining self.new.inner) result buf.new }
        ensures cause { HasCause self.old.faults self.new.faults (IsErr result) }

        // The count rises exactly at a fault.
        ensures count { MatchResult result (λ _. self.new.faults ≡ self.old.faults)
            (λ _. self.new.faults ≡ one_more self.old.faults) }
        ensures reason { OnErr result (IsSome self.new.reason) }
    {
        match self.inner.read(buf) {
            Ok(count) => Ok(count),
            Err(reason) => {
                self.faults = self.faults.saturating_add(1);
                self.reason = Some(reason);
                Err(Failed)
            }
        }
    }
}
