// A stream of bytes that is written, with a count of its faults.
ghost use Rattle.std.specs.Prelude.{◌≡◌, ℕ, ◌<◌, ◌≤◌, List, length, Option, IfOk, OnOk, OnErr, IsErr, IsErrOf, IfSome};
ghost use Rattle.std.specs.Io.KnownBytes.{WriteAppends, Keeps};
ghost use Rattle.outside.specs.Causes.{HasCause};
ghost use Rattle.outside.specs.Whole.{AllFlushed};

use crate::{Failed, PutFault};

/// A stream of bytes that is written.
pub trait Sink {
    /// The bytes written so far, where the sink tells them.
    ghost written: { Self → Option (List ℕ) };

    /// How many of them are flushed, where it tells that.
    ghost flushed: { Self → Option ℕ };

    /// How often a call has failed.
    ghost fault_count: { Self → ℕ };

    /// How often a call has failed. The count never falls, and stays at its last value.
    fn faults(&self) -> u64
        ensures { result ≡ fault_count self.now };

    /// Takes a front of the piece, of at least one byte, and answers how many bytes that are. `Failed` comes where the
    /// outside takes none, and `Memory` where the sink keeps the bytes and there is no memory for them.
    fn write(&mut self, piece: &[u8]) -> Result<usize, PutFault>
        requires { 0 < length piece.now }
        ensures some { IfOk result (λ count. 0 < count) }
        ensures most { IfOk result (λ count. count ≤ length piece.now) }
        ensures bytes { WriteAppends (written self.old) (written self.new) result piece.now }
        ensures flushed { flushed self.new ≡ flushed self.old }
        ensures cause { HasCause (fault_count self.old) (fault_count self.new) (IsErrOf result PutFault.Failed) };

    /// Hands on what was written so far. `Failed` comes where the outside doesn't take it.
    fn flush(&mut self) -> Result<(), Failed>
        ensures bytes { Keeps (written self.old) (written self.new) }
        ensures flushed { OnOk result (AllFlushed (written self.new) (flushed self.new)) }
        ensures err { OnErr result (flushed self.new ≡ flushed self.old) }
        ensures cause { HasCause (fault_count self.old) (fault_count self.new) (IsErr result) };
}
