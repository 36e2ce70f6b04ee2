// A stream of bytes that is read, with a count of its faults.
ghost use Rattle.std.specs.Prelude.{◌≡◌, ℕ, ◌<◌, List, length, Option, IsErr};
ghost use Rattle.std.specs.Io.{ReadsAtMost};
ghost use Rattle.std.specs.Io.KnownBytes.{ReadConsumes};
ghost use Rattle.outside.specs.Causes.{HasCause};

use crate::Failed;

/// A stream of bytes that is read.
pub trait Source {
    /// The bytes that reads will give from here on, where the source tells them.
    ghost left: { Self → Option (List ℕ) };

    /// How often a call has failed.
    ghost fault_count: { Self → ℕ };

    /// How often a call has failed. The count never falls, and stays at its last value.
    fn faults(&self) -> u64
        ensures { result ≡ fault_count self.now };

    /// Gives the front of what is left, and how many bytes that are. 0 means the end. `Failed` comes where the outside
    /// can't give them: nothing is taken then, and what the buffer holds is left open.
    fn read(&mut self, buf: &mut [u8]) -> Result<usize, Failed>
        requires { 0 < length buf.old }
        ensures bound { ReadsAtMost result buf.new }
        ensures bytes { ReadConsumes (left self.old) (left self.new) result buf.new }
        ensures cause { HasCause (fault_count self.old) (fault_count self.new) (IsErr result) };
}
