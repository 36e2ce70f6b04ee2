// Files that are taken whole, by their names, with a count of the faults.
ghost use Rattle.std.specs.Prelude.{◌≡◌, ℕ, List, Option, IfSome, IsErrOf};
ghost use Rattle.outside.specs.Causes.{HasCause};
ghost use Rattle.outside.specs.Shelf.{Pair, Takes, Asks};

use crate::TakeFault;
use std::alloc::Global;

/// The greatest number of bytes of a file that is taken: 64 MiB.
pub const FILE_LIMIT: usize = 67_108_864;

/// A place that gives files by their names.
pub trait Files {
    /// The pairs of a name and its bytes, where the object tells them.
    ghost files: { Self → Option (List Pair) };

    /// The names asked for so far, where it tells.
    ghost asked: { Self → List (List ℕ) };

    /// How often a call has failed.
    ghost fault_count: { Self → ℕ };

    /// How often a call has failed. The count never falls, and stays at its last value.
    fn faults(&self) -> u64
        ensures { result ≡ fault_count self.now };

    /// The bytes of the first file of that name. `TooBig` comes where it has more than 64 MiB, `Failed` where it isn't
    /// there or the outside can't give it, and `Memory` where there is no memory for its bytes or for the name.
    fn take(&mut self, alloc: Global, name: &str) -> Result<Vec<u8>, TakeFault>
        ensures files { files self.new ≡ files self.old }
        ensures asked { IfSome (files self.old) (λ _. Asks name.now result (asked self.old) (asked self.new)) }
        ensures bytes { Takes name.now (files self.old) result }
        ensures cause { HasCause (fault_count self.old) (fault_count self.new) (IsErrOf result TakeFault.Failed) };
}
