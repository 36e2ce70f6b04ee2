// Files in memory that are always at hand.
ghost use Rattle.std.specs.Prelude.{◌≡◌, ◌-◌, ◌^◌, [], Some, min, map, IsErrOf, IsNone, string_bytes};
ghost use Rattle.outside.specs.Causes.{HasCause};
ghost use Rattle.outside.specs.Shelf.{SureFilesState, Takes, Asks, FailsWhere, file_named, pairs_of, missing_count};

use crate::memory_files::copy_of;
use crate::{Files, TakeFault};
use std::alloc::Global;
use std::marker::Model;

/// Files in memory that are always at hand. A name that isn't there is a fault. The count of faults is the number of
/// those that were asked for, and saturates.
#[derive(Drop)]
pub struct SureFiles {
    files: Vec<(String, Vec<u8>)>,
    asked: Vec<String>,
    missing: u64,
}

impl Model for SureFiles {
    ghost Value = { SureFilesState };

    ghost view = { λ s. record { files = pairs_of s.files.items; asked = map string_bytes s.asked.items } };

    ghost invariant = { λ s. s.missing ≡ min (missing_count (pairs_of s.files.items) (map string_bytes s.asked.items)) (2 ^ 64 - 1) };
}

impl SureFiles {
    /// No name is asked for so far.
    pub fn new(files: Vec<(String, Vec<u8>)>) -> Self
        ensures { result ≡ record { files = pairs_of files.items; asked = [] } }
    {
        let alloc = *files.allocator();
        SureFiles {
            files,
            asked: Vec::new(alloc),
            missing: 0,
        }
    }
}

impl Files for SureFiles {
    ghost files = { λ s. Some s.files };

    ghost asked = { λ s. s.asked };

    ghost fault_count = { λ s. min (missing_count s.files s.asked) (2 ^ 64 - 1) };

    fn faults(&self) -> u64 {
        self.missing
    }

    fn take(&mut self, alloc: Global, name: &str) -> Result<Vec<u8>, TakeFault>
        ensures files { Some self.new.files ≡ Some self.old.files }
        ensures asked { Asks name.now result self.old.asked self.new.asked }
        ensures bytes { Takes name.now (Some self.old.files) result }
        ensures cause { HasCause (min (missing_count self.old.files self.old.asked) (2 ^ 64 - 1))
            (min (missing_count self.new.files self.new.asked) (2 ^ 64 - 1)) (IsErrOf result TakeFault.Failed) }

        // It fails exactly where the file isn't there, unless memory runs out.
        ensures failed { FailsWhere (IsNone (file_named name.now self.old.files)) result }
    {
        let answer = copy_of(alloc, &self.files, name);
        if answer == Err(TakeFault::Memory) {
            return answer;
        }
        self.asked.push(String::from_str(alloc, name)?)?;
        if answer == Err(TakeFault::Failed) {
            self.missing = self.missing.saturating_add(1);
        }
        answer
    }
}
