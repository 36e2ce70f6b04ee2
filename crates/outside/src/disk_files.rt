// The files of the system.
ghost use Rattle.std.specs.Prelude.{◌≡◌, ◌<◌, ◌≤◌, [], length, None, IfOk, IfSome, IsErrOf, IsSome, MatchResult};
ghost use Rattle.outside.specs.Causes.{HasCause, faults_after_take};
ghost use Rattle.outside.specs.Shelf.{Takes, Asks};

use crate::{FILE_LIMIT, Files, StdinSource, TakeFault, read_whole};
use std::alloc::Global;
use std::io::Read;
use std::{fs, io, rt};

/// The files of the runtime. It tells nothing of their content. A file is read until 64 MiB and one byte came, so one
/// that grows without end is `TooBig`. Each time a file can't be opened or read is a fault; the count of them
/// saturates. A relative name starts at the process's folder.
#[derive(Drop)]
pub struct DiskFiles<R: rt::Files + Drop> {
    rt: R,
    faults: u64,
    failure: Option<FileFailure>,
}

/// A file that couldn't be opened or read.
#[derive(Debug, Drop)]
pub struct FileFailure {
    name: Option<String>,
    reason: Option<io::Error>,
}

impl FileFailure {
    /// The name that was asked for; None where there was no memory to keep it.
    pub fn name(&self) -> Option<&str> {
        match &self.name {
            Some(name) => Some(name.as_str()),
            None => None,
        }
    }

    /// The system's reason, where it gave one.
    pub fn reason(&self) -> Option<io::Error>
        ensures { result ≡ self.now.reason }
    {
        self.reason
    }
}

impl<R: rt::Files + Drop> DiskFiles<R> {
    /// The files that this runtime reaches, with no fault so far.
    pub fn new(rt: R) -> Self
        ensures { result ≡ record { rt = rt; faults = 0; failure = None } }
    {
        DiskFiles {
            rt,
            faults: 0,
            failure: None,
        }
    }

    /// The last file that couldn't be opened or read; None where none has failed.
    pub fn failure(&self) -> Option<&FileFailure>
        ensures { IsSome result → IsSome self.now.failure }
    {
        self.failure.as_ref()
    }
}

impl<R: rt::Files + Drop> Files for DiskFiles<R> {
    ghost files = { λ _. None };

    ghost asked = { λ _. [] };

    ghost fault_count = { λ s. s.faults };

    fn faults(&self) -> u64 {
        self.faults
    }

    fn take(&mut self, alloc: Global, name: &str) -> Result<Vec<u8>, TakeFault>
        ensures bytes { Takes name.now None result }
        ensures cause { HasCause self.old.faults self.new.faults (IsErrOf result TakeFault.Failed) }

        // The count rises exactly at a fault of the outside.
        ensures count { MatchResult result (λ _. self.new.faults ≡ self.old.faults)
            (λ fault. self.new.faults ≡ faults_after_take fault self.old.faults) }
        ensures failure { IsErrOf result TakeFault.Failed → IsSome self.new.failure }
    {
        let (taken, reason) = match fs::open(&self.rt, name) {
            Ok(file) => read_file(alloc, file),
            Err(reason) => (Err(TakeFault::Failed), Some(reason)),
        };
        if let Err(TakeFault::Failed) = &taken {
            self.faults = self.faults.saturating_add(1);
            let name = String::from_str(alloc, name).ok();
            self.failure = Some(FileFailure { name, reason });
        }
        taken
    }
}

// All bytes of a file, where it has at most 64 MiB, and the reason of the read that failed, where one did.
fn read_file<R: Read + Drop>(
    alloc: Global,
    file: R,
) -> (Result<Vec<u8>, TakeFault>, Option<io::Error>)
    ensures whole { IfOk result.0 (λ bytes. IfSome (R.remaining file) (λ left. bytes.items ≡ left)) }
    ensures within { IfOk result.0 (λ bytes. length bytes.items ≤ FILE_LIMIT) }
    ensures too_big { IsErrOf result.0 TakeFault.TooBig → IfSome (R.remaining file) (λ left. FILE_LIMIT < length left) }
{
    let mut source = StdinSource::new(file);
    let taken = read_whole(alloc, &mut source, FILE_LIMIT);
    (taken, source.reason())
}
