// Files in memory where calls can fail.
ghost use Rattle.std.specs.Prelude.{◌≡◌, [], Some, map, IsErrOf, IfOk, IfErr, IsNone, MatchResult, string_bytes, option_copied};
ghost use Rattle.outside.specs.Causes.{HasCause, one_more, faults_after_take};
ghost use Rattle.outside.specs.Shelf.{FilesState, Takes, Asks, FailsWhere, FailsNext, asked_after, file_named, pairs_of};

use crate::{FILE_LIMIT, Files, TakeFault};
use std::alloc::Global;
use std::marker::Model;

/// Files in memory, where the calls of some numbers fail. A name that isn't there is a fault. The counts of its calls
/// and of its faults saturate.
#[derive(Drop)]
pub struct MemFiles {
    files: Vec<(String, Vec<u8>)>,
    asked: Vec<String>,
    fail: Vec<u64>,
    calls: u64,
    faults: u64,
}

impl Model for MemFiles {
    ghost Value = { FilesState };

    ghost view = { λ s. record { files = pairs_of s.files.items; asked = map string_bytes s.asked.items; fail = s.fail.items; calls = s.calls; faults = s.faults } };
}

impl MemFiles {
    /// The calls of `take` whose numbers, from 1, stand in `fail` will fail. Each call counts, also one for which memory
    /// ran out.
    pub fn new(files: Vec<(String, Vec<u8>)>, fail: Vec<u64>) -> Self
        ensures { result ≡ record { files = pairs_of files.items; asked = []; fail = fail.items; calls = 0; faults = 0 } }
    {
        let alloc = *files.allocator();
        MemFiles {
            files,
            asked: Vec::new(alloc),
            fail,
            calls: 0,
            faults: 0,
        }
    }

    // What the next call answers, where its own memory is at hand.
    fn look_up(&self, alloc: Global, name: &str) -> Result<Vec<u8>, TakeFault>
        ensures bytes { Takes name.now (Some self.now.files) result }
        ensures failed { FailsWhere (FailsNext name.now self.now) result }
    {
        if self.fail.contains(&self.calls.saturating_add(1)) {
            return Err(TakeFault::Failed);
        }
        copy_of(alloc, &self.files, name)
    }
}

impl Files for MemFiles {
    ghost files = { λ s. Some s.files };

    ghost asked = { λ s. s.asked };

    ghost fault_count = { λ s. s.faults };

    fn faults(&self) -> u64 {
        self.faults
    }

    fn take(&mut self, alloc: Global, name: &str) -> Result<Vec<u8>, TakeFault>
        ensures files { Some self.new.files ≡ Some self.old.files }
        ensures asked { Asks name.now result self.old.asked self.new.asked }
        ensures bytes { Takes name.now (Some self.old.files) result }
        ensures cause { HasCause self.old.faults self.new.faults (IsErrOf result TakeFault.Failed) }

        // What it does, exactly.
        ensures failed { FailsWhere (FailsNext name.now self.old) result }
        ensures ok { IfOk result (λ _. self.new ≡ record self.old {
          asked = asked_after name.now result self.old.asked;
          calls = one_more self.old.calls;
        }) }
        ensures err { IfErr result (λ fault. self.new ≡ record self.old {
          asked = asked_after name.now result self.old.asked;
          calls = one_more self.old.calls;
          faults = faults_after_take fault self.old.faults;
        }) }
    {
        let answer = self.look_up(alloc, name);
        self.calls = self.calls.saturating_add(1);
        if answer == Err(TakeFault::Memory) {
            return answer;
        }
        self.asked.push(String::from_str(alloc, name)?)?;
        if answer == Err(TakeFault::Failed) {
            self.faults = self.faults.saturating_add(1);
        }
        answer
    }
}

// The bytes of the first file of that name.
fn find_file<'a>(files: &'a [(String, Vec<u8>)], name: &str) -> Option<&'a [u8]>
    ensures { option_copied result ≡ file_named name.now (pairs_of files.now) }
{
    for (key, bytes) in files {
        if key.as_str() == name {
            return Some(bytes.as_slice());
        }
    }
    None
}

/// What a call that isn't listed answers.
pub(crate) fn copy_of(
    alloc: Global,
    files: &[(String, Vec<u8>)],
    name: &str,
) -> Result<Vec<u8>, TakeFault>
    ensures bytes { Takes name.now (Some (pairs_of files.now)) result }
    ensures failed { FailsWhere (IsNone (file_named name.now (pairs_of files.now))) result }
{
    match find_file(files, name) {
        None => Err(TakeFault::Failed),
        Some(bytes) if bytes.len() > FILE_LIMIT => Err(TakeFault::TooBig),
        Some(bytes) => Ok(bytes.to_vec(alloc)?),
    }
}
