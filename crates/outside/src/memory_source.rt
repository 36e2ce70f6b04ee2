// A source in memory whose calls can fail.
ghost use Rattle.std.specs.Prelude.{◌≡◌, ◌<◌, ◌≤◌, ◌↔◌, ◌++◌, List, [], Some, min, length, drop, take, Contains, IfOk, OnErr, IsErr};
ghost use Rattle.std.specs.Io.{ReadsAtMost};
ghost use Rattle.std.specs.Io.KnownBytes.{ReadConsumes};
ghost use Rattle.outside.specs.Causes.{HasCause, one_more};
ghost use Rattle.outside.specs.Memory.{SourceState, moved_count};

use crate::{Failed, Source};
use std::marker::Model;

/// A source in memory whose calls of some numbers fail. The counts of its calls and of its faults saturate.
#[derive(Drop)]
pub struct MemSource {
    bytes: Vec<u8>,
    taken: usize,
    fail: Vec<u64>,
    cut: usize,
    calls: u64,
    faults: u64,
}

impl Model for MemSource {
    ghost Value = { SourceState };

    ghost view = { λ s. record { left = drop s.taken s.bytes.items; fail = s.fail.items; cut = s.cut; calls = s.calls; faults = s.faults } };

    ghost invariant = { λ s. s.taken ≤ length s.bytes.items };
}

impl MemSource {
    /// The calls of `read` whose numbers, from 1, stand in `fail` will fail. A call gives at most `cut` bytes, where
    /// that isn't 0.
    pub fn new(bytes: Vec<u8>, fail: Vec<u64>, cut: usize) -> Self
        ensures { result ≡ record { left = bytes.items; fail = fail.items; cut = cut; calls = 0; faults = 0 } }
    {
        MemSource {
            bytes,
            taken: 0,
            fail,
            cut,
            calls: 0,
            faults: 0,
        }
    }
}

impl Source for MemSource {
    ghost left = { λ s. Some s.left };

    ghost fault_count = { λ s. s.faults };

    fn faults(&self) -> u64 {
        self.faults
    }

    fn read(&mut self, buf: &mut [u8]) -> Result<usize, Failed>
        requires { 0 < length buf.old }
        ensures bound { ReadsAtMost result buf.new }
        ensures bytes { ReadConsumes (Some self.old.left) (Some self.new.left) result buf.new }
        ensures cause { HasCause self.old.faults self.new.faults (IsErr result) }

        // What it does, exactly.
        ensures failed { IsErr result ↔ Contains self.old.fail (one_more self.old.calls) }
        ensures count { IfOk result
            (λ count. count ≡ moved_count (min (length self.old.left) (length buf.old)) self.old.cut) }
        ensures buffer { IfOk result (λ count. buf.new ≡ take count self.old.left ++ drop count buf.old) }
        ensures ok { IfOk result (λ count. self.new ≡ record self.old {
          left = drop count self.old.left;
          calls = one_more self.old.calls;
        }) }
        ensures err { OnErr result (self.new ≡ record self.old {
          calls = one_more self.old.calls;
          faults = one_more self.old.faults;
        }) }
        ensures buffer_on_err { OnErr result (buf.new ≡ buf.old) }
    {
        self.calls = self.calls.saturating_add(1);
        if self.fail.contains(&self.calls) {
            self.faults = self.faults.saturating_add(1);
            return Err(Failed);
        }
        let count = give(&self.bytes[self.taken..], buf, self.cut);
        self.taken += count;
        Ok(count)
    }
}

/// How many bytes a call moves of `count`, where it moves at most `cut` if that isn't 0.
pub(crate) fn cut_to(count: usize, cut: usize) -> usize
    ensures { result ≡ moved_count count cut }
{
    if cut == 0 { count } else { count.min(cut) }
}

/// Copies the front of `left` into `buf`, and answers how many bytes of it.
pub(crate) fn give(left: &[u8], buf: &mut [u8], cut: usize) -> usize
    ensures count { result ≡ moved_count (min (length left.now) (length buf.old)) cut }
    ensures most { result ≤ length left.now }
    ensures room { result ≤ length buf.new }
    ensures bytes { buf.new ≡ take result left.now ++ drop result buf.old }
    ensures front { left.now ≡ take result buf.new ++ drop result left.now }
    ensures end { result ≡ 0 → 0 < length buf.new → drop result left.now ≡ [] }
{
    let count = cut_to(left.len().min(buf.len()), cut);
    buf[..count].copy_from_slice(&left[..count]);
    count
}
