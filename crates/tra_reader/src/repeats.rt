// Pairs of states that stand on two lines.
ghost use Rattle.std.specs.Prelude.{◌≡◌, ◌^◌, ◌<◌, ◌≤◌, length, map, IfOk, IsTrue};
ghost use Rattle.std.specs.List.Sorted.{IsStrictlyIncreasing};
ghost use Rattle.tra_reader.specs.Repeats.{number_of, AreKeys, IsLeastMark, IsFirstRepeated};

use crate::entry::Pair;
use model_core::MOST_TRANSITIONS;
use std::alloc::{AllocError, Global};
use text_lines::EntryLine;

// More than any entry's place.
const PLACES: u64 = 1 << 20;

/// The place of the first entry that is between the states of an earlier one, or how many entries there are where none
/// is. Where the pairs ascend nothing is sorted.
pub(crate) fn first_repeated(
    alloc: Global,
    entries: &[EntryLine<Pair>],
) -> Result<usize, AllocError>
    requires { length entries.now ≤ MOST_TRANSITIONS }
    ensures { IfOk result (λ place. IsFirstRepeated entries.now place) }
{
    if is_ascending(entries) {
        return Ok(entries.len());
    }
    let mut keys = keys_of(alloc, entries)?;
    keys.sort_unstable();
    Ok(least_mark(&keys))
}

// The number of the entry's pair of states.
fn number_of(entry: &EntryLine<Pair>) -> u64
    ensures number { result ≡ number_of entry.now }
    ensures small { result < 2 ^ 32 }
{
    let Pair { from, to } = entry.key;
    u64::from(from) * 65_536 + u64::from(to)
}

// Whether each pair's number is below the next one's.
fn is_ascending(entries: &[EntryLine<Pair>]) -> bool
    ensures { IsTrue result → IsStrictlyIncreasing (map number_of entries.now) }
{
    for i in 1..entries.len() {
        if number_of(&entries[i]) <= number_of(&entries[i - 1]) {
            return false;
        }
    }
    true
}

// The number of each entry's pair with its place below it.
fn keys_of(alloc: Global, entries: &[EntryLine<Pair>]) -> Result<Vec<u64>, AllocError>
    requires { length entries.now ≤ MOST_TRANSITIONS }
    ensures { IfOk result (λ keys. AreKeys (map number_of entries.now) keys.items) }
{
    let mut keys = Vec::with_capacity(alloc, entries.len())?;
    for (place, entry) in entries.iter().enumerate() {
        keys.push(number_of(entry) * PLACES + place as u64)?;
    }
    Ok(keys)
}

// The least place of a key whose pair is that of the key before it, or how many keys there are.
fn least_mark(keys: &[u64]) -> usize
    ensures { IsLeastMark keys.now result }
{
    let mut least = keys.len();
    for k in 1..keys.len() {
        if keys[k - 1] / PLACES == keys[k] / PLACES {
            least = least.min((keys[k] % PLACES) as usize);
        }
    }
    least
}
