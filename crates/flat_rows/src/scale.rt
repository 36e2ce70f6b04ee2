// Rows whose numbers are multiplied by a power of two, so that their divisor has 63 bits.

ghost use Rattle.std.specs.Prelude.{◌≡◌, ◌*◌, ◌^◌, ◌<◌, ◌≤◌, ◌++◌, All, OnOk, length};
ghost use Rattle.flat_rows.specs.Fractions.{scaled_entry, scaled_entries};

use round_out::Entry;
use std::alloc::AllocError;

/// By how many bits numbers are moved so that the divisor has 63 bits.
pub(crate) fn shift_of(den: u64) -> u32
    requires positive { 0 < den }
    requires fits { den < 2 ^ 63 }
    ensures full { 2 ^ 62 ≤ den * 2 ^ result }
    ensures fits { den * 2 ^ result < 2 ^ 63 }
    ensures few { result ≤ 62 }
{
    62 - den.ilog2()
}

/// The divisor moved.
pub(crate) fn scaled_den(den: u64, shift: u32) -> u64
    requires few { shift ≤ 62 }
    requires fits { den * 2 ^ shift < 2 ^ 63 }
    ensures { result ≡ den * 2 ^ shift }
{
    den << shift
}

/// The entry with its number moved.
#[inline]
pub(crate) fn scaled(entry: Entry, shift: u32) -> Entry
    requires few { shift ≤ 62 }
    requires fits { entry.num * 2 ^ shift < 2 ^ 64 }
    ensures { result ≡ scaled_entry (2 ^ shift) entry }
{
    Entry {
        to: entry.to,
        num: entry.num << shift,
    }
}

/// Adds the entries with their numbers moved.
pub(crate) fn push_scaled(
    all: &mut Vec<Entry>,
    entries: &[Entry],
    shift: u32,
) -> Result<(), AllocError>
    requires few { shift ≤ 62 }
    requires fits { All (λ e. e.num * 2 ^ shift < 2 ^ 64) entries.now }
    ensures items { OnOk result (all.new.items ≡ all.old.items ++ scaled_entries (2 ^ shift) entries.now) }
    ensures grows { length all.old.items ≤ length all.new.items }
{
    for entry in entries {
        all.push(scaled(*entry, shift))?;
    }
    Ok(())
}
