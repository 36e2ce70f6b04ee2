ghost use Rattle.std.specs.Prelude.{◌≡◌, ◌*◌, ◌^◌, ◌<◌, ◌≤◌, All, length};

use crate::scale::scaled;
use round_out::Entry;

/// A row of `N` entries, side by side in memory, and the place of its state.
#[derive(Clone, Copy, Debug)]
pub(crate) struct FlatRow<const N: usize> {
    pub place: u32,
    pub entries: [Entry; N],
}

impl<const N: usize> FlatRow<N> {
    ghost use Rattle.flat_rows.specs.Fractions.{scaled_entries};

    /// The row of the entries, their numbers moved by the shift.
    pub fn scaled(place: u32, entries: &[Entry], shift: u32) -> FlatRow<N>
        requires entries { length entries.now ≡ N }
        requires few { shift ≤ 62 }
        requires fits { All (λ e. e.num * 2 ^ shift < 2 ^ 64) entries.now }
        ensures place { result.place ≡ place }
        ensures entries { result.entries ≡ scaled_entries (2 ^ shift) entries.now }
    {
        let mut moved = [Entry { to: 0, num: 0 }; N];
        for at in 0..N {
            moved[at] = scaled(entries[at], shift);
        }
        FlatRow {
            place,
            entries: moved,
        }
    }
}
