// One step of the weights, away from the mode.

ghost use Rattle.std.specs.Prelude.{◌≡◌, ◌*◌, ◌/◌, ◌^◌, ◌<◌, ◌≤◌};
ghost use Rattle.std.specs.Int.{div_ceil};
ghost use Rattle.ctmc_semantics.specs.RoundedTables.{one_word};

use crate::layers::MOST_LAYERS;

/// The weight of `jumps` jumps from the weight of one jump less, rounded down; `fine` is the load in
/// units of 2^-50. The greatest divisor is 2^64.
pub(crate) fn low_upward(word: u64, fine: u128, jumps: u128) -> u64
    requires word { word ≤ one_word }
    requires jumps { 0 < jumps }
    requires few { jumps ≤ MOST_LAYERS }
    requires past_mode { fine ≤ 2 ^ 50 * jumps }
    ensures { result ≡ word * fine / (2 ^ 50 * jumps) }
{
    (u128::from(word) * fine / (jumps << 50)) as u64
}

/// The weight of `jumps` jumps from the weight of one jump less, rounded up; `fine` is at least the
/// load in units of 2^-50.
pub(crate) fn high_upward(word: u64, fine: u128, jumps: u128) -> u64
    requires word { word ≤ one_word }
    requires jumps { 0 < jumps }
    requires few { jumps ≤ MOST_LAYERS }
    requires past_mode { fine ≤ 2 ^ 50 * jumps }
    ensures { result ≡ div_ceil (word * fine) (2 ^ 50 * jumps) }
{
    (u128::from(word) * fine).div_ceil(jumps << 50) as u64
}

/// The weight of one jump less than `jumps` from the weight of `jumps` jumps, rounded down; `fine` is
/// at least the load in units of 2^-50.
pub(crate) fn low_downward(word: u64, fine: u128, jumps: u128) -> u64
    requires word { word ≤ one_word }
    requires few { jumps ≤ MOST_LAYERS }
    requires positive { 0 < fine }
    requires to_mode { jumps * 2 ^ 50 ≤ fine }
    ensures { result ≡ word * jumps * 2 ^ 50 / fine }
{
    (u128::from(word) * jumps * (1 << 50) / fine) as u64
}

/// The weight of one jump less than `jumps` from the weight of `jumps` jumps, rounded up; `fine` is the
/// load in units of 2^-50.
pub(crate) fn high_downward(word: u64, fine: u128, jumps: u128) -> u64
    requires word { word ≤ one_word }
    requires few { jumps ≤ MOST_LAYERS }
    requires positive { 0 < fine }
    requires to_mode { jumps * 2 ^ 50 ≤ fine }
    ensures { result ≡ div_ceil (word * jumps * 2 ^ 50) fine }
{
    (u128::from(word) * jumps * (1 << 50)).div_ceil(fine) as u64
}
