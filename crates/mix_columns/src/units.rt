// A weight times a word, in units of 2^14 words.
//
// A product has at most 124 bits, and of 16,385 that have 110 bits each the sum has less than 128.

ghost use Rattle.std.specs.Prelude.{◌≡◌, ◌*◌, ◌/◌, ◌^◌, ◌≤◌};
ghost use Rattle.std.specs.Int.{div_ceil};

use round_out::ONE;

/// The product, rounded down.
#[inline]
pub(crate) fn floor_units(weight: u64, word: u64) -> u128
    requires weight { weight ≤ ONE }
    requires word { word ≤ ONE }
    ensures value { result ≡ weight * word / 2 ^ 14 }
    ensures small { result ≤ 2 ^ 110 }
{
    (u128::from(weight) * u128::from(word)) >> 14
}

/// The product, rounded up.
#[inline]
pub(crate) fn ceil_units(weight: u64, word: u64) -> u128
    requires weight { weight ≤ ONE }
    requires word { word ≤ ONE }
    ensures value { result ≡ div_ceil (weight * word) (2 ^ 14) }
    ensures small { result ≤ 2 ^ 110 }
{
    // A shift in place of a division.
    (u128::from(weight) * u128::from(word) + 0x3fff) >> 14
}
