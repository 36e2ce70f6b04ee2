/// Why a word was refused as a number.
///
/// They are tried in this order, so a number that is both too fine and too big is `TooFine`. In a
/// refusal each is written by its name: `NotNumber`, `TooFine` or `TooBig`.
#[derive(Clone, Copy, Debug, PartialEq, Eq)]
pub enum NumberFault {
    /// The word isn't in the grammar of numbers, as `-1`, `1e`, `.`, `1.2.3` and `nan`.
    NotNumber,
    /// The number, in normal form, has more than 18 decimals, as `1e-19`.
    TooFine,
    /// The number has 18 decimals or fewer, and its digits without the point are `10^18` or more,
    /// as `1e18` and `1000000000000000000.5`.
    TooBig,
}
