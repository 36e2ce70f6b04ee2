// The number of jumps to look at.

ghost use Rattle.std.specs.Prelude.{◌≡◌, ◌<◌, ◌≤◌, MatchOption, IfSome};
ghost use Rattle.ctmc_semantics.specs.Weights.{mode};
ghost use Rattle.ctmc_semantics.specs.Horizon.{horizon};

use crate::load::Load;

/// The greatest number of jumps that is looked at.
pub const MOST_LAYERS: u32 = 16384;

/// The number of jumps to look at: twice the load, rounded up, and `bits` more. None where that is
/// more than `MOST_LAYERS`.
///
/// The Poisson weights past it add up to at most 2^-`bits` of those up to it, so that an average that
/// is cut there lacks at most 2^-`bits` (`ctmc_semantics::tail_is_small`).
pub fn horizon(load: &Load, bits: u32) -> Option<u32>
    ensures value { MatchOption result (MOST_LAYERS < horizon load.now bits) (λ k. k ≡ horizon load.now bits) }
    ensures few { IfSome result (λ k. k ≤ MOST_LAYERS) }
    ensures has_mode { IfSome result (λ k. mode load.now ≤ k) }
    ensures divisor { 0 < load.now.den }
{
    let layers = load.doubled().saturating_add(u128::from(bits));
    if layers > u128::from(MOST_LAYERS) {
        return None;
    }
    Some(layers as u32)
}
