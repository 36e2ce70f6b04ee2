// The sums of weights, and the bracket that sums of products make over them.

ghost use Rattle.std.specs.Prelude.{◌≡◌, suc, ◌+◌, ◌-◌, ◌*◌, ◌/◌, ◌^◌, ◌<◌, ◌≤◌, All, length, min, slice_index};
ghost use Rattle.std.specs.Int.{div_ceil};
ghost use Rattle.ctmc_semantics.specs.Sum.{sum_below};
ghost use Rattle.mix_columns.specs.MixNumbers.{low_weights, high_weights};
ghost use Rattle.step_core.specs.SoundPlan.{IsSoundPlan};

use round_out::ONE;
use step_core::{Bracket, Mix, Plan};

// The sum of the weights of all layers.
fn sum(weights: &[u64]) -> u128
    requires few { length weights.now ≤ 16385 }
    requires at_most_one { All (λ w. w ≤ ONE) weights.now }
    ensures value { result ≡ sum_below (length weights.now) (slice_index weights.now) }
    ensures small { result ≤ 16385 * 2 ^ 62 }
{
    let mut sum: u128 = 0;
    for weight in weights {
        sum += u128::from(*weight);
    }
    sum
}

/// The sums of the plan's low and of its high weights, both 0 where it has none.
pub(crate) fn weight_sums(plan: &Plan) -> (u128, u128)
    requires sound { IsSoundPlan plan.now }
    ensures low { result.0 ≡ low_weights plan.now.mix (suc plan.now.layers) }
    ensures high { result.1 ≡ high_weights plan.now.mix (suc plan.now.layers) }
    ensures low_small { result.0 ≤ 16385 * 2 ^ 62 }
    ensures high_small { result.1 ≤ 16385 * 2 ^ 62 }
{
    match &plan.mix {
        Mix::Poisson(weights, _) => (sum(&weights.low), sum(&weights.high)),
        Mix::Last => (0, 0),
    }
}

/// The bracket of the two sums over their divisors, and `2^-bits` more for what lies past the last
/// layer.
pub(crate) fn quotient_bracket(
    low: u128,
    high: u128,
    low_divisor: u64,
    high_divisor: u64,
    bits: u32,
) -> Bracket
    requires low_divisor { 0 < low_divisor }
    requires high_divisor { 0 < high_divisor }
    requires at_most_one { low / low_divisor ≤ ONE }
    requires small { high ≤ 16385 * 2 ^ 110 }
    requires bits { bits ≤ 48 }
    ensures lower { result.lower ≡ low / low_divisor }
    ensures upper { result.upper ≡ min ONE (div_ceil high high_divisor + 2 ^ (62 - bits)) }
{
    let upper = high.div_ceil(u128::from(high_divisor)) + (1u128 << (62 - bits));
    Bracket {
        lower: (low / u128::from(low_divisor)) as u64,
        upper: upper.min(u128::from(ONE)) as u64,
    }
}
