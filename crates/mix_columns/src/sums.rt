// The running sums of all states, one or two layers at a time.

ghost use Rattle.std.specs.Prelude.{◌≡◌, ◌+◌, ◌*◌, ◌^◌, ◌≤◌, EachIndex, length};
ghost use Rattle.mix_columns.specs.LayerSums.{HaveRoom, sums_at, weighted_sums};
ghost use Rattle.step_core.specs.WordPairs.{ArePairs, words_at};

use crate::layer_weights::LayerWeights;
use crate::state_sums::StateSums;
use crate::units::{ceil_units, floor_units};
use round_out::ONE;
use step_core::Words;

/// The sums with a layer's words of the state added.
#[inline]
fn with_words(sums: StateSums, weights: LayerWeights, words: Words) -> StateSums
    requires low_weight { weights.low ≤ ONE }
    requires high_weight { weights.high ≤ ONE }
    requires low_word { words.low ≤ ONE }
    requires high_word { words.high ≤ ONE }
    requires low_room { sums.low ≤ 16386 * 2 ^ 110 }
    requires high_room { sums.high ≤ 16386 * 2 ^ 110 }
    ensures value { result ≡ weighted_sums sums weights words }
    ensures low_grows { result.low ≤ sums.low + 2 ^ 110 }
    ensures high_grows { result.high ≤ sums.high + 2 ^ 110 }
{
    StateSums {
        low: sums.low + floor_units(weights.low, words.low),
        high: sums.high + ceil_units(weights.high, words.high),
    }
}

/// Adds a layer into the states' sums.
pub(crate) fn add_one(sums: &mut [StateSums], weights: LayerWeights, words: &[Words])
    requires states { length words.now ≡ length sums.old }
    requires low_weight { weights.low ≤ ONE }
    requires high_weight { weights.high ≤ ONE }
    requires words { ArePairs words.now }
    requires room { HaveRoom sums.old }
    ensures { EachIndex sums.new (λ s. sums_at sums.new s ≡ weighted_sums (sums_at sums.old s) weights (words_at words.now s)) }
{
    for state in 0..sums.len() {
        sums[state] = with_words(sums[state], weights, words[state]);
    }
}

/// Adds two layers into the states' sums, in one pass over them.
pub(crate) fn add_two(
    sums: &mut [StateSums],
    first_weights: LayerWeights,
    first: &[Words],
    second_weights: LayerWeights,
    second: &[Words],
)
    requires first_states { length first.now ≡ length sums.old }
    requires second_states { length second.now ≡ length sums.old }
    requires first_low { first_weights.low ≤ ONE }
    requires first_high { first_weights.high ≤ ONE }
    requires second_low { second_weights.low ≤ ONE }
    requires second_high { second_weights.high ≤ ONE }
    requires first_words { ArePairs first.now }
    requires second_words { ArePairs second.now }
    requires room { HaveRoom sums.old }
    ensures { EachIndex sums.new (λ s. sums_at sums.new s
        ≡ weighted_sums (weighted_sums (sums_at sums.old s) first_weights (words_at first.now s)) second_weights (words_at second.now s)) }
{
    for state in 0..sums.len() {
        let once = with_words(sums[state], first_weights, first[state]);
        sums[state] = with_words(once, second_weights, second[state]);
    }
}
