// One state's mix in the making.

ghost use Rattle.std.specs.Prelude.{◌≡◌, ℕ, suc, ◌≤◌, List, [], ◌∷◌, ◌++◌};
ghost use Rattle.mix_columns.specs.Mixed.{rest_mix, whole_mix, words_of};
ghost use Rattle.mix_columns.specs.MixNumbers.{StandsFor};
ghost use Rattle.step_core.specs.SoundPlan.{IsSoundPlan};

use crate::quotients::{quotient_bracket, weight_sums};
use crate::units::{ceil_units, floor_units};
use round_out::ONE;
use std::marker::Model;
use step_core::{Bracket, Mix, Plan};

/// A state's mix in the making: it takes the state's lower and upper words a layer at a time.
///
/// All that it keeps are numbers, and it stands for a plan and the words that it took: contracts see
/// the numbers, and `StandsFor` says which words they are of. A fresh one serves every state of its
/// plan, as a copy.
#[derive(Clone, Copy, Debug)]
pub struct Mixer {
    pub(crate) count: u32,
    pub(crate) low: u128,
    pub(crate) high: u128,
    pub(crate) last_low: u64,
    pub(crate) last_high: u64,
    pub(crate) low_divisor: u64,
    pub(crate) high_divisor: u64,
    pub(crate) rest: u128,
}

impl Model for Mixer {
    ghost use Rattle.mix_columns.specs.MixNumbers.{MixNumbers};

    ghost Value = { MixNumbers };

    ghost view = { λ m. record {
      count = m.count;
      low = m.low;
      high = m.high;
      last_low = m.last_low;
      last_high = m.last_high;
      low_divisor = m.low_divisor;
      high_divisor = m.high_divisor;
      rest = m.rest;
    } };

    ghost inverse = { λ m. record {
      count = m.count;
      low = m.low;
      high = m.high;
      last_low = m.last_low;
      last_high = m.last_high;
      low_divisor = m.low_divisor;
      high_divisor = m.high_divisor;
      rest = m.rest;
    } };
}

impl Mixer {
    /// A mixer without words.
    pub fn start(plan: &Plan) -> Mixer
        requires sound { IsSoundPlan plan.now }
        ensures { StandsFor plan.now result [] [] }
    {
        let (low_total, high_total) = weight_sums(plan);
        Mixer {
            count: 0,
            low: 0,
            high: 0,
            last_low: 0,
            last_high: ONE,
            low_divisor: high_total.div_ceil(1 << 14) as u64,
            high_divisor: (low_total >> 14) as u64,
            rest: high_total,
        }
    }

    /// Takes the state's lower and upper word in the next layer.
    pub fn add(&mut self, plan: &Plan, low: u64, high: u64)
        requires sound { IsSoundPlan plan.now }
        requires stands { (xs ys : List ℕ) × StandsFor plan.now self.old xs ys }
        requires room { self.old.count ≤ plan.now.layers }
        requires low { low ≤ ONE }
        requires high { high ≤ ONE }
        ensures { (xs ys : List ℕ) → StandsFor plan.now self.old xs ys
            → StandsFor plan.now self.new (xs ++ low ∷ []) (ys ++ high ∷ []) }
    {
        if let Mix::Poisson(weights, _) = &plan.mix {
            let layer = self.count as usize;
            let high_weight = weights.high[layer];
            self.low += floor_units(weights.low[layer], low);
            self.high += ceil_units(high_weight, high);
            self.rest -= u128::from(high_weight);
        }
        self.last_low = low;
        self.last_high = high;
        self.count += 1;
    }

    /// The mix of the words of all layers.
    pub fn finish(self, plan: &Plan) -> Bracket
        requires sound { IsSoundPlan plan.now }
        requires stands { (xs ys : List ℕ) × StandsFor plan.now self xs ys }
        requires whole { self.count ≡ suc plan.now.layers }
        ensures mix { (xs ys : List ℕ) → StandsFor plan.now self xs ys → words_of result ≡ whole_mix plan.now xs ys }
        ensures lower { result.lower ≤ ONE }
        ensures upper { result.upper ≤ ONE }
    {
        match &plan.mix {
            Mix::Poisson(_, bits) => quotient_bracket(
                self.low,
                self.high,
                self.low_divisor,
                self.high_divisor,
                *bits,
            ),
            Mix::Last => Bracket {
                lower: self.last_low,
                upper: self.last_high,
            },
        }
    }

    /// The mix with each missing lower word taken as 0, and each missing upper one as 1.
    pub fn rest(&self, plan: &Plan) -> Bracket
        requires sound { IsSoundPlan plan.now }
        requires stands { (xs ys : List ℕ) × StandsFor plan.now self.now xs ys }
        ensures mix { (xs ys : List ℕ) → StandsFor plan.now self.now xs ys → words_of result ≡ rest_mix plan.now xs ys }
        ensures lower { result.lower ≤ ONE }
        ensures upper { result.upper ≤ ONE }
    {
        match &plan.mix {
            // A weight times 1 is 2^48 times the weight, in units of 2^14 words.
            Mix::Poisson(_, bits) => quotient_bracket(
                self.low,
                self.high + self.rest * (1 << 48),
                self.low_divisor,
                self.high_divisor,
                *bits,
            ),
            Mix::Last if self.count > plan.layers => Bracket {
                lower: self.last_low,
                upper: self.last_high,
            },
            Mix::Last => Bracket {
                lower: 0,
                upper: ONE,
            },
        }
    }
}
