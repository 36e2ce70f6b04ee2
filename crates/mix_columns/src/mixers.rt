// The mixers of all states.

ghost use Rattle.std.specs.Prelude.{◌≡◌, ℕ, suc, ◌<◌, ◌≤◌, List, [], ◌∷◌, ◌++◌, All, EachIndex, IfOk, length};
ghost use Rattle.mix_columns.specs.MixNumbers.{StandsFor};
ghost use Rattle.mix_columns.specs.SideBySide.{AreMixes, mixer_at};
ghost use Rattle.step_core.specs.SoundPlan.{IsSoundPlan};
ghost use Rattle.step_core.specs.WordPairs.{ArePairs, high_of, low_of};

use crate::layer_weights::LayerWeights;
use crate::mixer::Mixer;
use crate::state_sums::StateSums;
use crate::sums::{add_one, add_two};
use round_out::ONE;
use std::alloc::{AllocError, Global};
use std::marker::Model;
use step_core::{Bracket, Mix, Plan, Words};

/// A mixer of each state of a plan, side by side: they take layers of words, one or two at a time.
///
/// What the mixers share is kept once, and both sums of a state lie side by side in the order of the
/// states, so that a layer is read from its start to its end. Of a bounded until nothing but the
/// sums is written: the last pair of words is kept only for an unbounded one. Contracts see the list
/// of the mixers.
#[derive(Debug, Drop)]
pub struct Mixers {
    count: u32,
    sums: Vec<StateSums>,
    last: Vec<Words>,
    low_divisor: u64,
    high_divisor: u64,
    rest: u128,
}

impl Model for Mixers {
    ghost use Rattle.std.specs.Prelude.{◌≡◌, List, length};
    ghost use Rattle.mix_columns.specs.MixNumbers.{MixNumbers};
    ghost use Rattle.mix_columns.specs.SideBySide.{mixers_of};

    ghost Value = { List MixNumbers };

    ghost view = { λ m. mixers_of
        record { count = m.count; low_divisor = m.low_divisor; high_divisor = m.high_divisor; rest = m.rest }
        m.sums.items m.last.items };

    ghost invariant = { λ m. length m.last.items ≡ length m.sums.items };
}

impl Mixers {
    /// A mixer without words for each state.
    ///
    /// The only error is want of memory, and no later call but `finish` takes any.
    pub fn start(alloc: Global, plan: &Plan) -> Result<Mixers, AllocError>
        requires sound { IsSoundPlan plan.now }
        ensures states { IfOk result (λ mixers. length mixers ≡ length plan.now.frame.rows) }
        ensures stand { IfOk result (λ mixers. EachIndex mixers (λ s. StandsFor plan.now (mixer_at mixers s) [] [])) }
    {
        let frame = &plan.frame;
        Mixers::copies(alloc, Mixer::start(plan), frame.rows.len())
    }

    // A copy of the mixer for each state.
    fn copies(alloc: Global, fresh: Mixer, states: usize) -> Result<Mixers, AllocError>
        ensures states { IfOk result (λ mixers. length mixers ≡ states) }
        ensures copies { IfOk result (λ mixers. EachIndex mixers (λ s. mixer_at mixers s ≡ fresh)) }
    {
        let no_sums = StateSums {
            low: fresh.low,
            high: fresh.high,
        };
        let no_words = Words {
            low: fresh.last_low,
            high: fresh.last_high,
        };
        let sums = vec![in alloc; no_sums; states]?;
        let last = vec![in alloc; no_words; states]?;
        Ok(Mixers {
            count: fresh.count,
            sums,
            last,
            low_divisor: fresh.low_divisor,
            high_divisor: fresh.high_divisor,
            rest: fresh.rest,
        })
    }

    /// Each mixer takes its state's words in the next layer.
    pub fn add_layer(&mut self, plan: &Plan, words: &[Words])
        requires sound { IsSoundPlan plan.now }
        requires states { length self.old ≡ length plan.now.frame.rows }
        requires stand { EachIndex self.old (λ s. (xs ys : List ℕ) × StandsFor plan.now (mixer_at self.old s) xs ys) }
        requires room { EachIndex self.old (λ s. (mixer_at self.old s).count ≤ plan.now.layers) }
        requires layer_states { length words.now ≡ length self.old }
        requires pairs { ArePairs words.now }
        ensures states { length self.new ≡ length self.old }
        ensures stand { (s : ℕ) (xs ys : List ℕ) → s < length self.old → StandsFor plan.now (mixer_at self.old s) xs ys
            → StandsFor plan.now (mixer_at self.new s) (xs ++ low_of words.now s ∷ []) (ys ++ high_of words.now s ∷ []) }
    {
        let layer = self.count as usize;
        self.count += 1;
        match &plan.mix {
            Mix::Poisson(weights, _) => {
                let here = LayerWeights::of(weights, layer);
                self.rest -= u128::from(here.high);
                add_one(&mut self.sums, here, words);
            }
            Mix::Last => self.last.copy_from_slice(words),
        }
    }

    /// Each mixer takes its state's words in the next two layers, in one pass over the states.
    pub fn add_two_layers(&mut self, plan: &Plan, first: &[Words], second: &[Words])
        requires sound { IsSoundPlan plan.now }
        requires states { length self.old ≡ length plan.now.frame.rows }
        requires stand { EachIndex self.old (λ s. (xs ys : List ℕ) × StandsFor plan.now (mixer_at self.old s) xs ys) }
        requires room { EachIndex self.old (λ s. (mixer_at self.old s).count < plan.now.layers) }
        requires first_states { length first.now ≡ length self.old }
        requires second_states { length second.now ≡ length self.old }
        requires first_pairs { ArePairs first.now }
        requires second_pairs { ArePairs second.now }
        ensures states { length self.new ≡ length self.old }
        ensures stand { (s : ℕ) (xs ys : List ℕ) → s < length self.old → StandsFor plan.now (mixer_at self.old s) xs ys
            → StandsFor plan.now (mixer_at self.new s) (xs ++ low_of first.now s ∷ [] ++ low_of second.now s ∷ [])
            (ys ++ high_of first.now s ∷ [] ++ high_of second.now s ∷ []) }
    {
        let layer = self.count as usize;
        self.count += 2;
        match &plan.mix {
            Mix::Poisson(weights, _) => {
                let here = LayerWeights::of(weights, layer);
                let next = LayerWeights::of(weights, layer + 1);
                self.rest -= u128::from(here.high) + u128::from(next.high);
                add_two(&mut self.sums, here, first, next, second);
            }
            Mix::Last => self.last.copy_from_slice(second),
        }
    }

    // The number of states.
    fn states(&self) -> usize
        ensures { result ≡ length self.now }
    {
        self.sums.len()
    }

    /// The state's mixer.
    pub fn mixer(&self, state: usize) -> Mixer
        requires { state < length self.now }
        ensures { result ≡ mixer_at self.now state }
    {
        let sums = self.sums[state];
        let last = self.last[state];
        Mixer {
            count: self.count,
            low: sums.low,
            high: sums.high,
            last_low: last.low,
            last_high: last.high,
            low_divisor: self.low_divisor,
            high_divisor: self.high_divisor,
            rest: self.rest,
        }
    }

    /// The brackets of all states, each the mix of the words of all layers, not yet settled.
    ///
    /// The only error is want of memory.
    pub fn finish(self, alloc: Global, plan: &Plan) -> Result<Vec<Bracket>, AllocError>
        requires sound { IsSoundPlan plan.now }
        requires stand { EachIndex self (λ s. (xs ys : List ℕ) × StandsFor plan.now (mixer_at self s) xs ys) }
        requires whole { EachIndex self (λ s. (mixer_at self s).count ≡ suc plan.now.layers) }
        ensures states { IfOk result (λ brackets. length brackets.items ≡ length self) }
        ensures mixes { IfOk result (λ brackets. AreMixes plan.now self brackets.items) }
        ensures lower { IfOk result (λ brackets. All (λ b. b.lower ≤ ONE) brackets.items) }
        ensures upper { IfOk result (λ brackets. All (λ b. b.upper ≤ ONE) brackets.items) }
    {
        let states = self.states();
        let mut brackets = Vec::with_capacity(alloc, states)?;
        for state in 0..states {
            brackets.push(self.mixer(state).finish(plan))?;
        }
        Ok(brackets)
    }
}
