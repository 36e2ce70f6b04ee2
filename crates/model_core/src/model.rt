// A model, and what can be asked of it.
ghost use Rattle.std.specs.Prelude.{◌≡◌, ℕ, ◌+◌, ◌^◌, ◌<◌, ◌≤◌, Bool, length, map, sum_by, slice_index, All, IfOk, IfSome, IsSome, IsTrue, ◌↔◌, MatchOption, IsPermutation};
ghost use Rattle.std.specs.Option.{ForSome};
ghost use Rattle.std.specs.List.Sorted.{IsNonDecreasingBy, IsStrictlyIncreasing};
ghost use Rattle.ctmc_semantics.specs.Chain.{exit_rate};
ghost use Rattle.ctmc_semantics.specs.Next.{rate_into};
ghost use Rattle.model_core.specs.Pairs.{pair_number};
ghost use Rattle.model_core.specs.Transitions.{chain_of, rate_between, row_of, sum_into, count_before, AreRowStarts};
ghost use Rattle.model_core.specs.Files.{IsTransition};
ghost use Rattle.model_core.specs.Model.{ModelLists, IsModel, IsBuiltOf, HasRowStarts, has_label};

use crate::limits::{AMOUNT_LIMIT, MOST_LABELS, MOST_STATES};
use crate::rate::pair_number;
use crate::{Lab, Rate, Rew, Tra};
use std::alloc::{AllocError, Global};
use std::marker;
use text_lines::Name;

/// A chain with labels and perhaps rewards. States are numbered from 0, and so are labels. (Labelled chains: Baier,
/// Haverkort, Hermanns, Katoen, "Model-checking algorithms for continuous-time Markov chains", IEEE TSE 29(6), 2003)
#[derive(Debug, Drop)]
pub struct Model {
    n: u32,
    scale: u32,
    rates: Vec<Rate>,
    starts: Vec<usize>,
    names: Vec<Name>,
    marks: Vec<u64>,
    rew: Option<Rew>,
}

impl marker::Model for Model {
    ghost Value = { ModelLists };

    ghost view = { λ a. record { n = a.n; scale = a.scale; rates = a.rates.items; names = a.names.items; marks = a.marks.items; rewards = a.rew } };

    ghost invariant = { λ a. HasRowStarts (record { n = a.n; scale = a.scale; rates = a.rates.items; names = a.names.items; marks = a.marks.items; rewards = a.rew }) a.starts.items };
}

impl Model {
    /// The model of a chain, its labels and perhaps its rewards. Transitions may come in any order. The one error is
    /// want of memory; what was given is then dropped.
    pub fn build(alloc: Global, tra: Tra, lab: Lab, rew: Option<Rew>) -> Result<Model, AllocError>
        requires marks { length lab.marks ≡ tra.n }
        requires rewards { ForSome rew (λ r. length r.rewards ≡ tra.n) }
        ensures built { IfOk result (λ model. IsBuiltOf model tra lab rew) }
    {
        let Tra { n, scale, rates } = tra;
        let rates = in_order(rates);
        let starts = row_starts(alloc, &rates, n)?;
        let Lab { names, marks } = lab;
        Ok(Model {
            n,
            scale,
            rates,
            starts,
            names,
            marks,
            rew,
        })
    }

    /// How many states there are.
    pub fn n(&self) -> u32
        ensures value { result ≡ self.now.n }
        ensures some { 1 ≤ result }
        ensures few { result ≤ MOST_STATES }
        ensures lists { IsModel self.now }
    {
        self.n
    }

    /// How many decimals the rates have: with scale d a rate r stands for `r / 10^d` for each unit of time.
    pub fn scale(&self) -> u32
        ensures value { result ≡ self.now.scale }
        ensures few { result ≤ 18 }
    {
        self.scale
    }

    /// The transitions of a state, ascending by the state that they reach.
    pub fn row(&self, s: u32) -> &[Rate]
        requires { s < self.now.n }
        ensures row { result.now ≡ row_of self.now.rates s }
        ensures ascending { IsStrictlyIncreasing (map (λ r. r.to) result.now) }
        ensures transitions { All (IsTransition self.now.n) result.now }
        ensures of_state { All (λ r. r.from ≡ s) result.now }
        ensures bound { sum_by (λ r. r.rate) result.now < AMOUNT_LIMIT }
        ensures rates_into { (goal : ℕ → Bool) → sum_into goal result.now ≡ rate_into (chain_of self.now.n self.now.rates) goal s }
    {
        row_of(&self.rates, &self.starts, s as usize)
    }

    /// The rate from s to t, in whole numbers of the model's scale: 0 where no transition is.
    pub fn rate(&self, s: u32, t: u32) -> u64
        requires from { s < self.now.n }
        requires to { t < self.now.n }
        ensures { result ≡ rate_between self.now.rates s t }
    {
        let number = pair_number(s, t);
        match self
            .rates
            .binary_search_by_key(&number, |r| pair_number(r.from, r.to))
        {
            Ok(place) => self.rates[place].rate,
            Err(_) => 0,
        }
    }

    /// The rate at which the chain leaves a state, its loop among it, in whole numbers of the model's scale.
    pub fn exit(&self, s: u32) -> u64
        requires { s < self.now.n }
        ensures value { result ≡ exit_rate (chain_of self.now.n self.now.rates) s }
        ensures bound { result < AMOUNT_LIMIT }
    {
        rate_sum(self.row(s))
    }

    /// The names of the labels, in their order: label j is the name at place j.
    pub fn labels(&self) -> &[Name]
        ensures names { result.now ≡ self.now.names }
        ensures few { length result.now ≤ MOST_LABELS }
    {
        &self.names
    }

    /// Whether a state has a label.
    pub fn has(&self, s: u32, label: u32) -> bool
        requires state { s < self.now.n }
        requires label { label < length self.now.names }
        ensures { result ≡ has_label self.now.marks label s }
    {
        (self.marks[s as usize] >> label) & 1 == 1
    }

    /// Whether the states have rewards.
    pub fn has_rewards(&self) -> bool
        ensures { IsTrue result ↔ IsSome self.now.rewards }
    {
        self.rew.is_some()
    }

    /// The reward that a state gives for each unit of time, in whole numbers of the rewards' scale.
    pub fn reward(&self, s: u32) -> u64
        requires rewards { IsSome self.now.rewards }
        requires state { s < self.now.n }
        ensures value { IfSome self.now.rewards (λ rew. result ≡ slice_index rew.rewards s) }
        ensures bound { result < AMOUNT_LIMIT }
    {
        match &self.rew {
            Some(rew) => rew.reward(s as usize),
            None => 0,
        }
    }

    /// How many decimals the rewards have: with scale e a reward q stands for `q / 10^e` for each unit of time. It is 0
    /// where there are none.
    pub fn reward_scale(&self) -> u32
        ensures value { MatchOption self.now.rewards (result ≡ 0) (λ rew. result ≡ rew.scale) }
        ensures few { result ≤ 18 }
    {
        match &self.rew {
            Some(rew) => rew.scale,
            None => 0,
        }
    }
}

// The transitions in ascending order of their pairs of states.
fn in_order(mut rates: Vec<Rate>) -> Vec<Rate>
    ensures same { IsPermutation rates.items result.items }
    ensures ascending { IsNonDecreasingBy (λ (r : Rate). pair_number r.from r.to) result.items }
{
    rates.sort_unstable_by_key(|r| pair_number(r.from, r.to));
    rates
}

// Where each state's row begins among the transitions in order, and at last how many transitions there are.
fn row_starts(alloc: Global, rates: &[Rate], n: u32) -> Result<Vec<usize>, AllocError>
    requires states { n ≤ MOST_STATES }
    requires order { IsNonDecreasingBy (λ (r : Rate). r.from) rates.now }
    ensures long { IfOk result (λ starts. length starts.items ≡ n + 1) }
    ensures begins { IfOk result (λ starts. AreRowStarts rates.now starts.items) }
{
    let mut starts = Vec::with_capacity(alloc, n as usize + 1)?;
    for s in 0..n + 1 {
        starts.push(count_before(rates, s))?;
    }
    Ok(starts)
}

// How many transitions leave a state below s.
fn count_before(rates: &[Rate], s: u32) -> usize
    requires { IsNonDecreasingBy (λ (r : Rate). r.from) rates.now }
    ensures { result ≡ count_before rates.now s }
{
    rates.partition_point(|r| r.from < s)
}

// The part of the transitions in order that leave a state.
fn row_of<'a>(rates: &'a [Rate], starts: &[usize], s: usize) -> &'a [Rate]
    requires order { IsNonDecreasingBy (λ (r : Rate). r.from) rates.now }
    requires begins { AreRowStarts rates.now starts.now }
    requires within { s + 1 < length starts.now }
    ensures { result.now ≡ row_of rates.now s }
{
    &rates[starts[s]..starts[s + 1]]
}

// The rates of these transitions, added up.
fn rate_sum(rates: &[Rate]) -> u64
    requires { sum_by (λ r. r.rate) rates.now < 2 ^ 64 }
    ensures { result ≡ sum_by (λ r. r.rate) rates.now }
{
    rates.iter().map(|r| r.rate).sum()
}
