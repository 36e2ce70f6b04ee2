// The engine against plain sums over whole layers, on drawn chains whose sets are known in part.
ghost use Rattle.std.specs.Prelude.{◌≡◌, ◌≤◌, IfOk, IsTrue};
ghost use Rattle.ctmc_semantics.specs.Sets.{IsSubset, holds_at};
ghost use Rattle.step_core.specs.SoundFrame.{AreSoundSets};
ghost use Rattle.step_core.specs.SoundPlan.{IsSoundPlan};

use super::*;
use decimal_text::Decimal;
use lab_reader::read_lab;
use model_core::Model;
use round_out::ONE;
use step_core::{Mix, Plan, Sets, Weights, set_layer};
use tra_reader::read_tra;
use uniformise::time_plan;
use window_engine::window_brackets;

#[derive(Clone, Copy)]
struct Draws(u64);

impl Draws {
    fn below(&mut self, limit: u64) -> u64 {
        self.0 = self
            .0
            .wrapping_mul(6_364_136_223_846_793_005)
            .wrapping_add(1_442_695_040_888_963_407);
        (self.0 >> 33) % limit.max(1)
    }

    // True so many times in eight.
    fn holds(&mut self, eighths: u64) -> bool {
        self.below(8) < eighths
    }
}

// From each state up to 40 others are next, which lie side by side, or none is.
fn drawn_chain(alloc: Global, draws: &mut Draws, states: u64) -> Result<Vec<u8>, Fail> {
    let mut lines = Vec::new(alloc);
    let mut count: u64 = 0;
    for from in 0..states {
        let next = if draws.holds(6) {
            draws.below(40).min(states)
        } else {
            0
        };
        let first = draws.below(states);
        for place in 0..next {
            let to = first.wrapping_add(place) % states.max(1);
            let rate = draws.below(9).wrapping_add(1);
            let line = format!(in alloc;
                "{} {} {rate}\n",
                from.wrapping_add(1),
                to.wrapping_add(1)
            )?;
            lines.extend_from_slice(line.as_bytes())?;
            count = count.wrapping_add(1);
        }
    }
    let mut tra = Vec::new(alloc);
    tra.extend_from_slice(format!(in alloc; "STATES {states}\nTRANSITIONS {count}\n")?.as_bytes())?;
    tra.extend_from_slice(&lines)?;
    Ok(tra)
}

// Sets that hold so many times in eight: what may be in one surely is in half of the cases.
fn drawn_sets(
    alloc: Global,
    draws: &mut Draws,
    states: u32,
    shares: [u64; 2],
) -> Result<Sets, AllocError> {
    let mut sets = Sets {
        goal_must: Vec::new(alloc),
        goal_may: Vec::new(alloc),
        live_must: Vec::new(alloc),
        live_may: Vec::new(alloc),
    };
    for _ in 0..states {
        let may_be_goal = draws.holds(shares[0]);
        sets.goal_may.push(may_be_goal)?;
        sets.goal_must.push(may_be_goal && draws.holds(4))?;
        let may_be_live = draws.holds(shares[1]);
        sets.live_may.push(may_be_live)?;
        sets.live_must.push(may_be_live && draws.holds(4))?;
    }
    Ok(sets)
}

fn holds(set: &[bool], state: usize) -> bool
    ensures { result ≡ holds_at set.now state }
{
    state < set.len() && set[state]
}

// Whether each state of the first list is one of the second.
fn is_within(inner: &[bool], outer: &[bool]) -> bool
    ensures { IsTrue result → IsSubset (holds_at inner.now) (holds_at outer.now) }
{
    for state in 0..inner.len() {
        let is_outside = !holds(outer, state);
        if inner[state] && is_outside {
            return false;
        }
    }
    true
}

fn are_sound(sets: &Sets, states: usize) -> bool
    ensures { IsTrue result → AreSoundSets states sets.now }
{
    sets.goal_must.len() == states
        && sets.goal_may.len() == states
        && sets.live_must.len() == states
        && sets.live_may.len() == states
        && is_within(&sets.goal_must, &sets.goal_may)
        && is_within(&sets.live_must, &sets.live_may)
}

#[derive(Clone, Copy)]
enum Side {
    Lower,
    Upper,
}

fn quotient(side: Side, number: u128, divisor: u128) -> u128 {
    match side {
        Side::Lower => number / divisor.max(1),
        Side::Upper => number.div_ceil(divisor.max(1)),
    }
}

// A state's word in the next layer.
fn plain_word(plan: &Plan, side: Side, words: &[u64], s: usize) -> u64 {
    let frame = &plan.frame;
    let sets = &frame.sets;
    let (goal, live) = match side {
        Side::Lower => (sets.goal_must.get(s), sets.live_must.get(s)),
        Side::Upper => (sets.goal_may.get(s), sets.live_may.get(s)),
    };
    if goal == Some(&true) {
        return ONE;
    }
    let Some(row) = frame.rows.get(s) else {
        return 0;
    };
    let mut sum: u128 = 0;
    if live == Some(&true) {
        for entry in &row.entries {
            let word = words.get(entry.to as usize).copied().unwrap_or(0);
            sum = sum.wrapping_add(u128::from(entry.num).wrapping_mul(u128::from(word)));
        }
    }
    quotient(side, sum, u128::from(row.den)).min(u128::from(u64::MAX)) as u64
}

fn sum_of(words: &[u64]) -> u128 {
    let mut sum: u128 = 0;
    for word in words {
        sum = sum.wrapping_add(u128::from(*word));
    }
    sum
}

// The sums of each state's words in all layers, weighted, in units of 2^14.
fn plain_sums(
    alloc: Global,
    plan: &Plan,
    side: Side,
    weights: &[u64],
) -> Result<Vec<u128>, AllocError> {
    let frame = &plan.frame;
    let sets = &frame.sets;
    let mut words = match side {
        Side::Lower => set_layer(alloc, &sets.goal_must)?,
        Side::Upper => Vec::from_slice(alloc, &plan.start_upper)?,
    };
    let mut sums = vec![in alloc; 0u128; words.len()]?;
    for weight in weights {
        for (sum, word) in sums.iter_mut().zip(words.as_slice()) {
            let product = u128::from(*weight).wrapping_mul(u128::from(*word));
            *sum = sum.wrapping_add(quotient(side, product, 1 << 14));
        }
        words = next_layer(alloc, plan, side, &words)?;
    }
    Ok(sums)
}

fn next_layer(
    alloc: Global,
    plan: &Plan,
    side: Side,
    words: &[u64],
) -> Result<Vec<u64>, AllocError> {
    let mut next = Vec::new(alloc);
    for s in 0..words.len() {
        next.push(plain_word(plan, side, words, s))?;
    }
    Ok(next)
}

// The brackets of all states, of each its lower and its upper word.
fn plain_brackets(
    alloc: Global,
    plan: &Plan,
    weights: &Weights,
    bits: u32,
) -> Result<Vec<(u64, u64)>, AllocError> {
    let low = plain_sums(alloc, plan, Side::Lower, &weights.low)?;
    let high = plain_sums(alloc, plan, Side::Upper, &weights.high)?;
    let high_total = sum_of(&weights.high).div_ceil(1 << 14).max(1);
    let low_total = (sum_of(&weights.low) >> 14).max(1);
    let past = 1u128 << (62 - bits.min(62));
    let frame = &plan.frame;
    let sets = &frame.sets;
    let mut brackets = Vec::new(alloc);
    for s in 0..low.len().min(high.len()) {
        let lower = low[s] / high_total;
        let upper = high[s]
            .div_ceil(low_total)
            .wrapping_add(past)
            .min(u128::from(ONE));
        let mixed = (lower.min(u128::from(ONE)) as u64, upper as u64);
        brackets.push(match (sets.goal_must.get(s), plan.reach.get(s)) {
            (Some(true), _) => (ONE, ONE),
            (_, Some(true)) => mixed,
            _ => (0, 0),
        })?;
    }
    Ok(brackets)
}

// The plan of a chain's text and of sets over its states.
fn plan_of(alloc: Global, text: &[u8], sets: Sets, time: Decimal, bits: u32) -> Result<Plan, Fail>
    requires some_bits { 8 ≤ bits }
    requires few_bits { bits ≤ 48 }
    ensures { IfOk result IsSoundPlan }
{
    let Ok(tra) = read_tra(alloc, text) else {
        return Err(Fail::from("the chain can't be read"));
    };
    let Ok(lab) = read_lab(alloc, b"#DECLARATION\n#END\n", tra.n()) else {
        return Err(Fail::from("the labels can't be read"));
    };
    let model = Model::build(alloc, tra, lab, None)?;
    if !are_sound(&sets, model.n() as usize) {
        return Err(Fail::from("the sets aren't sound"));
    }
    match time_plan(alloc, &model, sets, time, bits) {
        Ok(plan) => Ok(plan),
        Err(_) => Err(Fail::from("there is no plan")),
    }
}

// Whether the engine's brackets are those of plain sums.
fn agrees(alloc: Global, plan: &Plan) -> Result<bool, AllocError>
    requires { IsSoundPlan plan.now }
{
    let Mix::Poisson(weights, bits) = &plan.mix else {
        return Ok(false);
    };
    let plain = plain_brackets(alloc, plan, weights, *bits)?;
    let brackets = window_brackets(alloc, plan)?;
    for (bracket, words) in brackets.iter().zip(plain.as_slice()) {
        if bracket.lower != words.0 || bracket.upper != words.1 {
            return Ok(false);
        }
    }
    Ok(brackets.len() == plain.len())
}

// The numbers of states, and in how many cases of eight a state may be the goal and may be live.
const SHAPES: &[(u64, [u64; 2])] = &[
    (1, [4, 4]),
    (2, [2, 6]),
    (9, [1, 7]),
    (60, [1, 6]),
    (60, [3, 4]),
    (30, [8, 8]),
    (30, [0, 8]),
    (30, [3, 0]),
];

#[test]
fn the_engine_has_the_words_of_whole_layers(rt: HostRuntime) -> Result<(), Fail> {
    let alloc = rt.alloc();
    let mut draws = Draws(1);
    for (states, shares) in SHAPES {
        for (tenths, bits) in [(0, 8), (1, 30), (2, 48)] {
            let time = Decimal {
                c: tenths,
                x: if tenths > 0 { 1 } else { 0 },
            };
            let text = drawn_chain(alloc, &mut draws, *states)?;
            let sets = drawn_sets(alloc, &mut draws, *states as u32, *shares)?;
            let plan = plan_of(alloc, &text, sets, time, bits)?;
            assert!(rt; agrees(alloc, &plan)?, "{states} states, {bits} bits");
        }
    }
    Ok(())
}

// Sixty states, each of which leads to the next: the last one is the goal.
fn line_sets(alloc: Global) -> Result<Sets, AllocError> {
    let mut goal_must = vec![in alloc; false; 59]?;
    goal_must.push(true)?;
    let mut goal_may = vec![in alloc; false; 59]?;
    goal_may.push(true)?;
    Ok(Sets {
        goal_must,
        goal_may,
        live_must: vec![in alloc; true; 60]?,
        live_may: vec![in alloc; true; 60]?,
    })
}

fn line(alloc: Global) -> Result<Vec<u8>, Fail> {
    let mut text = Vec::new(alloc);
    text.extend_from_slice(b"STATES 60\nTRANSITIONS 59\n")?;
    for from in 1..60u32 {
        let to = from.wrapping_add(1);
        text.extend_from_slice(format!(in alloc; "{from} {to} 1\n")?.as_bytes())?;
    }
    Ok(text)
}

// Far from the goal the words stay 0 in every layer, though the goal can be reached.
#[test]
fn words_stay_0_where_the_goal_is_far(rt: HostRuntime) -> Result<(), Fail> {
    let alloc = rt.alloc();
    let text = line(alloc)?;
    let sets = line_sets(alloc)?;
    let plan = plan_of(alloc, &text, sets, Decimal { c: 3, x: 0 }, 20)?;
    assert!(rt; plan.layers < 50);
    assert!(rt; agrees(alloc, &plan)?);
    Ok(())
}
