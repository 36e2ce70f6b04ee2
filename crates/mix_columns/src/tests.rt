// The mixes of three states over two jumps, against numbers that were worked out apart, with exact
// integers.

ghost use Rattle.std.specs.Prelude.{◌≡◌, suc, ◌≤◌, [], List, All, IfOk, length};
ghost use Rattle.mix_columns.specs.MixNumbers.{StandsFor};
ghost use Rattle.step_core.specs.SoundPlan.{IsSoundMix, IsSoundPlan, IsSoundPoisson};

use super::{Mixer, Mixers, settle};
use round_out::{Entry, ONE};
use std::alloc::{AllocError, Global};
use std::test::Fail;
use step_core::{Bracket, Frame, Mix, Plan, Row, Sets, Weights, Words};

const LOW: [u64; 3] = [1_234_567_890_123_456_789, ONE, 987_654_321_098_765];

const HIGH: [u64; 3] = [1_234_567_890_123_456_790, ONE, 987_654_321_098_766];

const THIRD: u64 = ONE / 3;

// The words of the three states, layer after layer: of the first state they are small, of the second
// large, and of the third 1/4 everywhere.
const LAYERS: [[Words; 3]; 3] = [
    [
        Words { low: 0, high: 1 },
        Words { low: 3, high: 5 },
        Words {
            low: ONE / 4,
            high: ONE / 4,
        },
    ],
    [
        Words {
            low: 1_000_000_007,
            high: 1_000_000_009,
        },
        Words {
            low: THIRD,
            high: THIRD + 1,
        },
        Words {
            low: ONE / 4,
            high: ONE / 4,
        },
    ],
    [
        Words {
            low: ONE / 2,
            high: ONE / 2 + 3,
        },
        Words {
            low: ONE - 9,
            high: ONE - 8,
        },
        Words {
            low: ONE / 4,
            high: ONE / 4,
        },
    ],
];

fn row(alloc: Global, den: u64, entries: &[Entry]) -> Result<Row, AllocError>
    ensures { IfOk result (λ row. row ≡ record { den = den; entries = entries.now }) }
{
    Ok(Row {
        den,
        entries: Vec::from_slice(alloc, entries)?,
    })
}

// Sets that are known exactly.
fn sets(alloc: Global, goal: &[bool], live: &[bool]) -> Result<Sets, AllocError>
    ensures { IfOk result (λ sets. sets ≡ record {
      goal_must = goal.now;
      goal_may = goal.now;
      live_must = live.now;
      live_may = live.now;
    }) }
{
    Ok(Sets {
        goal_must: Vec::from_slice(alloc, goal)?,
        goal_may: Vec::from_slice(alloc, goal)?,
        live_must: Vec::from_slice(alloc, live)?,
        live_may: Vec::from_slice(alloc, live)?,
    })
}

fn weights(alloc: Global) -> Result<Weights, AllocError>
    ensures { IfOk result (λ weights. IsSoundPoisson 2 weights 8) }
{
    Ok(Weights {
        low: Vec::from_slice(alloc, &LOW)?,
        high: Vec::from_slice(alloc, &HIGH)?,
    })
}

// A state that jumps to the goal or to a trap with the probability 1/2 each, the goal and the trap.
fn three_states(alloc: Global, mix: Mix) -> Result<Plan, AllocError>
    requires mix { IsSoundMix 2 mix }
    ensures sound { IfOk result IsSoundPlan }
    ensures layers { IfOk result (λ plan. plan.layers ≡ 2) }
    ensures states { IfOk result (λ plan. length plan.frame.rows ≡ 3) }
{
    let first = row(
        alloc,
        2,
        &[Entry { to: 1, num: 1 }, Entry { to: 2, num: 1 }],
    )?;
    let second = row(alloc, 2, &[Entry { to: 1, num: 2 }])?;
    let third = row(alloc, 2, &[Entry { to: 2, num: 2 }])?;
    let rows = vec![in alloc; first, second, third]?;
    let sets = sets(alloc, &[false, true, false], &[true, true, true])?;
    // Of an unbounded until a state starts from 1 where it can reach the goal.
    let start = match &mix {
        Mix::Poisson(_, _) => 0,
        Mix::Last => ONE,
    };
    Ok(Plan {
        frame: Frame { rows, sets },
        layers: 2,
        start_upper: vec![in alloc; start, ONE, 0]?,
        reach: vec![in alloc; true, true, false]?,
        mix,
    })
}

// A copy of the fresh mixer that took the words of two columns.
fn taken(plan: &Plan, fresh: Mixer, low: &[u64], high: &[u64]) -> Mixer
    requires sound { IsSoundPlan plan.now }
    requires fresh { StandsFor plan.now fresh [] [] }
    requires few { length low.now ≤ suc plan.now.layers }
    requires as_long { length high.now ≡ length low.now }
    requires low_words { All (λ w. w ≤ ONE) low.now }
    requires high_words { All (λ w. w ≤ ONE) high.now }
    ensures { StandsFor plan.now result low.now high.now }
{
    let mut mixer = fresh;
    for layer in 0..low.len() {
        mixer.add(plan, low[layer], high[layer]);
    }
    mixer
}

// The two words of the mix of two columns of which only the first words are there.
fn rest_words(plan: &Plan, fresh: Mixer, low: &[u64], high: &[u64]) -> (u64, u64)
    requires sound { IsSoundPlan plan.now }
    requires fresh { StandsFor plan.now fresh [] [] }
    requires few { length low.now ≤ suc plan.now.layers }
    requires as_long { length high.now ≡ length low.now }
    requires low_words { All (λ w. w ≤ ONE) low.now }
    requires high_words { All (λ w. w ≤ ONE) high.now }
{
    let bracket = taken(plan, fresh, low, high).rest(plan);
    (bracket.lower, bracket.upper)
}

// The two words of the mix of two whole columns.
fn whole_words(plan: &Plan, fresh: Mixer, low: &[u64], high: &[u64]) -> (u64, u64)
    requires sound { IsSoundPlan plan.now }
    requires fresh { StandsFor plan.now fresh [] [] }
    requires whole { length low.now ≡ suc plan.now.layers }
    requires as_long { length high.now ≡ length low.now }
    requires low_words { All (λ w. w ≤ ONE) low.now }
    requires high_words { All (λ w. w ≤ ONE) high.now }
{
    let bracket = taken(plan, fresh, low, high).finish(plan);
    (bracket.lower, bracket.upper)
}

// The brackets of the three states, by mixers that take two layers in one pass, and then the third.
fn brackets_of_two(alloc: Global, plan: &Plan) -> Result<Vec<Bracket>, AllocError>
    requires sound { IsSoundPlan plan.now }
    requires layers { plan.now.layers ≡ 2 }
    requires states { length plan.now.frame.rows ≡ 3 }
    ensures { IfOk result (λ brackets. length brackets.items ≡ 3) }
{
    let mut mixers = Mixers::start(alloc, plan)?;
    mixers.add_two_layers(plan, &LAYERS[0], &LAYERS[1]);
    mixers.add_layer(plan, &LAYERS[2]);
    mixers.finish(alloc, plan)
}

// The brackets of the three states, by mixers that take a layer at a time.
fn all_brackets(alloc: Global, plan: &Plan) -> Result<Vec<Bracket>, AllocError>
    requires sound { IsSoundPlan plan.now }
    requires layers { plan.now.layers ≡ 2 }
    requires states { length plan.now.frame.rows ≡ 3 }
    ensures { IfOk result (λ brackets. length brackets.items ≡ 3) }
{
    let mut mixers = Mixers::start(alloc, plan)?;
    for layer in 0..3usize {
        mixers.add_layer(plan, &LAYERS[layer]);
    }
    mixers.finish(alloc, plan)
}

#[test]
fn brackets_are_the_mixes_of_columns(rt: HostRuntime) -> Result<(), Fail> {
    let weights = weights(rt.alloc())?;
    let plan = three_states(rt.alloc(), Mix::Poisson(weights, 8))?;
    let fresh = Mixer::start(&plan);
    let first = whole_words(
        &plan,
        fresh,
        &[0, 1_000_000_007, ONE / 2],
        &[1, 1_000_000_009, ONE / 2 + 3],
    );
    let second = whole_words(&plan, fresh, &[3, THIRD, ONE - 9], &[5, THIRD + 1, ONE - 8]);
    let third = whole_words(
        &plan,
        fresh,
        &[ONE / 4, ONE / 4, ONE / 4],
        &[ONE / 4, ONE / 4, ONE / 4],
    );
    let words = [first, second, third];
    let expected = [
        (389_479_449_245_255, 18_403_877_958_727_243),
        (1_213_182_430_188_329_006, 1_231_196_828_697_814_392),
        (1_152_921_504_606_844_610, 1_170_935_903_116_329_826),
    ];
    assert_eq!(rt; words, expected);
    let brackets = all_brackets(rt.alloc(), &plan)?;
    for (bracket, words) in brackets.iter().zip(&expected) {
        assert_eq!(rt; (bracket.lower, bracket.upper), *words);
    }
    let brackets = brackets_of_two(rt.alloc(), &plan)?;
    for (bracket, words) in brackets.iter().zip(&expected) {
        assert_eq!(rt; (bracket.lower, bracket.upper), *words);
    }
    Ok(())
}

#[test]
fn missing_words_leave_a_wider_mix(rt: HostRuntime) -> Result<(), Fail> {
    let weights = weights(rt.alloc())?;
    let plan = three_states(rt.alloc(), Mix::Poisson(weights, 8))?;
    let fresh = Mixer::start(&plan);
    assert_eq!(rt; rest_words(&plan, fresh, &[], &[]), (0, ONE));
    assert_eq!(rt;
        rest_words(&plan, fresh, &[3], &[5]),
        (0, 3_656_003_774_432_275_349)
    );
    assert_eq!(rt;
        rest_words(&plan, fresh, &[3, THIRD], &[5, THIRD + 1]),
        (1_212_403_472_867_227_081, 1_231_196_828_697_814_392)
    );
    assert_eq!(rt;
        rest_words(&plan, fresh, &[3, THIRD, ONE - 9], &[5, THIRD + 1, ONE - 8]),
        (1_213_182_430_188_329_006, 1_231_196_828_697_814_392)
    );
    Ok(())
}

#[test]
fn an_unbounded_until_takes_the_last_words(rt: HostRuntime) -> Result<(), Fail> {
    let plan = three_states(rt.alloc(), Mix::Last)?;
    let fresh = Mixer::start(&plan);
    assert_eq!(rt; rest_words(&plan, fresh, &[], &[]), (0, ONE));
    assert_eq!(rt;
        rest_words(&plan, fresh, &[3, THIRD], &[5, THIRD + 1]),
        (0, ONE)
    );
    assert_eq!(rt;
        whole_words(&plan, fresh, &[3, THIRD, 8], &[5, THIRD + 1, 9]),
        (8, 9)
    );
    assert_eq!(rt;
        rest_words(&plan, fresh, &[3, THIRD, 8], &[5, THIRD + 1, 9]),
        (8, 9)
    );
    let brackets = all_brackets(rt.alloc(), &plan)?;
    assert_eq!(rt;
        (brackets[0].lower, brackets[0].upper),
        (ONE / 2, ONE / 2 + 3)
    );
    assert_eq!(rt; (brackets[1].lower, brackets[1].upper), (ONE - 9, ONE - 8));
    assert_eq!(rt; (brackets[2].lower, brackets[2].upper), (ONE / 4, ONE / 4));
    let by_two = brackets_of_two(rt.alloc(), &plan)?;
    assert_eq!(rt; by_two.as_slice(), brackets.as_slice());
    Ok(())
}

#[test]
fn only_states_on_the_way_keep_their_mix(rt: HostRuntime) -> Result<(), Fail> {
    let plan = three_states(rt.alloc(), Mix::Last)?;
    let mixed = Bracket { lower: 8, upper: 9 };
    assert_eq!(rt; settle(&plan, 0, mixed), mixed);
    assert_eq!(rt;
        settle(&plan, 1, mixed),
        Bracket {
            lower: ONE,
            upper: ONE
        }
    );
    assert_eq!(rt; settle(&plan, 2, mixed), Bracket { lower: 0, upper: 0 });
    Ok(())
}
