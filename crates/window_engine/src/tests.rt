// The brackets of five states, against those of a mixer for each state over whole tables.

ghost use Rattle.std.specs.Prelude.{◌≡◌, suc, ◌<◌, ◌≤◌, [], All, IfOk, length};
ghost use Rattle.mix_columns.specs.MixNumbers.{StandsFor};
ghost use Rattle.step_core.specs.SoundPlan.{IsSoundMix, IsSoundPlan, IsSoundPoisson};
ghost use Rattle.window_engine.specs.FiveStates.{five_rows, known_sets};

use super::window_brackets;
use mix_columns::{Mixer, settle};
use round_out::{Entry, ONE};
use std::alloc::{AllocError, Global};
use std::test::Fail;
use step_core::{Bracket, Frame, Mix, Plan, Row, Sets, Tables, Weights, plain_tables};

const LOW: [u64; 4] = [1_234_567_890_123_456_789, ONE, 987_654_321_098_765, 7];

const HIGH: [u64; 4] = [1_234_567_890_123_456_790, ONE, 987_654_321_098_766, 8];

fn row(alloc: Global, den: u64, entries: &[Entry]) -> Result<Row, AllocError>
    ensures { IfOk result (λ row. row ≡ record { den = den; entries = entries.now }) }
{
    Ok(Row {
        den,
        entries: Vec::from_slice(alloc, entries)?,
    })
}

// The second state surely is the goal, and the third may be; the first and the third surely are
// live, and the second and the fourth may be.
fn sets(alloc: Global) -> Result<Sets, AllocError>
    ensures { IfOk result (λ sets. sets ≡ known_sets) }
{
    Ok(Sets {
        goal_must: vec![in alloc; false, true, false, false, false]?,
        goal_may: vec![in alloc; false, true, true, false, false]?,
        live_must: vec![in alloc; true, false, true, false, false]?,
        live_may: vec![in alloc; true, true, true, true, false]?,
    })
}

fn weights(alloc: Global) -> Result<Weights, AllocError>
    ensures { IfOk result (λ weights. IsSoundPoisson 3 weights 8) }
{
    Ok(Weights {
        low: Vec::from_slice(alloc, &LOW)?,
        high: Vec::from_slice(alloc, &HIGH)?,
    })
}

// A state that stays with the probability 1/2 and else jumps to the goal or to what may be the goal,
// two that lead back from there, and a trap.
fn rows(alloc: Global) -> Result<Vec<Row>, AllocError>
    ensures { IfOk result (λ rows. rows.items ≡ five_rows) }
{
    let first = row(
        alloc,
        4,
        &[
            Entry { to: 0, num: 2 },
            Entry { to: 1, num: 1 },
            Entry { to: 2, num: 1 },
        ],
    )?;
    let second = row(alloc, 1, &[Entry { to: 1, num: 1 }])?;
    let third = row(
        alloc,
        2,
        &[Entry { to: 1, num: 1 }, Entry { to: 3, num: 1 }],
    )?;
    let fourth = row(
        alloc,
        4,
        &[Entry { to: 0, num: 3 }, Entry { to: 4, num: 1 }],
    )?;
    let fifth = row(alloc, 7, &[Entry { to: 4, num: 7 }])?;
    Ok(vec![in alloc; first, second, third, fourth, fifth]?)
}

fn five_states(alloc: Global, layers: u32, mix: Mix) -> Result<Plan, AllocError>
    requires some { 1 ≤ layers }
    requires few { layers ≤ 16384 }
    requires mix { IsSoundMix layers mix }
    ensures sound { IfOk result IsSoundPlan }
    ensures rows { IfOk result (λ plan. plan.frame.rows ≡ five_rows) }
{
    // Of an unbounded until a state starts from 1 where it can reach the goal.
    let start = match &mix {
        Mix::Poisson(_, _) => 0,
        Mix::Last => ONE,
    };
    Ok(Plan {
        frame: Frame {
            rows: rows(alloc)?,
            sets: sets(alloc)?,
        },
        layers,
        start_upper: vec![in alloc; start, ONE, ONE, start, 0]?,
        reach: vec![in alloc; true, true, true, true, false]?,
        mix,
    })
}

// The state's word in the layer of a table.
fn word(table: &[Vec<u64>], layer: usize, state: usize) -> u64
    ensures { result ≤ ONE }
{
    if layer < table.len() && state < table[layer].len() {
        table[layer][state].min(ONE)
    } else {
        0
    }
}

// The mix of a state's words in the tables.
fn mixed(plan: &Plan, tables: &Tables, state: usize) -> Bracket
    requires { IsSoundPlan plan.now }
{
    let mut mixer = Mixer::start(plan);
    for layer in 0..plan.layers as usize + 1 {
        mixer.add(
            plan,
            word(&tables.low, layer, state),
            word(&tables.high, layer, state),
        );
    }
    mixer.finish(plan)
}

// The brackets of the five states, one after another.
fn one_by_one(alloc: Global, plan: &Plan) -> Result<Vec<Bracket>, AllocError>
    requires sound { IsSoundPlan plan.now }
    requires rows { plan.now.frame.rows ≡ five_rows }
{
    let tables = plain_tables(alloc, plan)?;
    let mut brackets = Vec::new(alloc);
    for state in 0..5u32 {
        let bracket = mixed(plan, &tables, state as usize);
        brackets.push(settle(plan, state, bracket))?;
    }
    Ok(brackets)
}

#[test]
fn a_bounded_until_has_the_brackets_of_its_tables(rt: HostRuntime) -> Result<(), Fail> {
    let weights = weights(rt.alloc())?;
    let plan = five_states(rt.alloc(), 3, Mix::Poisson(weights, 8))?;
    let brackets = window_brackets(rt.alloc(), &plan)?;
    let expected = one_by_one(rt.alloc(), &plan)?;
    assert_eq!(rt; brackets.as_slice(), expected.as_slice());
    Ok(())
}

#[test]
fn an_unbounded_until_has_the_words_of_the_last_layer(rt: HostRuntime) -> Result<(), Fail> {
    let plan = five_states(rt.alloc(), 4, Mix::Last)?;
    let brackets = window_brackets(rt.alloc(), &plan)?;
    let expected = one_by_one(rt.alloc(), &plan)?;
    assert_eq!(rt; brackets.as_slice(), expected.as_slice());
    let sixteenth = ONE / 16;
    let by_hand = [
        (11 * sixteenth, ONE),
        (ONE, ONE),
        (8 * sixteenth, ONE),
        (0, 12 * sixteenth),
        (0, 0),
    ];
    for (bracket, words) in brackets.iter().zip(&by_hand) {
        assert_eq!(rt; (bracket.lower, bracket.upper), *words);
    }
    Ok(())
}
