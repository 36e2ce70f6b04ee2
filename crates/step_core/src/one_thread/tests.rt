// The tables of two small models, worked by hand.

ghost use Rattle.std.specs.Prelude.{◌≡◌, IfOk};
ghost use Rattle.step_core.specs.SoundPlan.{IsSoundPlan};

use crate::frame::Frame;
use crate::mix::Mix;
use crate::one_thread::plain_tables;
use crate::plan::Plan;
use crate::row::Row;
use crate::sets::Sets;
use crate::weights::Weights;
use round_out::{Entry, ONE};
use std::alloc::{AllocError, Global};
use std::test::Fail;

const QUARTER: u64 = ONE / 4;

const HALF: u64 = ONE / 2;

fn row(alloc: Global, den: u64, entries: &[Entry]) -> Result<Row, AllocError>
    ensures { IfOk result (λ row. row ≡ record { den = den; entries = entries.now }) }
{
    Ok(Row {
        den,
        entries: Vec::from_slice(alloc, entries)?,
    })
}

// Sets that are known exactly.
fn sets(alloc: Global, goal: &[bool], live: &[bool]) -> Result<Sets, AllocError>
    ensures { IfOk result (λ sets. sets ≡ record {
      goal_must = goal.now;
      goal_may = goal.now;
      live_must = live.now;
      live_may = live.now;
    }) }
{
    Ok(Sets {
        goal_must: Vec::from_slice(alloc, goal)?,
        goal_may: Vec::from_slice(alloc, goal)?,
        live_must: Vec::from_slice(alloc, live)?,
        live_may: Vec::from_slice(alloc, live)?,
    })
}

// A state that jumps to an absorbing goal, for a bounded until.
fn two_states(alloc: Global) -> Result<Plan, AllocError>
    ensures { IfOk result IsSoundPlan }
{
    let first = row(alloc, 1, &[Entry { to: 1, num: 1 }])?;
    let second = row(alloc, 1, &[Entry { to: 1, num: 1 }])?;
    let rows = vec![in alloc; first, second]?;
    let sets = sets(alloc, &[false, true], &[true, true])?;
    let weights = Weights {
        low: vec![in alloc; ONE, ONE, ONE, ONE, ONE]?,
        high: vec![in alloc; ONE, ONE, ONE, ONE, ONE]?,
    };
    Ok(Plan {
        frame: Frame { rows, sets },
        layers: 4,
        start_upper: vec![in alloc; 0, ONE]?,
        reach: vec![in alloc; true, true]?,
        mix: Mix::Poisson(weights, 8),
    })
}

// A state that stays with the probability 1/2 and jumps to the goal or to a trap with 1/4 each, and
// a state that jumps to it, for an unbounded until.
pub(crate) fn four_states(alloc: Global) -> Result<Plan, AllocError>
    ensures { IfOk result IsSoundPlan }
{
    let first = row(
        alloc,
        4,
        &[
            Entry { to: 0, num: 2 },
            Entry { to: 1, num: 1 },
            Entry { to: 2, num: 1 },
        ],
    )?;
    let second = row(alloc, 4, &[Entry { to: 1, num: 4 }])?;
    let third = row(alloc, 4, &[Entry { to: 2, num: 4 }])?;
    let fourth = row(alloc, 4, &[Entry { to: 0, num: 4 }])?;
    let rows = vec![in alloc; first, second, third, fourth]?;
    let sets = sets(
        alloc,
        &[false, true, false, false],
        &[true, true, true, true],
    )?;
    Ok(Plan {
        frame: Frame { rows, sets },
        layers: 4,
        start_upper: vec![in alloc; ONE, ONE, 0, ONE]?,
        reach: vec![in alloc; true, true, false, true]?,
        mix: Mix::Last,
    })
}

#[test]
fn a_bounded_until_starts_from_its_goal(rt: HostRuntime) -> Result<(), Fail> {
    let plan = two_states(rt.alloc())?;
    let tables = plain_tables(rt.alloc(), &plan)?;
    let layers = [[0, ONE], [ONE, ONE], [ONE, ONE], [ONE, ONE], [ONE, ONE]];
    assert_eq!(rt; tables.low.len(), 5);
    assert_eq!(rt; tables.high.len(), 5);
    for (layer, words) in layers.iter().enumerate() {
        assert_eq!(rt; tables.low[layer].as_slice(), words.as_slice());
        assert_eq!(rt; tables.high[layer].as_slice(), words.as_slice());
    }
    Ok(())
}

#[test]
fn an_unbounded_until_rises_from_its_goal(rt: HostRuntime) -> Result<(), Fail> {
    let plan = four_states(rt.alloc())?;
    let tables = plain_tables(rt.alloc(), &plan)?;
    let sixteenth = QUARTER / 4;
    let low = [
        [0, ONE, 0, 0],
        [QUARTER, ONE, 0, 0],
        [6 * sixteenth, ONE, 0, QUARTER],
        [7 * sixteenth, ONE, 0, 6 * sixteenth],
        [HALF - sixteenth / 2, ONE, 0, 7 * sixteenth],
    ];
    let high = [
        [ONE, ONE, 0, ONE],
        [12 * sixteenth, ONE, 0, ONE],
        [10 * sixteenth, ONE, 0, 12 * sixteenth],
        [9 * sixteenth, ONE, 0, 10 * sixteenth],
        [HALF + sixteenth / 2, ONE, 0, 9 * sixteenth],
    ];
    assert_eq!(rt; tables.low.len(), 5);
    assert_eq!(rt; tables.high.len(), 5);
    for (layer, words) in low.iter().enumerate() {
        assert_eq!(rt; tables.low[layer].as_slice(), words.as_slice());
    }
    for (layer, words) in high.iter().enumerate() {
        assert_eq!(rt; tables.high[layer].as_slice(), words.as_slice());
    }
    Ok(())
}
