// Brackets that are read of a small board.

ghost use Rattle.std.specs.Prelude.{◌≡◌, ◌<◌, ◌≤◌, [], ◌∷◌, IfOk, length};
ghost use Rattle.step_core.specs.SoundPlan.{IsSoundMix, IsSoundPlan};
ghost use Rattle.bound_grid.specs.Passes.{IsPassOf};

use super::read;
use bound_grid::{Board, Pass};
use poisson_tail::{Load, weights};
use round_out::{Entry, ONE};
use std::alloc::{AllocError, Global};
use std::test::Fail;
use step_core::{Bracket, Frame, Mix, Plan, Row, Sets};
use tighten_step::tighten_block;

// The printed units: 12 decimals.
const UNITS: u128 = 1_000_000_000_000;

fn sure_row(alloc: Global, to: u32) -> Result<Row, AllocError>
    ensures { IfOk result (λ row. row ≡ record { den = 1; entries = record { to = to; num = 1 } ∷ [] }) }
{
    Ok(Row {
        den: 1,
        entries: vec![in alloc; Entry { to, num: 1 }]?,
    })
}

// Sets that are known exactly.
fn sets(alloc: Global, goal: &[bool], live: &[bool]) -> Result<Sets, AllocError>
    ensures { IfOk result (λ sets. sets ≡ record {
      goal_must = goal.now;
      goal_may = goal.now;
      live_must = live.now;
      live_may = live.now;
    }) }
{
    Ok(Sets {
        goal_must: Vec::from_slice(alloc, goal)?,
        goal_may: Vec::from_slice(alloc, goal)?,
        live_must: Vec::from_slice(alloc, live)?,
        live_may: Vec::from_slice(alloc, live)?,
    })
}

// A state that surely jumps to the goal, and the goal.
fn two_states(alloc: Global, layers: u32, mix: Mix) -> Result<Plan, AllocError>
    requires some_layer { 1 ≤ layers }
    requires few_layers { layers ≤ 16384 }
    requires mix { IsSoundMix layers mix }
    ensures sound { IfOk result IsSoundPlan }
    ensures layers { IfOk result (λ plan. plan.layers ≡ layers) }
    ensures states { IfOk result (λ plan. length plan.frame.rows ≡ 2) }
{
    let first = sure_row(alloc, 1)?;
    let second = sure_row(alloc, 1)?;
    let rows = vec![in alloc; first, second]?;
    let sets = sets(alloc, &[false, true], &[true, true])?;
    // Of an unbounded until a state starts from 1 where it can reach the goal.
    let start = match &mix {
        Mix::Poisson(_, _) => 0,
        Mix::Last => ONE,
    };
    Ok(Plan {
        frame: Frame { rows, sets },
        layers,
        start_upper: vec![in alloc; start, ONE]?,
        reach: vec![in alloc; true, true]?,
        mix,
    })
}

// A bounded until of load 1.
fn bounded(alloc: Global) -> Result<Plan, AllocError>
    ensures sound { IfOk result IsSoundPlan }
    ensures layers { IfOk result (λ plan. plan.layers ≡ 32) }
    ensures states { IfOk result (λ plan. length plan.frame.rows ≡ 2) }
{
    let load = Load::new(1, 1);
    let weights = weights(alloc, &load, 32)?;
    two_states(alloc, 32, Mix::Poisson(weights, 30))
}

// Tightens all layers, one after another, and counts those that were sealed.
fn tighten_all(board: &Board, pass: &mut Pass) -> u32
    requires sound { IsSoundPlan board.now.plan }
    requires pass { IsPassOf board.now pass.old }
    requires layers { board.now.plan.layers ≡ 32 }
    requires states { length board.now.plan.frame.rows ≡ 2 }
    ensures { IsPassOf board.now pass.new }
{
    let mut sealed = 0u32;
    for k in 1..33u32 {
        if tighten_block(board, pass, k, 0) {
            sealed = sealed.wrapping_add(1);
        }
    }
    sealed
}

// How many layers the pass finds sealed.
fn sealed_layers(board: &Board, pass: &mut Pass) -> u32
    requires pass { IsPassOf board.now pass.old }
    requires layers { board.now.plan.layers ≡ 32 }
    requires states { length board.now.plan.frame.rows ≡ 2 }
    ensures { IsPassOf board.now pass.new }
{
    let mut sealed = 0u32;
    for k in 0..33u32 {
        if board.sealed(pass, k, 0) {
            sealed = sealed.wrapping_add(1);
        }
    }
    sealed
}

// The bracket as two numbers of 12 decimals, rounded out.
fn printed(bracket: Bracket) -> (u128, u128) {
    let lower = u128::from(bracket.lower) * UNITS / u128::from(ONE);
    let upper = (u128::from(bracket.upper) * UNITS).div_ceil(u128::from(ONE));
    (lower, upper)
}

#[test]
fn words_of_another_pass_make_a_bracket_narrower(rt: HostRuntime) -> Result<(), Fail> {
    let (board, mut pass) = Board::open(rt.alloc(), bounded(rt.alloc())?)?;
    let mut other = board.split(&mut pass);
    let before = read(&board, &mut other, 0);
    assert_eq!(rt; before.lower, 0);
    assert!(rt; tighten_block(&board, &mut pass, 1, 0));
    let after = read(&board, &mut other, 0);
    assert!(rt; after.lower > 0);
    assert!(rt; after.upper <= before.upper);
    Ok(())
}

// The second pass knows as much as the first once it has looked.
#[test]
fn tightened_layers_give_the_bracket_of_one_thread(rt: HostRuntime) -> Result<(), Fail> {
    let (board, mut pass) = Board::open(rt.alloc(), bounded(rt.alloc())?)?;
    let mut other = board.split(&mut pass);
    assert_eq!(rt; tighten_all(&board, &mut pass), 32);
    assert_eq!(rt; sealed_layers(&board, &mut other), 33);
    let first = read(&board, &mut pass, 0);
    assert_eq!(rt; printed(first), (632_120_558_828, 632_120_559_760));
    assert_eq!(rt; printed(read(&board, &mut other, 0)), printed(first));
    let second = read(&board, &mut pass, 1);
    assert_eq!(rt; printed(second), (UNITS, UNITS));
    Ok(())
}

#[test]
fn nothing_is_known_at_the_start(rt: HostRuntime) -> Result<(), Fail> {
    let plan = two_states(rt.alloc(), 4, Mix::Last)?;
    let (board, mut pass) = Board::open(rt.alloc(), plan)?;
    let first = read(&board, &mut pass, 0);
    assert_eq!(rt; (first.lower, first.upper), (0, ONE));
    let second = read(&board, &mut pass, 1);
    assert_eq!(rt; (second.lower, second.upper), (ONE, ONE));
    Ok(())
}
