// A board driven by hand.

ghost use Rattle.std.specs.Prelude.{◌≡◌, ℕ, ◌+◌, ◌-◌, ◌<◌, ◌≤◌, IfOk, length};
ghost use Rattle.step_core.specs.Limits.{sizes_of};
ghost use Rattle.step_core.specs.Places.{blocks};
ghost use Rattle.step_core.specs.PlanTables.{AreTablesOf, plan_low, plan_high};
ghost use Rattle.step_core.specs.SoundPlan.{IsSoundPlan};
ghost use Rattle.bound_grid.specs.Passes.{IsPassOf, KnowsMore, draws_of, lower_note, upper_note, seal_note};
ghost use Rattle.bound_grid.specs.RestingStates.{resting_rows};

use crate::board::{Board, Pass};
use round_out::{Entry, ONE};
use std::alloc::{AllocError, Global};
use std::test::Fail;
use std::thread::{Threads, join};
use step_core::{Frame, Mix, Plan, Row, Sets, Tables, plain_tables};

const QUARTER: u64 = ONE / 4;

fn row(alloc: Global, den: u64, entries: &[Entry]) -> Result<Row, AllocError>
    ensures { IfOk result (λ row. row ≡ record { den = den; entries = entries.now }) }
{
    Ok(Row {
        den,
        entries: Vec::from_slice(alloc, entries)?,
    })
}

// Sets that are known exactly.
fn sets(alloc: Global, goal: &[bool], live: &[bool]) -> Result<Sets, AllocError>
    ensures { IfOk result (λ sets. sets ≡ record {
      goal_must = goal.now;
      goal_may = goal.now;
      live_must = live.now;
      live_may = live.now;
    }) }
{
    Ok(Sets {
        goal_must: Vec::from_slice(alloc, goal)?,
        goal_may: Vec::from_slice(alloc, goal)?,
        live_must: Vec::from_slice(alloc, live)?,
        live_may: Vec::from_slice(alloc, live)?,
    })
}

// A state that stays with the probability 1/2 and jumps to the goal or to a trap with 1/4 each, and
// a state that jumps to it, for an unbounded until.
fn four_states(alloc: Global) -> Result<Plan, AllocError>
    ensures sound { IfOk result IsSoundPlan }
    ensures layers { IfOk result (λ plan. plan.layers ≡ 4) }
    ensures states { IfOk result (λ plan. length plan.frame.rows ≡ 4) }
{
    let first = row(
        alloc,
        4,
        &[
            Entry { to: 0, num: 2 },
            Entry { to: 1, num: 1 },
            Entry { to: 2, num: 1 },
        ],
    )?;
    let second = row(alloc, 4, &[Entry { to: 1, num: 4 }])?;
    let third = row(alloc, 4, &[Entry { to: 2, num: 4 }])?;
    let fourth = row(alloc, 4, &[Entry { to: 0, num: 4 }])?;
    let rows = vec![in alloc; first, second, third, fourth]?;
    let sets = sets(
        alloc,
        &[false, true, false, false],
        &[true, true, true, true],
    )?;
    Ok(Plan {
        frame: Frame { rows, sets },
        layers: 4,
        start_upper: vec![in alloc; ONE, ONE, 0, ONE]?,
        reach: vec![in alloc; true, true, false, true]?,
        mix: Mix::Last,
    })
}

// The rows of states that stay where they are.
fn resting_rows(alloc: Global, states: u32) -> Result<Vec<Row>, AllocError>
    ensures { IfOk result (λ rows. rows.items ≡ resting_rows states) }
{
    let mut rows = Vec::new(alloc);
    for s in 0..states {
        rows.push(row(alloc, 1, &[Entry { to: s, num: 1 }])?)?;
    }
    Ok(rows)
}

// States that stay where they are, each of the goal.
fn resting(alloc: Global, states: u32, layers: u32) -> Result<Plan, AllocError>
    requires some { 1 ≤ states }
    requires few { states ≤ 65536 }
    requires some_layer { 1 ≤ layers }
    requires few_layers { layers ≤ 16384 }
    ensures sound { IfOk result IsSoundPlan }
    ensures layers { IfOk result (λ plan. plan.layers ≡ layers) }
    ensures states { IfOk result (λ plan. length plan.frame.rows ≡ states) }
{
    let rows = resting_rows(alloc, states)?;
    let all = vec![in alloc; true; states as usize]?;
    let sets = sets(alloc, &all, &all)?;
    Ok(Plan {
        frame: Frame { rows, sets },
        layers,
        start_upper: vec![in alloc; ONE; states as usize]?,
        reach: all,
        mix: Mix::Last,
    })
}

fn low_word(plan: &Plan, tables: &Tables, k: u32, s: u32) -> u64
    requires tables { AreTablesOf plan.now tables.now }
    requires layer { k ≤ plan.now.layers }
    requires state { s < length plan.now.frame.rows }
    ensures { result ≡ plan_low plan.now k s }
{
    let layer = &tables.low[k as usize];
    layer[s as usize]
}

fn high_word(plan: &Plan, tables: &Tables, k: u32, s: u32) -> u64
    requires tables { AreTablesOf plan.now tables.now }
    requires layer { k ≤ plan.now.layers }
    requires state { s < length plan.now.frame.rows }
    ensures { result ≡ plan_high plan.now k s }
{
    let layer = &tables.high[k as usize];
    layer[s as usize]
}

// Brings both words of a state to their limits.
fn finish_state(board: &Board, tables: &Tables, pass: &mut Pass, k: u32, s: u32)
    requires pass { IsPassOf board.now pass.old }
    requires tables { AreTablesOf board.now.plan tables.now }
    requires some_layer { 1 ≤ k }
    requires layer { k ≤ board.now.plan.layers }
    requires state { s < length board.now.plan.frame.rows }
    ensures knows { KnowsMore board.now pass.old pass.new }
    ensures lower { lower_note board.now pass.new k s ≡ plan_low board.now.plan k s }
    ensures upper { upper_note board.now pass.new k s ≡ plan_high board.now.plan k s }
{
    let low = low_word(board.plan(), tables, k, s);
    let high = high_word(board.plan(), tables, k, s);
    board.raise(pass, k, s, low);
    board.cut(pass, k, s, high);
}

// Brings all words of the only block of a layer to their limits, and seals it.
fn finish_layer(board: &Board, tables: &Tables, pass: &mut Pass, k: u32)
    requires pass { IsPassOf board.now pass.old }
    requires tables { AreTablesOf board.now.plan tables.now }
    requires some_layer { 1 ≤ k }
    requires layer { k ≤ board.now.plan.layers }
    requires states { length board.now.plan.frame.rows ≡ 4 }
    ensures pass { IsPassOf board.now pass.new }
    ensures noted { seal_note board.now pass.new k 0 ≡ 1 }
{
    finish_state(board, tables, pass, k, 0);
    finish_state(board, tables, pass, k, 1);
    finish_state(board, tables, pass, k, 2);
    finish_state(board, tables, pass, k, 3);
    board.seal(pass, k, 0);
}

// All layers, one after another: the sum of the lower words of the first state, each as it was
// before the layer was finished and as it was afterwards.
fn climb(board: &Board, tables: &Tables, mut pass: Pass) -> (Pass, u64, u64)
    requires pass { IsPassOf board.now pass }
    requires tables { AreTablesOf board.now.plan tables.now }
    requires layers { board.now.plan.layers ≡ 4 }
    requires states { length board.now.plan.frame.rows ≡ 4 }
    ensures { IsPassOf board.now result.0 }
{
    let mut before = 0u64;
    let mut after = 0u64;
    for k in 1..5u32 {
        before = before.wrapping_add(board.load_lower(&mut pass, k, 0));
        finish_layer(board, tables, &mut pass, k);
        after = after.wrapping_add(board.load_lower(&mut pass, k, 0));
    }
    (pass, before, after)
}

#[test]
fn words_get_better_by_single_steps(rt: HostRuntime) -> Result<(), Fail> {
    let plan = four_states(rt.alloc())?;
    let tables = plain_tables(rt.alloc(), &plan)?;
    let (board, mut pass) = Board::open(rt.alloc(), plan)?;
    assert_eq!(rt; board.load_lower(&mut pass, 1, 0), 0);
    assert_eq!(rt; board.load_upper(&mut pass, 1, 0), ONE);
    let low = low_word(board.plan(), &tables, 1, 0);
    assert_eq!(rt; board.raise(&mut pass, 1, 0, low), 0);
    assert_eq!(rt; board.load_lower(&mut pass, 1, 0), QUARTER);
    assert_eq!(rt; board.raise(&mut pass, 1, 0, 0), QUARTER);
    assert_eq!(rt; board.load_lower(&mut pass, 1, 0), QUARTER);
    let high = high_word(board.plan(), &tables, 1, 0);
    assert_eq!(rt; board.cut(&mut pass, 1, 0, high), ONE);
    assert_eq!(rt; board.load_upper(&mut pass, 1, 0), 3 * QUARTER);
    assert!(rt; board.sealed(&mut pass, 0, 0));
    assert!(rt; !board.sealed(&mut pass, 1, 0));
    Ok(())
}

#[test]
fn a_seal_is_seen_by_other_passes(rt: HostRuntime) -> Result<(), Fail> {
    let plan = four_states(rt.alloc())?;
    let tables = plain_tables(rt.alloc(), &plan)?;
    let (board, mut pass) = Board::open(rt.alloc(), plan)?;
    let mut other = board.split(&mut pass);
    finish_layer(&board, &tables, &mut other, 1);
    assert!(rt; board.sealed(&mut pass, 1, 0));
    assert!(rt; !board.sealed(&mut pass, 2, 0));
    assert_eq!(rt; board.load_lower(&mut pass, 1, 0), QUARTER);
    assert_eq!(rt; board.load_upper(&mut pass, 1, 3), ONE);
    board.meet(&mut pass, other);
    assert!(rt; board.sealed(&mut pass, 1, 0));
    assert_eq!(rt; board.load_upper(&mut pass, 1, 0), 3 * QUARTER);
    Ok(())
}

#[test]
fn two_threads_meet_at_the_tables(rt: HostRuntime) -> Result<(), Fail> {
    let plan = four_states(rt.alloc())?;
    let tables = plain_tables(rt.alloc(), &plan)?;
    let (board, mut pass) = Board::open(rt.alloc(), plan)?;
    let other = board.split(&mut pass);
    let (first, second) = join(
        &rt,
        || climb(&board, &tables, pass),
        || climb(&board, &tables, other),
    );
    // 1/4, 3/8, 7/16 and 15/32 are the values of the first state.
    let sum = QUARTER + 3 * (ONE / 8) + 7 * (ONE / 16) + 15 * (ONE / 32);
    let (mut pass, before, after) = first;
    assert!(rt; before <= after);
    assert_eq!(rt; after, sum);
    let (other, before, after) = second;
    assert!(rt; before <= after);
    assert_eq!(rt; after, sum);
    board.meet(&mut pass, other);
    assert!(rt; board.sealed(&mut pass, 4, 0));
    assert_eq!(rt; board.load_lower(&mut pass, 4, 0), 15 * (ONE / 32));
    Ok(())
}

// Opens a board of states that stay at the goal, and finishes the last state of layer 1: what is
// known of it then.
fn finish_last(alloc: Global, states: u32) -> Result<(Board, Tables, Pass), AllocError>
    requires some { 2 ≤ states }
    requires few { states ≤ 65536 }
    ensures pass { IfOk result (λ made. IsPassOf made.0 made.2) }
    ensures tables { IfOk result (λ made. AreTablesOf made.0.plan made.1) }
    ensures layers { IfOk result (λ made. made.0.plan.layers ≡ 2) }
    ensures states { IfOk result (λ made. length made.0.plan.frame.rows ≡ states) }
    ensures lower { IfOk result (λ made. lower_note made.0 made.2 1 (states - 1) ≡ plan_low made.0.plan 1 (states - 1)) }
    ensures upper { IfOk result (λ made. upper_note made.0 made.2 1 (states - 1) ≡ plan_high made.0.plan 1 (states - 1)) }
{
    let plan = resting(alloc, states, 2)?;
    let tables = plain_tables(alloc, &plan)?;
    let (board, mut pass) = Board::open(alloc, plan)?;
    finish_state(&board, &tables, &mut pass, 1, states - 1);
    Ok((board, tables, pass))
}

#[test]
fn a_board_of_one_state_has_its_words_apart(rt: HostRuntime) -> Result<(), Fail> {
    let plan = resting(rt.alloc(), 1, 4)?;
    let tables = plain_tables(rt.alloc(), &plan)?;
    let (board, mut pass) = Board::open(rt.alloc(), plan)?;
    assert_eq!(rt; board.load_lower(&mut pass, 0, 0), ONE);
    assert_eq!(rt; board.load_upper(&mut pass, 0, 0), ONE);
    assert!(rt; board.sealed(&mut pass, 0, 0));
    for k in 1..5u32 {
        assert_eq!(rt; board.load_lower(&mut pass, k, 0), 0);
        assert_eq!(rt; board.load_upper(&mut pass, k, 0), ONE);
        assert!(rt; !board.sealed(&mut pass, k, 0));
        finish_state(&board, &tables, &mut pass, k, 0);
        assert_eq!(rt; board.load_lower(&mut pass, k, 0), ONE);
        assert_eq!(rt; board.load_upper(&mut pass, k, 0), ONE);
    }
    Ok(())
}

#[test]
fn a_block_of_one_state_is_sealed_alone(rt: HostRuntime) -> Result<(), Fail> {
    let (board, _, mut pass) = finish_last(rt.alloc(), 65)?;
    assert!(rt; !board.sealed(&mut pass, 1, 1));
    board.seal(&mut pass, 1, 1);
    assert!(rt; board.sealed(&mut pass, 1, 1));
    assert!(rt; !board.sealed(&mut pass, 1, 0));
    assert!(rt; !board.sealed(&mut pass, 2, 0));
    assert_eq!(rt; board.load_lower(&mut pass, 1, 64), ONE);
    assert_eq!(rt; board.load_lower(&mut pass, 1, 63), 0);
    Ok(())
}

#[test]
fn a_board_of_all_states_has_its_words_apart(rt: HostRuntime) -> Result<(), Fail> {
    let (board, _, mut pass) = finish_last(rt.alloc(), 65_536)?;
    assert_eq!(rt; board.load_lower(&mut pass, 1, 65_535), ONE);
    assert_eq!(rt; board.load_lower(&mut pass, 1, 65_534), 0);
    assert_eq!(rt; board.load_lower(&mut pass, 2, 0), 0);
    assert_eq!(rt; board.load_upper(&mut pass, 1, 65_535), ONE);
    assert!(rt; board.sealed(&mut pass, 0, 1_023));
    assert!(rt; !board.sealed(&mut pass, 1, 1_023));
    Ok(())
}

// Draws so often: the tickets, as digits to the base 8.
fn draw_some(board: &Board, mut pass: Pass, times: u32) -> (Pass, u64)
    requires pass { IsPassOf board.now pass }
    requires draws { times ≤ draws_of pass }
    ensures pass { IsPassOf board.now result.0 }
    ensures draws { draws_of result.0 + times ≡ draws_of pass }
{
    let mut seen = 0u64;
    for _ in 0..times {
        let ticket = board.draw(&mut pass);
        seen = seen.wrapping_mul(8).wrapping_add(ticket);
    }
    (pass, seen)
}

#[test]
fn tickets_are_drawn_one_after_another(rt: HostRuntime) -> Result<(), Fail> {
    let plan = four_states(rt.alloc())?;
    let (board, mut pass) = Board::open(rt.alloc(), plan)?;
    assert_eq!(rt; board.draw(&mut pass), 0);
    assert_eq!(rt; board.draw(&mut pass), 1);
    let mut other = board.split(&mut pass);
    assert_eq!(rt; board.draw(&mut other), 2);
    assert_eq!(rt; board.draw(&mut pass), 3);
    board.meet(&mut pass, other);
    assert_eq!(rt; board.draw(&mut pass), 4);
    assert_eq!(rt; board.load_lower(&mut pass, 1, 0), 0);
    assert!(rt; !board.sealed(&mut pass, 4, 0));
    Ok(())
}

#[test]
fn two_threads_draw_tickets_that_differ(rt: HostRuntime) -> Result<(), Fail> {
    let plan = four_states(rt.alloc())?;
    let (board, mut pass) = Board::open(rt.alloc(), plan)?;
    let other = board.split(&mut pass);
    let (first, second) = join(
        &rt,
        || draw_some(&board, pass, 3),
        || draw_some(&board, other, 3),
    );
    let (mut pass, one) = first;
    let (other, two) = second;
    // Each digit to the base 8 is a ticket, and each thread's tickets rise.
    let mut sets = [0u32; 2];
    for place in 0..3u32 {
        sets[0] |= 1 << ((one >> (3 * place)) & 7);
        sets[1] |= 1 << ((two >> (3 * place)) & 7);
    }
    assert_eq!(rt; sets[0] & sets[1], 0);
    assert_eq!(rt; sets[0] | sets[1], 63);
    board.meet(&mut pass, other);
    assert_eq!(rt; board.draw(&mut pass), 6);
    Ok(())
}

#[test]
fn a_stop_is_seen_by_other_passes(rt: HostRuntime) -> Result<(), Fail> {
    let plan = four_states(rt.alloc())?;
    let (board, mut pass) = Board::open(rt.alloc(), plan)?;
    let mut other = board.split(&mut pass);
    assert!(rt; !board.stopped(&mut pass));
    assert!(rt; !board.stopped(&mut other));
    board.stop(&mut other);
    assert!(rt; board.stopped(&mut other));
    assert!(rt; board.stopped(&mut pass));
    board.stop(&mut pass);
    assert!(rt; board.stopped(&mut pass));
    assert_eq!(rt; board.draw(&mut pass), 0);
    assert!(rt; !board.sealed(&mut pass, 4, 0));
    Ok(())
}
