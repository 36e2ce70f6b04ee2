// Boards that are tightened block by block.

ghost use Rattle.std.specs.Prelude.{◌≡◌, ◌<◌, ◌≤◌, IfOk, length};
ghost use Rattle.step_core.specs.PlanTables.{AreTablesOf, plan_low, plan_high};
ghost use Rattle.step_core.specs.SoundPlan.{IsSoundPlan};
ghost use Rattle.bound_grid.specs.Passes.{IsPassOf, KnowsMore};

use crate::block::tighten_block;
use bound_grid::{Board, Pass};
use round_out::{Entry, ONE};
use std::alloc::{AllocError, Global};
use std::test::Fail;
use std::thread::{Threads, join};
use step_core::{Frame, Mix, Plan, Row, Sets, Tables, plain_tables};

mod drawn;

fn row(alloc: Global, den: u64, entries: &[Entry]) -> Result<Row, AllocError>
    ensures { IfOk result (λ row. row ≡ record { den = den; entries = entries.now }) }
{
    Ok(Row {
        den,
        entries: Vec::from_slice(alloc, entries)?,
    })
}

// Sets that are known exactly.
fn sets(alloc: Global, goal: &[bool], live: &[bool]) -> Result<Sets, AllocError>
    ensures { IfOk result (λ sets. sets ≡ record {
      goal_must = goal.now;
      goal_may = goal.now;
      live_must = live.now;
      live_may = live.now;
    }) }
{
    Ok(Sets {
        goal_must: Vec::from_slice(alloc, goal)?,
        goal_may: Vec::from_slice(alloc, goal)?,
        live_must: Vec::from_slice(alloc, live)?,
        live_may: Vec::from_slice(alloc, live)?,
    })
}

// A state that stays with the probability 1/2 and jumps to the goal or to a trap with 1/4 each, and
// a state that jumps to it, for an unbounded until.
fn four_states(alloc: Global) -> Result<Plan, AllocError>
    ensures sound { IfOk result IsSoundPlan }
    ensures layers { IfOk result (λ plan. plan.layers ≡ 4) }
    ensures states { IfOk result (λ plan. length plan.frame.rows ≡ 4) }
{
    let first = row(
        alloc,
        4,
        &[
            Entry { to: 0, num: 2 },
            Entry { to: 1, num: 1 },
            Entry { to: 2, num: 1 },
        ],
    )?;
    let second = row(alloc, 4, &[Entry { to: 1, num: 4 }])?;
    let third = row(alloc, 4, &[Entry { to: 2, num: 4 }])?;
    let fourth = row(alloc, 4, &[Entry { to: 0, num: 4 }])?;
    let rows = vec![in alloc; first, second, third, fourth]?;
    let sets = sets(
        alloc,
        &[false, true, false, false],
        &[true, true, true, true],
    )?;
    Ok(Plan {
        frame: Frame { rows, sets },
        layers: 4,
        start_upper: vec![in alloc; ONE, ONE, 0, ONE]?,
        reach: vec![in alloc; true, true, false, true]?,
        mix: Mix::Last,
    })
}

fn low_word(plan: &Plan, tables: &Tables, k: u32, s: u32) -> u64
    requires tables { AreTablesOf plan.now tables.now }
    requires layer { k ≤ plan.now.layers }
    requires state { s < length plan.now.frame.rows }
    ensures { result ≡ plan_low plan.now k s }
{
    let layer = &tables.low[k as usize];
    layer[s as usize]
}

fn high_word(plan: &Plan, tables: &Tables, k: u32, s: u32) -> u64
    requires tables { AreTablesOf plan.now tables.now }
    requires layer { k ≤ plan.now.layers }
    requires state { s < length plan.now.frame.rows }
    ensures { result ≡ plan_high plan.now k s }
{
    let layer = &tables.high[k as usize];
    layer[s as usize]
}

// Whether both words of a state are those of the tables.
fn has_words(board: &Board, tables: &Tables, pass: &mut Pass, k: u32, s: u32) -> bool
    requires pass { IsPassOf board.now pass.old }
    requires tables { AreTablesOf board.now.plan tables.now }
    requires layer { k ≤ board.now.plan.layers }
    requires state { s < length board.now.plan.frame.rows }
    ensures knows { KnowsMore board.now pass.old pass.new }
{
    let low = low_word(board.plan(), tables, k, s);
    let high = high_word(board.plan(), tables, k, s);
    let lower = board.load_lower(pass, k, s);
    let upper = board.load_upper(pass, k, s);
    lower == low && upper == high
}

// Whether the layer's only block is sealed, and all its words are those of the tables.
fn is_done(board: &Board, tables: &Tables, pass: &mut Pass, k: u32) -> bool
    requires pass { IsPassOf board.now pass.old }
    requires tables { AreTablesOf board.now.plan tables.now }
    requires layer { k ≤ board.now.plan.layers }
    requires states { length board.now.plan.frame.rows ≡ 4 }
    ensures pass { IsPassOf board.now pass.new }
{
    let mut all = board.sealed(pass, k, 0);
    for s in 0..4u32 {
        all = all & has_words(board, tables, pass, k, s);
    }
    all
}

// Whether all layers are.
fn all_done(board: &Board, tables: &Tables, pass: &mut Pass) -> bool
    requires pass { IsPassOf board.now pass.old }
    requires tables { AreTablesOf board.now.plan tables.now }
    requires layers { board.now.plan.layers ≡ 4 }
    requires states { length board.now.plan.frame.rows ≡ 4 }
    ensures pass { IsPassOf board.now pass.new }
{
    let mut all = true;
    for k in 0..5u32 {
        let done = is_done(board, tables, pass, k);
        all = all & done;
    }
    all
}

// All layers, one after another, and whether all seals were set each time.
fn climb(board: &Board, mut pass: Pass) -> (Pass, bool)
    requires sound { IsSoundPlan board.now.plan }
    requires pass { IsPassOf board.now pass }
    requires layers { board.now.plan.layers ≡ 4 }
    requires states { length board.now.plan.frame.rows ≡ 4 }
    ensures { IsPassOf board.now result.0 }
{
    let mut all = true;
    for k in 1..5u32 {
        let seen = tighten_block(board, &mut pass, k, 0);
        all = all & seen;
    }
    (pass, all)
}

#[test]
fn one_thread_brings_all_words_to_the_tables(rt: HostRuntime) -> Result<(), Fail> {
    let plan = four_states(rt.alloc())?;
    let tables = plain_tables(rt.alloc(), &plan)?;
    let (board, mut pass) = Board::open(rt.alloc(), plan)?;
    let mut other = board.split(&mut pass);
    let (mut pass, all) = climb(&board, pass);
    assert!(rt; all);
    assert!(rt; all_done(&board, &tables, &mut pass));
    // A pass that was split off at the start finds the same.
    assert!(rt; all_done(&board, &tables, &mut other));
    Ok(())
}

#[test]
fn a_block_over_open_ones_stays_open(rt: HostRuntime) -> Result<(), Fail> {
    let plan = four_states(rt.alloc())?;
    let tables = plain_tables(rt.alloc(), &plan)?;
    let (board, mut pass) = Board::open(rt.alloc(), plan)?;
    assert!(rt; !tighten_block(&board, &mut pass, 2, 0));
    assert!(rt; !board.sealed(&mut pass, 2, 0));
    assert!(rt; !is_done(&board, &tables, &mut pass, 2));
    // The trap's upper word is 1 until layer 1 is tightened, and the goal's lower word is 1 at once.
    assert_eq!(rt; board.load_upper(&mut pass, 1, 2), ONE);
    assert_eq!(rt; board.load_lower(&mut pass, 2, 1), ONE);
    assert_eq!(rt; board.load_upper(&mut pass, 2, 2), 0);
    let (mut pass, all) = climb(&board, pass);
    assert!(rt; all);
    assert!(rt; is_done(&board, &tables, &mut pass, 2));
    Ok(())
}

#[test]
fn two_threads_meet_at_the_tables(rt: HostRuntime) -> Result<(), Fail> {
    let plan = four_states(rt.alloc())?;
    let tables = plain_tables(rt.alloc(), &plan)?;
    let (board, mut pass) = Board::open(rt.alloc(), plan)?;
    let other = board.split(&mut pass);
    let (first, second) = join(&rt, || climb(&board, pass), || climb(&board, other));
    let (mut pass, all) = first;
    assert!(rt; all);
    let (other, all) = second;
    assert!(rt; all);
    board.meet(&mut pass, other);
    assert!(rt; all_done(&board, &tables, &mut pass));
    Ok(())
}
