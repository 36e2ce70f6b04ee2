// A drawn chain of some hundred states, tightened by four threads in different orders.

ghost use Rattle.std.specs.Prelude.{◌≡◌, ◌<◌, ◌≤◌, All, IfOk, IsTrue, length};
ghost use Rattle.ctmc_semantics.specs.Sets.{IsSubset, holds_at};
ghost use Rattle.step_core.specs.PlanTables.{AreTablesOf};
ghost use Rattle.step_core.specs.SoundFrame.{IsSoundRow, AreSoundSets, IsSoundFrame};
ghost use Rattle.step_core.specs.SoundPlan.{IsSoundPlan};
ghost use Rattle.bound_grid.specs.Passes.{IsPassOf, KnowsMore};

use super::{has_words, row};
use crate::block::tighten_block;
use bound_grid::{Board, Pass};
use graph_reach::can_reach;
use round_out::Entry;
use std::alloc::{AllocError, Global};
use std::test::Fail;
use std::thread::{Threads, join};
use step_core::{BLOCK_STATES, Frame, Mix, Plan, Row, Sets, Tables, plain_tables, set_layer};

// The next number of a sequence that looks drawn.
fn drawn(seed: u64) -> u64 {
    seed.wrapping_mul(6_364_136_223_846_793_005)
        .wrapping_add(1_442_695_040_888_963_407)
}

// A row of three entries among 300 states.
fn drawn_row(alloc: Global, seed: u64) -> Result<Row, AllocError>
    ensures { IfOk result (IsSoundRow 300) }
{
    let first = (seed / 1_000_000 % 100) as u32;
    let second = first + 1 + (seed / 100_000_000 % 100) as u32;
    let third = second + 1 + (seed / 10_000_000_000 % 99) as u32;
    let a = 1 + seed / 100_000 % 9;
    let b = 1 + seed / 10_000 % 9;
    let c = 1 + seed / 1_000 % 9;
    let made = row(
        alloc,
        a + b + c,
        &[
            Entry { to: first, num: a },
            Entry { to: second, num: b },
            Entry { to: third, num: c },
        ],
    )?;
    Ok(made)
}

fn drawn_rows(alloc: Global) -> Result<Vec<Row>, AllocError>
    ensures sound { IfOk result (λ rows. All (IsSoundRow 300) rows.items) }
    ensures states { IfOk result (λ rows. length rows.items ≡ 300) }
{
    let mut rows = Vec::new(alloc);
    let mut seed: u64 = 1;
    for state in 0..300u64 {
        seed = drawn(seed ^ state);
        rows.push(drawn_row(alloc, seed)?)?;
    }
    Ok(rows)
}

// Some states are the goal, some may be, some are dead ends and some may be.
fn drawn_sets(alloc: Global) -> Result<Sets, AllocError> {
    let mut sets = Sets {
        goal_must: Vec::new(alloc),
        goal_may: Vec::new(alloc),
        live_must: Vec::new(alloc),
        live_may: Vec::new(alloc),
    };
    let mut seed: u64 = 2;
    for _ in 0..300u32 {
        seed = drawn(seed);
        let kind = seed / 1_000_000_000 % 16;
        sets.goal_must.push(kind == 0)?;
        sets.goal_may.push(kind <= 1)?;
        sets.live_must.push(kind < 13)?;
        sets.live_may.push(kind < 15)?;
    }
    Ok(sets)
}

fn holds(set: &[bool], state: usize) -> bool
    ensures { result ≡ holds_at set.now state }
{
    state < set.len() && set[state]
}

// Whether each state of the first list is one of the second.
fn is_within(inner: &[bool], outer: &[bool]) -> bool
    ensures { IsTrue result → IsSubset (holds_at inner.now) (holds_at outer.now) }
{
    for state in 0..inner.len() {
        let is_outside = !holds(outer, state);
        if inner[state] && is_outside {
            return false;
        }
    }
    true
}

fn are_sound(sets: &Sets, states: usize) -> bool
    ensures { IsTrue result → AreSoundSets states sets.now }
{
    sets.goal_must.len() == states
        && sets.goal_may.len() == states
        && sets.live_must.len() == states
        && sets.live_may.len() == states
        && is_within(&sets.goal_must, &sets.goal_may)
        && is_within(&sets.live_must, &sets.live_may)
}

fn drawn_frame(alloc: Global) -> Result<Frame, Fail>
    ensures sound { IfOk result IsSoundFrame }
    ensures states { IfOk result (λ frame. length frame.rows ≡ 300) }
{
    let rows = drawn_rows(alloc)?;
    let sets = drawn_sets(alloc)?;
    if !are_sound(&sets, 300) {
        return Err(Fail::from("the sets aren't sound"));
    }
    Ok(Frame { rows, sets })
}

// An unbounded until over the drawn chain.
fn drawn_plan(alloc: Global) -> Result<Plan, Fail>
    ensures sound { IfOk result IsSoundPlan }
    ensures layers { IfOk result (λ plan. plan.layers ≡ 12) }
    ensures states { IfOk result (λ plan. length plan.frame.rows ≡ 300) }
{
    let frame = drawn_frame(alloc)?;
    let reach = can_reach(alloc, &frame)?;
    let start_upper = set_layer(alloc, &reach)?;
    Ok(Plan {
        frame,
        layers: 12,
        start_upper,
        reach,
        mix: Mix::Last,
    })
}

// All blocks of a layer, from one of them on, and whether all seals were set each time.
fn sweep_layer(board: &Board, pass: &mut Pass, k: u32, first: u32) -> bool
    requires sound { IsSoundPlan board.now.plan }
    requires pass { IsPassOf board.now pass.old }
    requires above { 1 ≤ k }
    requires layer { k ≤ board.now.plan.layers }
    requires states { length board.now.plan.frame.rows ≡ 300 }
    requires first { first < 5 }
    ensures pass { IsPassOf board.now pass.new }
{
    let mut all = true;
    for step in 0..5u32 {
        let seen = tighten_block(board, pass, k, (first + step) % 5);
        all = all & seen;
    }
    all
}

// All layers, and whether all seals were set each time.
fn sweep(board: &Board, mut pass: Pass, first: u32) -> (Pass, bool)
    requires sound { IsSoundPlan board.now.plan }
    requires pass { IsPassOf board.now pass }
    requires layers { board.now.plan.layers ≡ 12 }
    requires states { length board.now.plan.frame.rows ≡ 300 }
    requires first { first < 5 }
    ensures { IsPassOf board.now result.0 }
{
    let mut all = true;
    for k in 1..13u32 {
        let seen = sweep_layer(board, &mut pass, k, first);
        all = all & seen;
    }
    (pass, all)
}

// Two threads, whose passes meet.
fn sweep_both(rt: &impl Threads, board: &Board, mut pass: Pass, firsts: (u32, u32)) -> (Pass, bool)
    requires sound { IsSoundPlan board.now.plan }
    requires pass { IsPassOf board.now pass }
    requires layers { board.now.plan.layers ≡ 12 }
    requires states { length board.now.plan.frame.rows ≡ 300 }
    requires first { firsts.0 < 5 }
    requires second { firsts.1 < 5 }
    ensures { IsPassOf board.now result.0 }
{
    let other = board.split(&mut pass);
    let (one, two) = join(
        rt,
        || sweep(board, pass, firsts.0),
        || sweep(board, other, firsts.1),
    );
    let (mut pass, all) = one;
    let (other, all_other) = two;
    board.meet(&mut pass, other);
    (pass, all & all_other)
}

// Whether all words of a layer are those of the tables, and all its seals are set.
fn layer_done(board: &Board, tables: &Tables, pass: &mut Pass, k: u32) -> bool
    requires pass { IsPassOf board.now pass.old }
    requires tables { AreTablesOf board.now.plan tables.now }
    requires layer { k ≤ board.now.plan.layers }
    requires states { length board.now.plan.frame.rows ≡ 300 }
    ensures pass { IsPassOf board.now pass.new }
{
    let mut all = true;
    for s in 0..300u32 {
        let sealed = board.sealed(pass, k, s / BLOCK_STATES);
        let equal = has_words(board, tables, pass, k, s);
        all = all & sealed & equal;
    }
    all
}

fn board_done(board: &Board, tables: &Tables, pass: &mut Pass) -> bool
    requires pass { IsPassOf board.now pass.old }
    requires tables { AreTablesOf board.now.plan tables.now }
    requires layers { board.now.plan.layers ≡ 12 }
    requires states { length board.now.plan.frame.rows ≡ 300 }
    ensures pass { IsPassOf board.now pass.new }
{
    let mut all = true;
    for k in 0..13u32 {
        let done = layer_done(board, tables, pass, k);
        all = all & done;
    }
    all
}

#[test]
fn four_threads_meet_at_the_tables_of_a_drawn_chain(rt: HostRuntime) -> Result<(), Fail> {
    let plan = drawn_plan(rt.alloc())?;
    let tables = plain_tables(rt.alloc(), &plan)?;
    let (board, mut pass) = Board::open(rt.alloc(), plan)?;
    let other = board.split(&mut pass);
    let (one, two) = join(
        &rt,
        || sweep_both(&rt, &board, pass, (0, 1)),
        || sweep_both(&rt, &board, other, (2, 4)),
    );
    let (mut pass, all) = one;
    assert!(rt; all);
    let (other, all) = two;
    assert!(rt; all);
    board.meet(&mut pass, other);
    assert!(rt; board_done(&board, &tables, &mut pass));
    Ok(())
}
